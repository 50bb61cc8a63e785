// Reading a laid tree.
ghost use Rattle.std.specs.Prelude.{◌≡◌, List, Option, None, option_map, length, slice_index_or};
ghost use Rattle.widget_model.specs.View.{look_in};
ghost use Rattle.plain_tree.specs.Laid.{Laid, Stood};
ghost use Rattle.laid_cursor.specs.Opened.{opened, laids_at, offset_of};

use fx_geom::Offset;
use plain_tree::{Frame, Notes};
use widget_model::Kind;

/// A place in a laid tree, however the tree is kept: what stands there is a laid node, of which its number, its kind, what the
/// layout gave to it and the laid nodes below it can be read.
pub trait LaidCursor: Copy {
    /// The laid node that stands there.
    ghost stands: { Self → Laid };

    /// What stands at each of the places below it, from first to last: a laid node at its offset, or none.
    ghost places: { Self → List (Option Stood) };

    /// Its number.
    fn number(&self) -> u64
        ensures { result ≡ (opened (stands self.now)).number };

    /// Its kind.
    fn kind(&self) -> &Kind
        ensures { look_in result.now ≡ (opened (stands self.now)).look };

    /// What it was laid out in, and what it took.
    fn frame(&self) -> Frame
        ensures { result ≡ (opened (stands self.now)).facts.frame };

    /// What the layout remarked of it.
    fn notes(&self) -> Notes
        ensures { result ≡ (opened (stands self.now)).facts.notes };

    /// Whether a delegate of its name was plugged.
    fn plugged(&self) -> bool
        ensures { result ≡ (opened (stands self.now)).facts.plugged };

    /// How many places there are below it.
    fn len(&self) -> usize
        ensures { result ≡ length (places self.now) };

    /// The laid node at place i below it, and how far from it that stands, in u; `None` where none stands there.
    fn child(&self, i: usize) -> Option<(Offset, Self)>
        ensures { option_map (λ p. record { at = p.0; child = stands p.1 }) result ≡ slice_index_or (places self.now) i None };

    /// How far from it the laid node at place i below it stands, in u; `None` where none stands there. It costs less than to
    /// go there.
    fn child_offset(&self, i: usize) -> Option<Offset>
        ensures { result ≡ option_map offset_of (slice_index_or (places self.now) i None) };

    /// What stands below it stands at these places.
    ghost below: { (s : Self) → (opened (stands s)).below ≡ laids_at (places s) };
}
