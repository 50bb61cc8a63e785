// Laws of the definitions.
ghost use Rattle.std.specs.Prelude.{◌≡◌, ℕ, Some, IfSome};
ghost use Rattle.plain_tree.specs.At.{numbers_of};
ghost use Rattle.plain_tree.specs.Laws.{AllDiffer};
ghost use Rattle.plain_tree.specs.Offsets.{corrected};
ghost use Rattle.plain_tree.specs.PlainNode.{PlainNode};
ghost use Rattle.build_form.specs.FullBuild.{Screen, built};
ghost use Rattle.build_form.specs.Numbered.{IsNumbered};
ghost use Rattle.session_form.specs.Framing.{screen_of, built_of, laid_of, shown_of, framed};
ghost use Rattle.session_form.specs.State.{SessionState};
ghost use Rattle.session_form.specs.Worked.{Works};

use build_form::numbers_differ;
use layout_form::{corrected_offsets_stay, projections_take_offsets};
use plain_tree::projection_keeps_numbers_apart;

/// Scripts are played as they were worked out by hand.
pub fn worked_steps()
    ensures { Works }
{}

/// What is shown after a frame is the tree that the session then has, laid out: the offsets that the layout corrected give
/// the same again. This holds of each tree whose numbers differ; and of each frame over no tree, or over one whose numbers
/// differ and are below the next, and whose nodes stand in their places, as is so of the trees that a session keeps.
pub fn frames_show_their_tree()
    ensures trees { (screen : Screen) (tree : PlainNode) → AllDiffer (numbers_of tree) → laid_of screen (corrected (laid_of screen tree) tree) ≡ laid_of screen tree }
    ensures frames { (s : SessionState) (tree : PlainNode) (next : ℕ) → IfSome s.tree (IsNumbered s.next) → built_of s ≡ built tree next
        → IfSome (framed s tree next).tree (λ t. (framed s tree next).shown ≡ Some (shown_of (screen_of (framed s tree next)) t)) }
{
    numbers_differ();
    projection_keeps_numbers_apart();
    projections_take_offsets();
    corrected_offsets_stay();
}
