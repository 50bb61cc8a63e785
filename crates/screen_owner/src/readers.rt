// What is read of a screen.
ghost use Rattle.std.specs.Prelude.{◌≡◌, ℕ, Some, None, option_and_then, option_copied, false};
ghost use Rattle.fx_handles.specs.declared.Handle.{Handle};
ghost use Rattle.render_tree.specs.Object.{RenderObject as RenderObjectOf};
ghost use Rattle.render_tree.specs.Plain.{renders_of, root_tree};
ghost use Rattle.render_tree.specs.Readings.{scroll_of};
ghost use Rattle.render_tree.specs.Tree.{object_at};
ghost use Rattle.render_sync.specs.Numbering.{number_at};
ghost use Rattle.screen_owner.specs.Last.{window_in};
ghost use Rattle.screen_owner.specs.Screen.{shown_in, layer_in, laid_size};

use crate::owner::{ScreenOwner, find};
use fx_geom::Size;
use layer_tree::Layer;
use render_tree::RenderTree;

impl ScreenOwner {
    /// The render nodes, of which the readers of a laid tree read the last frame's: hits, semantics, the order of the focus, notes.
    pub fn render(&self) -> &RenderTree
        ensures { result.now.tree ≡ self.now.nodes }
    {
        &self.tree
    }

    /// The layer of the last frame; none before the first.
    pub fn layer(&self) -> Option<&Layer>
        ensures { option_copied result ≡ layer_in self.now }
    {
        self.layers.root()
    }

    /// The size that the last frame had, in u; none before the first.
    pub fn shown_size(&self) -> Option<Size>
        ensures { result ≡ option_and_then laid_size (shown_in self.now) }
    {
        match self.tree.root() {
            Some(root) => self.tree.size(root),
            None => None,
        }
    }

    /// How far the Viewport with a number is scrolled, in u; none where no Viewport has it.
    pub fn scroll_at(&self, number: u64) -> Option<u64>
        ensures node { self.now.spent ≡ false → (k : Handle) (o : RenderObjectOf) → object_at self.now.nodes k ≡ Some o → o.number ≡ number → result ≡ scroll_of o }
        ensures window { self.now.spent ≡ false → result ≡ window_in number (renders_of (root_tree self.now.nodes)) }
        ensures none { self.now.spent ≡ false → ((k : Handle) → number_at self.now.nodes k ≡ Some number → ⊥) → result ≡ None }
    {
        // Tells the proof that this is a tree.
        let _ = self.tree.root();
        match find(&self.numbers, number) {
            Some(h) => self.tree.scroll(h),
            None => None,
        }
    }
}
