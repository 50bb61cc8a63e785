// What is read of the last frame.
ghost use Rattle.std.specs.Prelude.{◌≡◌, option_and_then, option_copied};
ghost use Rattle.screen_owner.specs.Screen.{shown_in, layer_in, laid_size};

use crate::owner::FrameOwner;
use fx_geom::Size;
use layer_tree::Layer;
use render_tree::RenderTree;

impl FrameOwner {
    /// The render nodes, of which the readers of a laid tree read the last frame's: hits, semantics, the order of the focus, notes.
    pub fn render(&self) -> &RenderTree
        ensures { result.now.tree ≡ self.now.screen.nodes }
    {
        &self.nodes
    }

    /// The layer of the last frame; none before the first.
    pub fn layer(&self) -> Option<&Layer>
        ensures { option_copied result ≡ layer_in self.now.screen }
    {
        self.layers.root()
    }

    /// The size that the last frame had, in u; none before the first.
    pub fn shown_size(&self) -> Option<Size>
        ensures { result ≡ option_and_then laid_size (shown_in self.now.screen) }
    {
        match self.nodes.root() {
            Some(root) => self.nodes.size(root),
            None => None,
        }
    }
}
