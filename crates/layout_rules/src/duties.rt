// What is done at a node.
use fx_geom::{Axis, Bounds};
use layout_form::Ask;

/// A node is laid out as it is asked; or it is a sliver of a Viewport along an axis, with this cross extent, and is measured.
#[derive(Clone, Copy)]
pub enum Duty {
    Lay(Ask),
    Measure(Axis, u64),
}

/// What a duty comes to: nothing; the children in the window that have marks are visited; the rule is run, but for what is below;
/// the rule is run; that of a Viewport is; a sliver is opened, and this is done at its first child.
#[derive(Clone, Copy)]
pub enum Course {
    Stay,
    Visit,
    Hold(Ask),
    Run(Ask),
    View(Axis, Bounds),
    Open(Duty),
}
