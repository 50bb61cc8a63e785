// How far a walk has come, and what it has planned.
use element_tree::Renewal;
use fx_expr::Value;
use fx_handles::Handle;
use node_tree::PlanEntry;
use plain_tree::{ParentData, RenderRole};
use render_tree::Redraw;
use std::collections::VecDeque;
use std::rc::Rc;
use widget_model::Widget;

/// A lazy list that waits for its items: its element, the old element that it goes on from, how many depths are left below it, and the
/// values of inherited names there, in the new tree and, below the old element, in the old one; its number and its widget.
#[derive(Drop)]
pub(crate) struct WaitingSpot {
    pub(crate) at: Handle,
    pub(crate) kept: Option<Handle>,
    pub(crate) left: u32,
    pub(crate) now: Vec<Value>,
    pub(crate) was: Vec<Value>,
    pub(crate) number: u64,
    pub(crate) list: Rc<Widget>,
}

/// How many widgets were entered, the entries for both trees, children before their parent, the render nodes right below the nearest
/// one above, and the lazy lists that wait, in order.
#[derive(Drop)]
pub(crate) struct BuildWalk {
    pub(crate) entered: u32,
    pub(crate) elements: Vec<PlanEntry<Renewal>>,
    pub(crate) renders: Vec<PlanEntry<Redraw>>,
    pub(crate) tops: Vec<Handle>,
    pub(crate) spots: VecDeque<WaitingSpot>,
}

/// Where a widget is entered: the element above, the render node above, its role, and what the widgets between told.
#[derive(Clone, Copy)]
pub(crate) struct EnteredPlace<'r, 't> {
    pub(crate) parent: Option<Handle>,
    pub(crate) above: Option<Handle>,
    pub(crate) role: &'r RenderRole,
    pub(crate) told: Option<&'t ParentData>,
}
