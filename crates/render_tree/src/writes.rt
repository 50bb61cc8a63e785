// Parts of one node that are written. Where a handle isn't live nothing changes.
ghost use Rattle.std.specs.Prelude.{◌≡◌, Some, None};
ghost use Rattle.widget_model.specs.View.{shared};
ghost use Rattle.render_tree.specs.Edits.{Changes, with_widget, with_parent_data, with_scroll, with_frame, with_notes, with_plugged, with_scrolled, with_offset, with_shown, with_live, laid_out, laid_out_below, painted_now, painted_below};

use crate::object::RenderObject;
use fx_geom::Offset;
use fx_handles::Handle;
use node_tree::Tree;
use plain_tree::{Frame, Notes, ParentData};
use sliver_layout::Window;
use std::rc::Rc;
use widget_model::Widget;

pub(crate) fn write_widget(tree: &mut Tree<RenderObject>, h: Handle, w: Rc<Widget>)
    ensures { Changes tree.old tree.new h (with_widget (shared w)) }
{
    if let Some(object) = tree.value_mut(h) {
        object.widget = w;
    }
}

pub(crate) fn write_parent_data(tree: &mut Tree<RenderObject>, h: Handle, d: ParentData)
    ensures { Changes tree.old tree.new h (with_parent_data d) }
{
    if let Some(object) = tree.value_mut(h) {
        object.parent_data = d;
    }
}

pub(crate) fn write_scroll(tree: &mut Tree<RenderObject>, h: Handle, s: u64)
    ensures { Changes tree.old tree.new h (with_scroll s) }
{
    if let Some(object) = tree.value_mut(h) {
        object.scroll = s;
    }
}

pub(crate) fn write_frame(tree: &mut Tree<RenderObject>, h: Handle, f: Frame)
    ensures { Changes tree.old tree.new h (with_frame f) }
{
    if let Some(object) = tree.value_mut(h) {
        object.frame = Some(f);
    }
}

pub(crate) fn write_notes(tree: &mut Tree<RenderObject>, h: Handle, n: Notes)
    ensures { Changes tree.old tree.new h (with_notes n) }
{
    if let Some(object) = tree.value_mut(h) {
        object.notes = n;
    }
}

pub(crate) fn write_plugged(tree: &mut Tree<RenderObject>, h: Handle, on: bool)
    ensures { Changes tree.old tree.new h (with_plugged on) }
{
    if let Some(object) = tree.value_mut(h) {
        object.plugged = on;
    }
}

pub(crate) fn write_scrolled(tree: &mut Tree<RenderObject>, h: Handle, s: u64)
    ensures { Changes tree.old tree.new h (with_scrolled s) }
{
    if let Some(object) = tree.value_mut(h) {
        object.scrolled = s;
    }
}

pub(crate) fn write_offset(tree: &mut Tree<RenderObject>, h: Handle, at: Offset)
    ensures { Changes tree.old tree.new h (with_offset at) }
{
    if let Some(object) = tree.value_mut(h) {
        object.offset = Some(at);
    }
}

pub(crate) fn write_shown(tree: &mut Tree<RenderObject>, h: Handle, on: bool)
    ensures { Changes tree.old tree.new h (with_shown on) }
{
    if let Some(object) = tree.value_mut(h) {
        object.shown = on;
    }
}

pub(crate) fn write_live(tree: &mut Tree<RenderObject>, h: Handle, range: Option<Window>)
    ensures { Changes tree.old tree.new h (with_live range) }
{
    if let Some(object) = tree.value_mut(h) {
        object.live = range;
    }
}

pub(crate) fn lay_out(tree: &mut Tree<RenderObject>, h: Handle)
    ensures { Changes tree.old tree.new h laid_out }
{
    if let Some(object) = tree.value_mut(h) {
        object.needs_layout = false;
    }
}

pub(crate) fn lay_out_below(tree: &mut Tree<RenderObject>, h: Handle)
    ensures { Changes tree.old tree.new h laid_out_below }
{
    if let Some(object) = tree.value_mut(h) {
        object.layout_below = false;
    }
}

pub(crate) fn paint_now(tree: &mut Tree<RenderObject>, h: Handle)
    ensures { Changes tree.old tree.new h painted_now }
{
    if let Some(object) = tree.value_mut(h) {
        object.needs_paint = false;
    }
}

pub(crate) fn paint_below(tree: &mut Tree<RenderObject>, h: Handle)
    ensures { Changes tree.old tree.new h painted_below }
{
    if let Some(object) = tree.value_mut(h) {
        object.paint_below = false;
    }
}
