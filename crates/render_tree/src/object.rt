// What a render node is, and how a plan for a whole new tree changes it.
ghost use Rattle.std.specs.Prelude.{◌≡◌, Some, None, true, false};
ghost use Rattle.widget_model.specs.View.{look_in};
ghost use Rattle.plain_tree.specs.RenderRole.{render_role_of, is_window};
ghost use Rattle.render_tree.specs.Edits.{no_notes};
ghost use Rattle.render_tree.specs.Object.{bounds_in, size_in, sliver_in, geometry_in, lists};

use fx_geom::{Bounds, Offset, Size};
use node_tree::Update;
use plain_tree::{Frame, Notes, ParentData};
use sliver_layout::{Geometry, SliverBounds, Window};
use std::marker::Model;
use std::rc::Rc;
use widget_model::{Kind, Widget};

/// A render node, as the tree keeps it (`RenderObject`).
#[derive(Drop)]
pub struct RenderObject {
    pub(crate) number: u64,
    pub(crate) widget: Rc<Widget>,
    pub(crate) parent_data: ParentData,
    pub(crate) scroll: u64,
    pub(crate) frame: Option<Frame>,
    pub(crate) notes: Notes,
    pub(crate) plugged: bool,
    pub(crate) scrolled: u64,
    pub(crate) offset: Option<Offset>,
    pub(crate) shown: bool,
    pub(crate) live: Option<Window>,
    pub(crate) needs_layout: bool,
    pub(crate) layout_below: bool,
    pub(crate) needs_paint: bool,
    pub(crate) paint_below: bool,
}

impl Model for RenderObject {
    ghost use Rattle.widget_model.specs.View.{shared};
    ghost use Rattle.render_tree.specs.Object.{RenderObject as RenderObjectOf, object_code};

    ghost Value = { RenderObjectOf };

    ghost coded = { object_code };

    ghost view = { λ o. record {
      number = o.number;
      widget = shared o.widget;
      parent_data = o.parent_data;
      scroll = o.scroll;
      frame = o.frame;
      notes = o.notes;
      plugged = o.plugged;
      scrolled = o.scrolled;
      offset = o.offset;
      shown = o.shown;
      live = o.live;
      needs_layout = o.needs_layout;
      layout_below = o.layout_below;
      needs_paint = o.needs_paint;
      paint_below = o.paint_below;
    } };
}

/// What a plan gives to a render node that stays or is new: its widget, and what its parent takes from the widgets between
/// them. What its last layout gave, its scroll offset and its marks stay as they are.
#[derive(Drop)]
pub struct Redraw {
    pub widget: Rc<Widget>,
    pub parent_data: ParentData,
}

impl Model for Redraw {
    ghost use Rattle.widget_model.specs.View.{shared};
    ghost use Rattle.render_tree.specs.Redraw.{Redraw as RedrawOf, redraw_code};

    ghost Value = { RedrawOf };

    ghost coded = { redraw_code };

    ghost view = { λ u. record { widget = shared u.widget; parent_data = u.parent_data } };
}

impl Update<RenderObject> for Redraw {
    ghost use Rattle.render_tree.specs.Redraw.{redrawn};

    ghost updated = { redrawn };

    fn apply(self, value: &mut RenderObject) {
        let Redraw {
            widget,
            parent_data,
        } = self;
        value.widget = widget;
        value.parent_data = parent_data;
    }
}

// The bounds of a box.
pub(crate) fn bounds_in(frame: Option<Frame>) -> Option<Bounds>
    ensures { result ≡ bounds_in frame }
{
    match frame? {
        Frame::Boxed { bounds, .. } => Some(bounds),
        Frame::Sliver { .. } => None,
    }
}

// The size of a box.
pub(crate) fn size_in(frame: Option<Frame>) -> Option<Size>
    ensures { result ≡ size_in frame }
{
    match frame? {
        Frame::Boxed { size, .. } => Some(size),
        Frame::Sliver { .. } => None,
    }
}

// The bounds of a sliver.
pub(crate) fn sliver_in(frame: Option<Frame>) -> Option<SliverBounds>
    ensures { result ≡ sliver_in frame }
{
    match frame? {
        Frame::Boxed { .. } => None,
        Frame::Sliver { bounds, .. } => Some(bounds),
    }
}

// The geometry of a sliver.
pub(crate) fn geometry_in(frame: Option<Frame>) -> Option<Geometry>
    ensures { result ≡ geometry_in frame }
{
    match frame? {
        Frame::Boxed { .. } => None,
        Frame::Sliver { geometry, .. } => Some(geometry),
    }
}

// Whether a kind can be scrolled: it is a Viewport.
pub(crate) fn is_viewport(kind: &Kind) -> bool
    ensures { result ≡ is_window (render_role_of (look_in kind.now)) }
{
    match kind {
        Kind::Viewport { .. } => true,
        _ => false,
    }
}

// Whether a kind has a live range: it is a SliverLazy.
pub(crate) fn is_lazy(kind: &Kind) -> bool
    ensures { result ≡ lists (render_role_of (look_in kind.now)) }
{
    match kind {
        Kind::SliverLazy { .. } => true,
        _ => false,
    }
}

// Whether notes say something.
pub(crate) fn is_noted(notes: Notes) -> bool
    ensures quiet { result ≡ false → notes ≡ no_notes }
    ensures noted { result ≡ true → notes ≡ no_notes → ⊥ }
{
    if notes.unbounded {
        return true;
    }
    notes.overflow != 0
}
