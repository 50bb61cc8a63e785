// What a duty comes to at a node.
ghost use Rattle.std.specs.Prelude.{◌≡◌, ◌&&◌, ◌<◌, List, length, slice_index_or, option_map, is_some, Some, None};
ghost use Rattle.fx_handles.specs.declared.Handle.{Handle as HandleOf};
ghost use Rattle.node_tree.specs.Tree.{IsNode};
ghost use Rattle.widget_model.specs.View.{look_in};
ghost use Rattle.kind_rules.specs.Few.{items_of};
ghost use Rattle.layout_walk.specs.Node.{ask_in};
ghost use Rattle.layout_walk.specs.Asking.{asked_so, same_bounds, same_len, same_axis, same_view};
ghost use Rattle.layout_walk.specs.Measure.{cross_in, measured_below};
ghost use Rattle.layout_walk.specs.Rules.{holds_in};
ghost use Rattle.render_tree.specs.Object.{RenderObject as RenderObjectOf};
ghost use Rattle.render_tree.specs.Tree.{object_at};
ghost use Rattle.layout_rules.specs.Nodes.{layout_node};
ghost use Rattle.layout_rules.specs.Duties.{lay_duties};
ghost use Rattle.layout_rules.specs.Marks.{due_in, open_in};
ghost use Rattle.layout_rules.specs.Courses.{course_of, lay_course, rule_course, open_course, first_duties};

use crate::cursor::RenderCursor;
use crate::duties::{Course, Duty};
use crate::reading::state_at;
use fx_geom::{Axis, Bounds, Insets, Len};
use fx_handles::Handle;
use kind_rules::{Cursor, Few, unseen, view_size};
use layout_form::Ask;
use plain_tree::Frame;
use render_tree::{LayoutState, RenderTree};
use sliver_layout::{SliverBounds, padded};
use widget_model::Kind;

// Whether two bounds are the same.
pub(crate) fn is_bounds(a: Bounds, b: Bounds) -> bool
    ensures { result ≡ same_bounds a b }
{
    a.min_w == b.min_w
        && (is_len(a.max_w, b.max_w) && (a.min_h == b.min_h && is_len(a.max_h, b.max_h)))
}

fn is_len(a: Len, b: Len) -> bool
    ensures { result ≡ same_len a b }
{
    match (a, b) {
        (Len::Finite(a), Len::Finite(b)) => a == b,
        (Len::Unbounded, Len::Unbounded) => true,
        _ => false,
    }
}

fn is_axis(a: Axis, b: Axis) -> bool
    ensures { result ≡ same_axis a b }
{
    match (a, b) {
        (Axis::Horizontal, Axis::Horizontal) | (Axis::Vertical, Axis::Vertical) => true,
        _ => false,
    }
}

// Whether two views are the same.
pub(crate) fn is_view(a: SliverBounds, b: SliverBounds) -> bool
    ensures { result ≡ same_view a b }
{
    is_axis(a.axis, b.axis)
        && (a.offset == b.offset && (a.remaining == b.remaining && a.cross == b.cross))
}

// Whether a frame holds an ask.
fn was_asked(frame: Option<Frame>, ask: Ask) -> bool
    ensures { result ≡ asked_so (option_map ask_in frame) ask }
{
    match (frame, ask) {
        (Some(Frame::Boxed { bounds, .. }), Ask::AsBox(b)) => is_bounds(bounds, b),
        (Some(Frame::Sliver { bounds, .. }), Ask::AsSliver(b)) => is_view(bounds, b),
        _ => false,
    }
}

// Whether a node that is asked so has its rule run.
fn is_due(state: LayoutState, ask: Ask) -> bool
    ensures { result ≡ due_in state ask }
{
    state.needs_layout || !was_asked(state.frame, ask)
}

// Whether an outer flush lays out a node of a kind without what is below it.
fn holds(kind: &Kind, ask: Ask) -> bool
    ensures { result ≡ holds_in (look_in kind.now) ask }
{
    match ask {
        Ask::AsBox(_) => false,
        Ask::AsSliver(_) => match kind {
            Kind::SliverLazy { .. } => true,
            _ => false,
        },
    }
}

fn rule_course(kind: &Kind, ask: Ask) -> Course
    ensures { result ≡ rule_course (look_in kind.now) ask }
{
    match ask {
        Ask::AsBox(b) => match kind {
            Kind::Viewport { axis } => Course::View(*axis, b),
            _ => Course::Run(ask),
        },
        Ask::AsSliver(_) => Course::Run(ask),
    }
}

fn lay_course(kind: &Kind, state: LayoutState, ask: Ask, outer: bool) -> Course
    ensures { result ≡ lay_course (due_in state ask) (outer && holds_in (look_in kind.now) ask) (look_in kind.now) state.layout_below ask }
{
    let held = outer && holds(kind, ask);
    if is_due(state, ask) {
        if held {
            return Course::Hold(ask);
        }
        return rule_course(kind, ask);
    }
    if held {
        return Course::Stay;
    }
    if state.layout_below {
        Course::Visit
    } else {
        Course::Stay
    }
}

// Whether the stored frame of a sliver doesn't tell how far it can be scrolled through.
pub(crate) fn is_open(state: LayoutState, axis: Axis, cross: u64) -> bool
    ensures { result ≡ open_in axis cross state }
{
    if state.needs_layout {
        return true;
    }
    match state.frame {
        Some(Frame::Sliver { bounds, .. }) => !(is_axis(bounds.axis, axis)
            && bounds.cross == cross),
        _ => true,
    }
}

// The cross extent in a SliverPadding.
pub(crate) fn inner_cross(axis: Axis, cross: u64, insets: Insets) -> u64
    ensures { result ≡ cross_in axis cross insets }
{
    padded(unseen(axis, cross), insets).cross
}

fn below_course(kind: &Kind, axis: Axis, cross: u64) -> Course
    ensures { result ≡ open_course axis cross (measured_below (look_in kind.now)) }
{
    match kind {
        Kind::SliverToBox => Course::Open(Duty::Lay(Ask::AsBox(Bounds::along(
            axis,
            0,
            Len::Unbounded,
            cross,
            Len::Finite(cross),
        )))),
        Kind::SliverPadding {
            left,
            top,
            right,
            bottom,
        } => {
            let insets = Insets {
                left: *left,
                top: *top,
                right: *right,
                bottom: *bottom,
            };
            Course::Open(Duty::Measure(axis, inner_cross(axis, cross, insets)))
        }
        _ => Course::Stay,
    }
}

// What a duty comes to at a live node.
pub(crate) fn course_of(r: &RenderTree, h: Handle, duty: Duty, outer: bool) -> Course
    requires { IsNode r.now.tree h }
    ensures { (o : RenderObjectOf) → object_at r.now.tree h ≡ Some o → result ≡ course_of outer duty (layout_node o) }
{
    r.tree().count_laws();
    let cursor = RenderCursor::new(r, h);
    let state = state_at(r, h);
    match duty {
        Duty::Lay(ask) => lay_course(cursor.kind(), state, ask, outer),
        Duty::Measure(axis, cross) => if is_open(state, axis, cross) {
            below_course(cursor.kind(), axis, cross)
        } else {
            Course::Stay
        },
    }
}

// Whether child i has a duty in the first round; this is told without making it.
pub(crate) fn has_first(course: Course, first: &Few<Option<Ask>>, i: usize) -> bool
    ensures { (kids : List HandleOf) → i < length kids → result ≡ is_some (slice_index_or (first_duties course (items_of first.now) kids) i None) }
{
    match course {
        Course::View(_, _) => true,
        Course::Open(_) => i == 0,
        Course::Stay | Course::Visit | Course::Hold(_) | Course::Run(_) => has_lay(first, i),
    }
}

// The same in the second round.
fn has_lay(asks: &Few<Option<Ask>>, i: usize) -> bool
    ensures { result ≡ is_some (slice_index_or (lay_duties (items_of asks.now)) i None) }
{
    match asks.as_slice().get(i) {
        None => false,
        Some(slot) => slot.is_some(),
    }
}

// The duty of child i in the first round.
pub(crate) fn first_duty(course: Course, first: &Few<Option<Ask>>, i: usize) -> Option<Duty>
    ensures { (kids : List HandleOf) → i < length kids → result ≡ slice_index_or (first_duties course (items_of first.now) kids) i None }
{
    match course {
        Course::View(axis, b) => Some(Duty::Measure(axis, view_size(b).extent(axis.other()))),
        Course::Open(duty) => if i == 0 { Some(duty) } else { None },
        Course::Stay | Course::Visit | Course::Hold(_) | Course::Run(_) => lay_duty(first, i),
    }
}

// The duty of child i in the second round.
pub(crate) fn lay_duty(asks: &Few<Option<Ask>>, i: usize) -> Option<Duty>
    ensures { result ≡ slice_index_or (lay_duties (items_of asks.now)) i None }
{
    match asks.as_slice().get(i) {
        None => None,
        Some(slot) => match *slot {
            None => None,
            Some(ask) => Some(Duty::Lay(ask)),
        },
    }
}
