// Whom a course asks.
ghost use Rattle.std.specs.Prelude.{◌≡◌, ◌^◌, ◌<◌, sum, IfOk};
ghost use Rattle.delegates.specs.Table.{meant_in};
ghost use Rattle.node_tree.specs.Forest.{Forest};
ghost use Rattle.node_tree.specs.Forest.Forest.{none, tree};
ghost use Rattle.node_tree.specs.Tree.{IsNode, children_at};
ghost use Rattle.widget_model.specs.View.{look_in};
ghost use Rattle.layout_form.specs.declared.asks.Ask.TheVariants.{AsBox};
ghost use Rattle.layout_form.specs.Fits.{CanBeLaidOut};
ghost use Rattle.layout_form.specs.FlexRule.{factors_of};
ghost use Rattle.layout_form.specs.Object.{setting_of};
ghost use Rattle.layout_walk.specs.Node.{LayoutNode, tellings};
ghost use Rattle.kind_rules.specs.Few.{items_of};
ghost use Rattle.layout_rules.specs.Nodes.{SeenAt};
ghost use Rattle.layout_rules.specs.Places.{render_at};
ghost use Rattle.layout_walk.specs.Measure.{extents_in};
ghost use Rattle.layout_rules.specs.Courses.{cross_of};
ghost use Rattle.layout_rules.specs.Heard.{all_told};
ghost use Rattle.layout_rules.specs.Reads.{state_at, frames_at, first_by, rest_by, asks_again};
ghost use Rattle.layout_rules.specs.Ending.{asked_first, asked_rest, known_in, measured_frames};

use crate::cursor::RenderCursor;
use crate::duties::Course;
use crate::extents::measured_frames;
use crate::fixed::{list_at, list_first};
use crate::reading::{frames_of, kept_asks, state_at};
use delegates::{Delegate, DelegateTable};
use fx_geom::{Axis, Bounds};
use fx_handles::Handle;
use kind_rules::{Cursor, Few, findings, first_asks, liked_for, rest_asks, view_size};
use layout_form::Ask;
use layout_walk::trees_answer_as_render_nodes;
use plain_tree::{Frame, ParentData};
use render_tree::RenderTree;
use std::alloc::{AllocError, Global};
use widget_model::Kind;

// Whom the rule of a node asks first, by a list of what its children were told.
fn first_told(
    alloc: Global,
    r: &RenderTree,
    h: Handle,
    ask: Ask,
    told: &[ParentData],
    table: &DelegateTable,
) -> Result<Few<Option<Ask>>, AllocError>
    requires live { IsNode r.now.tree h }
    requires fits { CanBeLaidOut (render_at r.now.tree h) }
    ensures { IfOk result (λ asks. items_of asks ≡ first_by (setting_of r.now.scale (meant_in table.now ⟦<dyn Delegate as Delegate>⟧)) (render_at r.now.tree h) ask told.now) }
{
    let cursor = RenderCursor::new(r, h);
    let liked = liked_for(alloc, cursor.kind(), ask, cursor, r.scale())?;
    first_asks(
        alloc,
        cursor.kind(),
        cursor.count(),
        ask,
        liked,
        told,
        r.scale(),
        table,
    )
}

// The same by what is listed of it; a list whose children are all there reads how many they are off the tree.
fn rule_first(
    alloc: Global,
    r: &RenderTree,
    h: Handle,
    ask: Ask,
    told: &[ParentData],
    table: &DelegateTable,
) -> Result<Few<Option<Ask>>, AllocError>
    requires live { IsNode r.now.tree h }
    requires fits { CanBeLaidOut (render_at r.now.tree h) }
    ensures { IfOk result (λ asks. items_of asks ≡ first_by (setting_of r.now.scale (meant_in table.now ⟦<dyn Delegate as Delegate>⟧)) (render_at r.now.tree h) ask (all_told r.now.tree h told.now)) }
{
    match list_at(r, h) {
        None => first_told(alloc, r, h, ask, told, table),
        Some(extent) => list_first(alloc, extent, r.children(h).len(), ask),
    }
}

// Whom a course asks first.
pub(crate) fn first_of(
    alloc: Global,
    r: &RenderTree,
    h: Handle,
    course: Course,
    told: &[ParentData],
    table: &DelegateTable,
) -> Result<Few<Option<Ask>>, AllocError>
    requires live { IsNode r.now.tree h }
    requires fits { CanBeLaidOut (render_at r.now.tree h) }
    ensures { IfOk result (λ asks. (v : LayoutNode) (kids : Forest LayoutNode) → SeenAt r.now.tree h (tree h v kids none) → all_told r.now.tree h told.now ≡ tellings kids
        → items_of asks ≡ asked_first (setting_of r.now.scale (meant_in table.now ⟦<dyn Delegate as Delegate>⟧)) course v kids) }
{
    r.tree().count_laws();
    trees_answer_as_render_nodes();
    match course {
        Course::Run(ask) => rule_first(alloc, r, h, ask, told, table),
        Course::View(_, b) => rule_first(alloc, r, h, Ask::AsBox(b), told, table),
        Course::Visit => kept_asks(alloc, r, h),
        Course::Stay | Course::Hold(_) | Course::Open(_) => Ok(Few::Empty),
    }
}

// Whether a kind asks others by the first answers.
fn asks_again(kind: &Kind) -> bool
    ensures { result ≡ asks_again (look_in kind.now) }
{
    match kind {
        Kind::Row { .. } | Kind::Column { .. } | Kind::Stack { .. } | Kind::Viewport { .. } => true,
        _ => false,
    }
}

// Whom a rule asks then, by these frames of the children.
fn rule_rest(
    alloc: Global,
    r: &RenderTree,
    h: Handle,
    ask: Ask,
    told: &[ParentData],
    known: &[Option<Frame>],
) -> Result<Few<Option<Ask>>, AllocError>
    requires live { IsNode r.now.tree h }
    requires told { sum (factors_of told.now) < 2 ^ 64 }
    ensures { IfOk result (λ asks. items_of asks ≡ rest_by (render_at r.now.tree h) (state_at r.now.tree h) ask told.now known.now) }
{
    let cursor = RenderCursor::new(r, h);
    let scroll = state_at(r, h).scroll;
    let found = findings(cursor.kind(), scroll, ask, known);
    rest_asks(alloc, cursor.kind(), ask, found, told, known)
}

// The same by the frames of those that were asked first; where the kind asks nobody then, none is read.
fn run_rest(
    alloc: Global,
    r: &RenderTree,
    h: Handle,
    ask: Ask,
    told: &[ParentData],
    first: &Few<Option<Ask>>,
) -> Result<Few<Option<Ask>>, AllocError>
    requires live { IsNode r.now.tree h }
    requires told { sum (factors_of told.now) < 2 ^ 64 }
    ensures { IfOk result (λ asks. items_of asks ≡ rest_by (render_at r.now.tree h) (state_at r.now.tree h) ask told.now (frames_at r.now.tree (items_of first.now) (children_at r.now.tree h))) }
{
    let cursor = RenderCursor::new(r, h);
    if !asks_again(cursor.kind()) {
        return Ok(Few::Empty);
    }
    let known = frames_of(alloc, r, h, first, &Few::Empty)?;
    rule_rest(alloc, r, h, ask, told, known.as_slice())
}

// The same for a Viewport, by its slivers as they were measured.
fn view_rest(
    alloc: Global,
    r: &RenderTree,
    h: Handle,
    axis: Axis,
    b: Bounds,
    told: &[ParentData],
) -> Result<Few<Option<Ask>>, AllocError>
    requires live { IsNode r.now.tree h }
    requires told { sum (factors_of told.now) < 2 ^ 64 }
    ensures { IfOk result (λ asks. (v : LayoutNode) (kids : Forest LayoutNode) → SeenAt r.now.tree h (tree h v kids none)
        → items_of asks ≡ rest_by (render_at r.now.tree h) (state_at r.now.tree h) (AsBox b) told.now (measured_frames axis (cross_of axis b) (extents_in axis (cross_of axis b) kids))) }
{
    let cross = view_size(b).extent(axis.other());
    let known = measured_frames(alloc, r, h, axis, cross)?;
    rule_rest(alloc, r, h, Ask::AsBox(b), told, known.as_slice())
}

// Whom a course asks then.
pub(crate) fn rest_of(
    alloc: Global,
    r: &RenderTree,
    h: Handle,
    course: Course,
    told: &[ParentData],
    first: &Few<Option<Ask>>,
) -> Result<Few<Option<Ask>>, AllocError>
    requires live { IsNode r.now.tree h }
    requires told { sum (factors_of told.now) < 2 ^ 64 }
    ensures { IfOk result (λ asks. (v : LayoutNode) (kids : Forest LayoutNode) → SeenAt r.now.tree h (tree h v kids none)
        → items_of asks ≡ asked_rest course v told.now (known_in course (items_of first.now) kids)) }
{
    r.tree().count_laws();
    match course {
        Course::Run(ask) => run_rest(alloc, r, h, ask, told, first),
        Course::View(axis, b) => view_rest(alloc, r, h, axis, b, told),
        Course::Stay | Course::Visit | Course::Hold(_) | Course::Open(_) => Ok(Few::Empty),
    }
}
