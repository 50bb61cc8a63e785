// What a course leaves of a node and its children, once what it does at the children is done.
ghost use Rattle.std.specs.Prelude.{◌≡◌, ◌∷◌, ◌++◌, [], List, IfOk, OnOk, Some, true, false, if◌then◌else◌};
ghost use Rattle.delegates.specs.Table.{meant_in};
ghost use Rattle.fx_handles.specs.declared.Handle.{Handle as HandleOf};
ghost use Rattle.node_tree.specs.Forest.{Forest};
ghost use Rattle.node_tree.specs.Forest.Forest.{none, tree};
ghost use Rattle.node_tree.specs.Tree.{IsNode, children_at};
ghost use Rattle.layout_form.specs.Framed.{last_asks};
ghost use Rattle.layout_form.specs.Object.{setting_of};
ghost use Rattle.kind_rules.specs.Asked.{found_of, found_for};
ghost use Rattle.kind_rules.specs.Few.{items_of};
ghost use Rattle.layout_walk.specs.Node.{LayoutNode};
ghost use Rattle.layout_walk.specs.Walk.{any_mark, marked_below};
ghost use Rattle.layout_walk.specs.Measure.{opened};
ghost use Rattle.layout_rules.specs.Nodes.{SeenAt};
ghost use Rattle.widget_model.specs.View.{look_in};
ghost use Rattle.plain_tree.specs.Offsets.{rescrolled};
ghost use Rattle.plain_tree.specs.RenderRole.{render_role_of};
ghost use Rattle.layout_form.specs.Layout.{is_plugged, delegate_of};
ghost use Rattle.layout_walk.specs.Asking.{has_frame};
ghost use Rattle.layout_rules.specs.declared.duties.Course.TheVariants as course;
ghost use Rattle.layout_rules.specs.Reads.{frames_at, finds_in, made_state};
ghost use Rattle.layout_rules.specs.Heard.{all_told};
ghost use Rattle.layout_rules.specs.Listing.{ListsChange};
ghost use Rattle.layout_rules.specs.Painting.{Leaves};
ghost use Rattle.layout_rules.specs.Serving.{IsSeen, EndsAs, RunsAs, CanEndAt, CanRunAt};
ghost use Rattle.layout_rules.specs.Turns.{Turns};

use crate::cursor::RenderCursor;
use crate::duties::Course;
use crate::made::made_at;
use crate::reading::{any_mark, frames_of, state_at};
use crate::stepping::{is_bounds, is_view};
use crate::writing::stand_all;
use delegates::{Delegate, DelegateTable};
use fx_geom::Scale;
use fx_handles::Handle;
use fx_outside::Steps;
use kind_rules::{Cursor, Few, Found, findings, make};
use layout_form::Ask;
use plain_tree::{Frame, Notes, ParentData};
use render_tree::{LayoutState, RenderTree};
use std::alloc::{AllocError, Global};
use std::sync::ledger::Ledger;
use widget_model::Kind;

// Whether the delegate of a kind is plugged.
fn is_plugged(kind: &Kind, scale: Scale, table: &DelegateTable) -> bool
    ensures { result ≡ is_plugged (setting_of scale (meant_in table.now ⟦<dyn Delegate as Delegate>⟧)).delegates (delegate_of (look_in kind.now)) }
{
    match kind {
        Kind::CustomPaint { delegate } | Kind::CustomLayout { delegate } => table.has(
            delegate.get(),
        ),
        _ => false,
    }
}

// The mark for what is below a node is computed again.
fn visited(r: &mut RenderTree, h: Handle)
    requires { IsNode r.old.tree h }
    ensures ends { (v : LayoutNode) (kids : Forest LayoutNode) → SeenAt r.old.tree h (tree h v kids none)
        → Turns r.old.tree r.new.tree h (tree h v kids none) (tree h (marked_below v (any_mark kids)) kids none) }
    ensures paints { (hs : List HandleOf) → Leaves r.old.tree r.new.tree h hs hs }
    ensures scale { r.new.scale ≡ r.old.scale }
    ensures spent { r.new.spent ≡ r.old.spent }
{
    let mut state = state_at(r, h);
    state.layout_below = any_mark(r, h);
    r.set_layout_state(h, state);
}

// A sliver that is measured gets both marks.
fn open(r: &mut RenderTree, h: Handle)
    requires { IsNode r.old.tree h }
    ensures ends { (v : LayoutNode) (kids : Forest LayoutNode) → SeenAt r.old.tree h (tree h v kids none)
        → Turns r.old.tree r.new.tree h (tree h v kids none) (tree h (opened v) kids none) }
    ensures paints { (hs : List HandleOf) → Leaves r.old.tree r.new.tree h hs hs }
    ensures scale { r.new.scale ≡ r.old.scale }
    ensures spent { r.new.spent ≡ r.old.spent }
{
    let mut state = state_at(r, h);
    state.needs_layout = true;
    state.layout_below = true;
    r.set_layout_state(h, state);
}

// Whether a node had this frame.
fn is_frame(stored: Option<Frame>, frame: Frame) -> bool
    ensures { result ≡ has_frame stored (Some frame) }
{
    match (stored, frame) {
        (
            Some(Frame::Boxed { bounds, size }),
            Frame::Boxed {
                bounds: given,
                size: made,
            },
        ) => is_bounds(bounds, given) && size == made,
        (
            Some(Frame::Sliver { bounds, geometry }),
            Frame::Sliver {
                bounds: given,
                geometry: made,
            },
        ) => is_view(bounds, given) && geometry == made,
        _ => false,
    }
}

// Whether a rule made another frame than the one that is stored, or the delegate of the node is plugged now, or isn't any more.
fn is_remade(state: LayoutState, frame: Frame, plugged: bool) -> bool
    ensures same { result ≡ false → (state.frame ≡ Some frame) × (state.plugged ≡ plugged) }
    ensures other { result ≡ true → state.frame ≡ Some frame → state.plugged ≡ plugged → ⊥ }
{
    !is_frame(state.frame, frame) | (state.plugged != plugged)
}

// What a rule remarks that has nothing to remark.
pub(crate) const NO_NOTES: Notes = Notes {
    overflow: 0,
    unbounded: false,
};

// What a rule made is written into the state of its node, but for the mark of what is below it. It tells whether the node looks
// otherwise than before.
pub(crate) fn store_made(
    state: &mut LayoutState,
    kind: &Kind,
    frame: Frame,
    notes: Notes,
    scrolled: u64,
    scale: Scale,
    table: &DelegateTable,
) -> bool
    ensures made { state.new ≡ made_state (setting_of scale (meant_in table.now ⟦<dyn Delegate as Delegate>⟧)) (look_in kind.now) frame notes scrolled state.old }
    ensures same { result ≡ false → (state.old.frame ≡ state.new.frame) × (state.old.plugged ≡ state.new.plugged) }
    ensures other { result ≡ true → state.old.frame ≡ state.new.frame → state.old.plugged ≡ state.new.plugged → ⊥ }
{
    let plugged = is_plugged(kind, scale, table);
    let remade = is_remade(*state, frame, plugged);
    state.plugged = plugged;
    state.scroll = scrolled_to(kind, scrolled, state.scroll);
    state.frame = Some(frame);
    state.notes = notes;
    state.scrolled = scrolled;
    state.needs_layout = false;
    remade
}

// A node asks for painting, if it has to.
pub(crate) fn note(changed: &mut Vec<Handle>, h: Handle, asks: bool) -> Result<(), AllocError>
    ensures { OnOk result (changed.new.items ≡ changed.old.items ++ (if asks then h ∷ [] else [])) }
{
    if asks {
        changed.push(h)?;
    }
    Ok(())
}

// A rule is run without what is below the node, which still has to be laid out; where it gives what is stored nothing is done.
fn hold<L: Ledger>(
    alloc: Global,
    r: &mut RenderTree,
    h: Handle,
    ask: Ask,
    table: &DelegateTable,
    changed: &mut Vec<Handle>,
    steps: &mut Steps<L>,
) -> Result<(), AllocError>
    requires live { IsNode r.old.tree h }
    requires seen { IsSeen r.old.tree h }
    requires can { CanEndAt (course.Hold ask) [] [] [] r.old.tree h }
    ensures ends { OnOk result (EndsAs (setting_of r.old.scale (meant_in table.now ⟦<dyn Delegate as Delegate>⟧)) (course.Hold ask) [] [] [] r.old.tree r.new.tree h steps.old steps.new) }
    ensures changes { OnOk result (ListsChange r.old.tree r.new.tree h changed.old.items changed.new.items steps.old steps.new) }
    ensures scale { r.new.scale ≡ r.old.scale }
    ensures spent { r.new.spent ≡ r.old.spent }
{
    r.tree().count_laws();
    let scale = r.scale();
    let mut state = state_at(r, h);
    let cursor = RenderCursor::new(r, h);
    let found = findings(cursor.kind(), state.scroll, ask, &[]);
    let made = make(
        alloc,
        cursor.kind(),
        cursor.count(),
        ask,
        found,
        &[],
        &[],
        scale,
        table,
    )?;
    if is_frame(state.frame, made.frame) {
        return Ok(());
    }
    changed.push(h)?;
    state.plugged = is_plugged(cursor.kind(), scale, table);
    state.frame = Some(made.frame);
    state.notes = made.notes;
    state.scrolled = made.scrolled;
    state.needs_layout = true;
    r.set_layout_state(h, state);
    steps.tick();
    Ok(())
}

// Whether the first answers tell a kind something.
fn finds(kind: &Kind) -> bool
    ensures { result ≡ finds_in (look_in kind.now) }
{
    match kind {
        Kind::Stack { .. } | Kind::Viewport { .. } => true,
        _ => false,
    }
}

// What the first answers of a node tell; where they tell its kind nothing, none is read.
fn found_at(
    alloc: Global,
    r: &RenderTree,
    h: Handle,
    kind: &Kind,
    scroll: u64,
    ask: Ask,
    first: &Few<Option<Ask>>,
) -> Result<Found, AllocError>
    ensures { IfOk result (λ found. found_of found ≡ found_for (look_in kind.now) scroll ask (frames_at r.now.tree (items_of first.now) (children_at r.now.tree h))) }
{
    if !finds(kind) {
        return Ok(findings(kind, scroll, ask, &[]));
    }
    let known = frames_of(alloc, r, h, first, &Few::Empty)?;
    Ok(findings(kind, scroll, ask, known.as_slice()))
}

// A rule is run over the frames of the children, and what it makes is stored.
pub(crate) fn run<L: Ledger>(
    alloc: Global,
    r: &mut RenderTree,
    h: Handle,
    ask: Ask,
    told: &[ParentData],
    first: &Few<Option<Ask>>,
    before: &Few<Option<Ask>>,
    rest: &Few<Option<Ask>>,
    table: &DelegateTable,
    changed: &mut Vec<Handle>,
    steps: &mut Steps<L>,
) -> Result<(), AllocError>
    requires live { IsNode r.old.tree h }
    requires seen { IsSeen r.old.tree h }
    requires can { CanRunAt ask (all_told r.old.tree h told.now) (items_of first.now) (last_asks (items_of before.now) (items_of rest.now)) r.old.tree h }
    ensures ends { OnOk result (RunsAs (setting_of r.old.scale (meant_in table.now ⟦<dyn Delegate as Delegate>⟧)) ask (all_told r.old.tree h told.now) (items_of first.now)
        (last_asks (items_of before.now) (items_of rest.now)) r.old.tree r.new.tree h steps.old steps.new) }
    ensures changes { OnOk result (ListsChange r.old.tree r.new.tree h changed.old.items changed.new.items steps.old steps.new) }
    ensures scale { r.new.scale ≡ r.old.scale }
    ensures spent { r.new.spent ≡ r.old.spent }
{
    r.tree().count_laws();
    let scale = r.scale();
    let mut state = state_at(r, h);
    let cursor = RenderCursor::new(r, h);
    let kind = cursor.kind();
    let found = found_at(alloc, r, h, kind, state.scroll, ask, first)?;
    let made = made_at(alloc, r, h, ask, found, told, before, rest, table)?;
    let remade = store_made(
        &mut state,
        kind,
        made.frame,
        made.notes,
        made.scrolled,
        scale,
        table,
    );
    let moved = stand_all(r, h, before, rest, made.places.as_slice());
    note(changed, h, remade | moved)?;
    state.layout_below = any_mark(r, h);
    r.set_layout_state(h, state);
    steps.tick();
    Ok(())
}

// Where a node stands scrolled after its rule was run: a Viewport where the rule left it.
fn scrolled_to(kind: &Kind, corrected: u64, scroll: u64) -> u64
    ensures { result ≡ rescrolled (render_role_of (look_in kind.now)) (Some corrected) scroll }
{
    match kind {
        Kind::Viewport { .. } => corrected,
        _ => scroll,
    }
}

// What a course leaves, once what it does at the children is done.
pub(crate) fn finish<L: Ledger>(
    alloc: Global,
    r: &mut RenderTree,
    h: Handle,
    course: Course,
    told: &[ParentData],
    first: &Few<Option<Ask>>,
    rest: &Few<Option<Ask>>,
    table: &DelegateTable,
    changed: &mut Vec<Handle>,
    steps: &mut Steps<L>,
) -> Result<(), AllocError>
    requires live { IsNode r.old.tree h }
    requires seen { IsSeen r.old.tree h }
    requires can { CanEndAt course (all_told r.old.tree h told.now) (items_of first.now) (items_of rest.now) r.old.tree h }
    ensures ends { OnOk result (EndsAs (setting_of r.old.scale (meant_in table.now ⟦<dyn Delegate as Delegate>⟧)) course (all_told r.old.tree h told.now) (items_of first.now) (items_of rest.now)
        r.old.tree r.new.tree h steps.old steps.new) }
    ensures changes { OnOk result (ListsChange r.old.tree r.new.tree h changed.old.items changed.new.items steps.old steps.new) }
    ensures scale { r.new.scale ≡ r.old.scale }
    ensures spent { r.new.spent ≡ r.old.spent }
{
    match course {
        Course::Stay => Ok(()),
        Course::Visit => {
            visited(r, h);
            Ok(())
        }
        Course::Open(_) => {
            open(r, h);
            Ok(())
        }
        Course::Hold(ask) => hold(alloc, r, h, ask, table, changed, steps),
        Course::Run(ask) => run(
            alloc, r, h, ask, told, first, first, rest, table, changed, steps,
        ),
        Course::View(_, b) => run(
            alloc,
            r,
            h,
            Ask::AsBox(b),
            told,
            first,
            &Few::Empty,
            rest,
            table,
            changed,
            steps,
        ),
    }
}
