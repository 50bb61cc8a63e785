// What a plan changes, against the tree before it.
ghost use Rattle.std.specs.Prelude.{◌≡◌, ◌↔◌, ◌&&◌, ◌||◌, IsTrue, IfOk, OnOk, Some};
ghost use Rattle.std.specs.Bool.{beq};
ghost use Rattle.widget_model.specs.View.{look_in};
ghost use Rattle.work_roles.specs.WorkRole.{is_offstage, is_viewport};
ghost use Rattle.render_tree.specs.Marks.{are_tight};
ghost use Rattle.render_tree.specs.Changes.{hides_at, KeepsList, KeepsOwn, KeepsTold, KeepsLook, LaidAnew, PaintedAnew, Notes, NotesSome};

use crate::RenderTree;
use crate::kinds::is_offstage;
use crate::object::{Redraw, RenderObject, bounds_in};
use crate::reads::{both, either, is_same_data, is_same_for_layout, lazy_count, scrolls};
use fx_geom::Bounds;
use fx_handles::Handle;
use node_tree::{PlanEntry, Tree};
use std::alloc::{AllocError, Global};
use widget_model::{Kind, same_look};

// Whether the node keeps the list of its children.
fn keeps_list(tree: &Tree<RenderObject>, entry: &PlanEntry<Redraw>) -> bool
    ensures { IsTrue result ↔ KeepsList tree.now entry.now }
{
    entry.children() == tree.children(entry.at())
}

// Whether a layout reads the same of the node itself.
fn keeps_own(tree: &Tree<RenderObject>, entry: &PlanEntry<Redraw>) -> bool
    ensures { IsTrue result ↔ KeepsOwn tree.now entry.now }
{
    let Some(object) = tree.value(entry.at()) else {
        return true
    };
    let (old, new) = (&object.widget, &entry.update().widget);
    let same = is_same_for_layout(&new.kind, &old.kind);
    let counted = lazy_count(new) == lazy_count(old);
    both(same, counted)
}

// Whether a node is an Offstage that is offstage: it makes no difference to it what its children come to.
fn hides(tree: &Tree<RenderObject>, h: Option<Handle>) -> bool
    ensures { result ≡ hides_at tree.now h }
{
    let Some(at) = h else { return false };
    match tree.value(at) {
        None => false,
        Some(object) => is_offstage(&object.widget.kind),
    }
}

// Whether the bounds of the last layout leave one size.
fn are_tight(bounds: Option<Bounds>) -> bool
    ensures { result ≡ are_tight bounds }
{
    match bounds {
        None => false,
        Some(b) => b.is_tight(),
    }
}

// Whether the sizes of two kinds follow from their bounds alone in the same way, where that has a say.
fn is_sized_same(settled: bool, new: &Kind, old: &Kind) -> bool
    ensures { result ≡ (settled || (beq (is_viewport (look_in new.now)) (is_viewport (look_in old.now)) && beq (is_offstage (look_in new.now)) (is_offstage (look_in old.now)))) }
{
    if settled {
        return true;
    }
    let scrolled = scrolls(new) == scrolls(old);
    let hidden = is_offstage(new) == is_offstage(old);
    both(scrolled, hidden)
}

// Whether its parent takes the same of it beside its frame.
fn keeps_told(tree: &Tree<RenderObject>, entry: &PlanEntry<Redraw>) -> bool
    ensures { IsTrue result ↔ KeepsTold tree.now entry.now }
{
    let Some(object) = tree.value(entry.at()) else {
        return true
    };
    let update = entry.update();
    let settled = either(
        hides(tree, entry.parent()),
        are_tight(bounds_in(object.frame)),
    );
    let sized = is_sized_same(settled, &update.widget.kind, &object.widget.kind);
    let same = is_same_data(update.parent_data, object.parent_data);
    both(same, sized)
}

// Whether it has the members and callbacks that it had.
fn keeps_look(tree: &Tree<RenderObject>, entry: &PlanEntry<Redraw>) -> bool
    ensures { IsTrue result ↔ KeepsLook tree.now entry.now }
{
    let Some(object) = tree.value(entry.at()) else {
        return true
    };
    same_look(&entry.update().widget.kind, &object.widget.kind)
}

// Notes a node of which a layout reads something else.
fn note_own(
    tree: &Tree<RenderObject>,
    entry: &PlanEntry<Redraw>,
    out: &mut Vec<Handle>,
) -> Result<(), AllocError>
    ensures { OnOk result (Notes (KeepsOwn tree.now entry.now × KeepsList tree.now entry.now) entry.now.at out.old.items out.new.items) }
{
    if keeps_own(tree, entry) && keeps_list(tree, entry) {
        return Ok(());
    }
    out.push(entry.at())?;
    Ok(())
}

// Notes the parent of a node of which it takes something else.
fn note_parent(
    tree: &Tree<RenderObject>,
    entry: &PlanEntry<Redraw>,
    out: &mut Vec<Handle>,
) -> Result<(), AllocError>
    ensures { OnOk result (NotesSome (KeepsTold tree.now entry.now) entry.now.parent out.old.items out.new.items) }
{
    let Some(p) = entry.parent() else {
        return Ok(())
    };
    if keeps_told(tree, entry) {
        return Ok(());
    }
    out.push(p)?;
    Ok(())
}

// Notes a node that is painted otherwise.
fn note_look(
    tree: &Tree<RenderObject>,
    entry: &PlanEntry<Redraw>,
    out: &mut Vec<Handle>,
) -> Result<(), AllocError>
    ensures { OnOk result (Notes (KeepsLook tree.now entry.now × KeepsList tree.now entry.now) entry.now.at out.old.items out.new.items) }
{
    if keeps_look(tree, entry) && keeps_list(tree, entry) {
        return Ok(());
    }
    out.push(entry.at())?;
    Ok(())
}

// Notes a root that was none.
fn note_root(
    tree: &Tree<RenderObject>,
    root: Option<Handle>,
    out: &mut Vec<Handle>,
) -> Result<(), AllocError>
    ensures { OnOk result (NotesSome (tree.now.root ≡ root) root out.old.items out.new.items) }
{
    let Some(r) = root else { return Ok(()) };
    if tree.root() == root {
        return Ok(());
    }
    out.push(r)?;
    Ok(())
}

fn laid_anew(
    alloc: Global,
    tree: &Tree<RenderObject>,
    root: Option<Handle>,
    plan: &[PlanEntry<Redraw>],
) -> Result<Vec<Handle>, AllocError>
    ensures { IfOk result (λ hs. LaidAnew tree.now root plan.now hs.items) }
{
    let mut out = Vec::new(alloc);
    note_root(tree, root, &mut out)?;
    for entry in plan {
        note_own(tree, entry, &mut out)?;
        note_parent(tree, entry, &mut out)?;
    }
    Ok(out)
}

fn painted_anew(
    alloc: Global,
    tree: &Tree<RenderObject>,
    root: Option<Handle>,
    plan: &[PlanEntry<Redraw>],
) -> Result<Vec<Handle>, AllocError>
    ensures { IfOk result (λ hs. PaintedAnew tree.now root plan.now hs.items) }
{
    let mut out = Vec::new(alloc);
    note_root(tree, root, &mut out)?;
    for entry in plan {
        note_look(tree, entry, &mut out)?;
    }
    Ok(out)
}

impl RenderTree {
    /// The nodes that a plan with this root changes for layout: new members that a layout reads, another list of children, other
    /// parent data of a child, or a child whose size follows otherwise from its bounds alone, but in tight ones, and below a node
    /// that is offstage. They are to be marked once the plan
    /// is committed, with `mark_layouts`.
    pub fn laid_anew(
        &self,
        root: Option<Handle>,
        plan: &[PlanEntry<Redraw>],
    ) -> Result<Vec<Handle>, AllocError>
        ensures { IfOk result (λ hs. LaidAnew self.now.tree root plan.now hs.items) }
    {
        laid_anew(self.alloc, &self.tree, root, plan)
    }

    /// The nodes that a plan with this root changes for painting: any member or callback, or another list of children. They are
    /// to be marked once the plan is committed, with `mark_paints`.
    pub fn painted_anew(
        &self,
        root: Option<Handle>,
        plan: &[PlanEntry<Redraw>],
    ) -> Result<Vec<Handle>, AllocError>
        ensures { IfOk result (λ hs. PaintedAnew self.now.tree root plan.now hs.items) }
    {
        painted_anew(self.alloc, &self.tree, root, plan)
    }
}
