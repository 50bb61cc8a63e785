// A widget is inflated with all that is below it, in preorder, where nothing stood before (`Element.inflateWidget`).
ghost use Rattle.std.specs.Prelude.{◌≡◌, ℕ, ◌+◌, None, map, option_map, IfOk, OnOk, IfErr, IfSome};
ghost use Rattle.fx_expr.specs.Value.{type_of};
ghost use Rattle.node_tree.specs.Mounting.{CanMount};
ghost use Rattle.node_tree.specs.Tree.{IsNode};
ghost use Rattle.widget_model.specs.Plain.{widgets_of};
ghost use Rattle.widget_model.specs.Typed.{IsTypedWidget, AreTypedWidgets};
ghost use Rattle.widget_model.specs.View.{look_in, shared};
ghost use Rattle.plain_tree.specs.Projection.{told_at, told_by};
ghost use Rattle.plain_tree.specs.RenderRole.{render_role_of};
ghost use Rattle.program_check.specs.CheckedView.{plain_checked};
ghost use Rattle.build_form.specs.Entering.{first, values_below};
ghost use Rattle.build_form.specs.FaultView.{fault_of};
ghost use Rattle.build_form.specs.FullBuild.{basis};
ghost use Rattle.build_form.specs.Partner.{arrival};
ghost use Rattle.build_form.specs.Step.{stops, each};
ghost use Rattle.element_tree.specs.Element.{Element as ElementOf, made_count};
ghost use Rattle.versioned_kinds.specs.Lists.{IsNoList, HasNoListBodies, WidgetHasNoLists};
ghost use Rattle.versioned_kinds.specs.Widgets.{AllLooksMeet};
ghost use Rattle.build_walk.specs.Counting.{builds_from, builds_by_each};
ghost use Rattle.build_walk.specs.Keeping.{reenter};
ghost use Rattle.build_walk.specs.Past.{Pasts};
ghost use Rattle.build_walk.specs.Renewing.{role_of};
ghost use Rattle.build_walk.specs.Walked.{through, under};
ghost use Rattle.build_owner.specs.WalkView.{declared_by, program_of};
ghost use Rattle.first_builds.specs.Inflated.{progress_at, IsUnscrolled, given_of, IsInflated, AreInflated, IsReadyToMount, HasGrown};
ghost use Rattle.first_builds.specs.Mounted.{first_arrivals};
ghost use Rattle.first_builds.specs.SpotView.{place_of};

use crate::mounting::{MountSpot, mount_node};
use build_form::FrameFault;
use build_owner::{WalkSource, provide_below, render_role_of, restore};
use element_tree::ElementTree;
use fx_expr::Value;
use fx_handles::Handle;
use fx_outside::Steps;
use global_keys::Registry;
use plain_tree::{ParentData, RenderRole, told_at, told_by};
use render_tree::RenderTree;
use std::rc::Rc;
use std::slice::from_ref;
use std::sync::ledger::Ledger;
use widget_model::{Kind, Widget};

// The child widgets of a widget: the one that its body gave, or those that it has.
fn given_of<'a>(widget: &'a Rc<Widget>, output: &'a Option<Rc<Widget>>) -> &'a [Rc<Widget>]
    ensures { map shared result.now ≡ given_of (shared widget.now) (option_map shared output.now) }
{
    match output {
        Some(below) => from_ref(below),
        None => widget.children.get(),
    }
}

// The role of the render node above a place.
fn role_above(spot: &MountSpot<'_>) -> RenderRole
    ensures { result ≡ (place_of spot.now).role }
{
    match spot.kind {
        Some(kind) => render_role_of(kind),
        None => RenderRole::Plain,
    }
}

// What is told below a widget without a render node, which stands at this place among its parent's child widgets.
fn told_through(spot: &MountSpot<'_>, kind: &Kind, place: u64) -> ParentData
    ensures { result ≡ told_by (place_of spot.now).role (render_role_of (look_in kind.now)) (told_at (place_of spot.now).role (place_of spot.now).told place) }
{
    let above = role_above(spot);
    let told = match spot.told {
        Some(told) => *told,
        None => told_at(above, None, place),
    };
    told_by(above, render_role_of(kind), told)
}

/// Inflates a widget where so many depths are left: makes its element and its render node in their places, if it has one, and then all that
/// is below it.
#[cycle(inflating)]
pub(crate) fn inflate<L: Ledger>(
    from: &WalkSource<'_>,
    left: u32,
    values: &mut [Value],
    spot: &MountSpot<'_>,
    widget: &Rc<Widget>,
    place: u64,
    t: &mut ElementTree,
    r: &mut RenderTree,
    g: &mut Registry,
    entered: &mut u32,
    builds: &mut Steps<L>,
) -> Result<Handle, FrameFault>
    requires ready { IsReadyToMount (program_of from.now).nodes entered.old g.old t.old.tree r.old.tree }
    requires values { map type_of values.old ≡ (declared_by from.now).inherited }
    requires widget { IsTypedWidget (declared_by from.now) (shared widget.now) }
    requires parent { CanMount t.old.tree spot.now.parent }
    requires above { CanMount r.old.tree spot.now.above }
    requires no_list { IfSome spot.now.kind (λ k. IsNoList (look_in k.now)) }
    requires bodies { HasNoListBodies (plain_checked from.now.checked.now) }
    requires listless { WidgetHasNoLists (shared widget.now) }
    ensures inflated { IfOk result (λ h. (pasts : Pasts) (scrolled : ℕ → ℕ) → IsUnscrolled (made_count t.old.tree + 1) scrolled
        → IsInflated (program_of from.now) pasts left values.old scrolled (place_of spot.now) (shared widget.now) place (progress_at entered.old g.old t.old.tree) (progress_at entered.new g.new t.new.tree)
        t.old.tree t.new.tree r.old.tree r.new.tree h) }
    ensures fault { IfErr result (λ e. IfSome (fault_of e) (λ x. (pasts : Pasts)
        → reenter (basis (program_of from.now) None) pasts first left values.old (arrival (shared widget.now) place None) (progress_at entered.old g.old t.old.tree) ≡ stops x)) }
    ensures builds { OnOk result ((pasts : Pasts)
        → builds.new ≡ builds.old + builds_from (basis (program_of from.now) None) pasts first left values.old (arrival (shared widget.now) place None) (progress_at entered.old g.old t.old.tree)) }
    ensures builds_at_fault { IfErr result (λ e. IfSome (fault_of e) (λ x. (pasts : Pasts)
        → builds.new ≡ builds.old + builds_from (basis (program_of from.now) None) pasts first left values.old (arrival (shared widget.now) place None) (progress_at entered.old g.old t.old.tree))) }
    ensures ready { OnOk result (IsReadyToMount (program_of from.now).nodes entered.new g.new t.new.tree r.new.tree) }
    ensures grown { OnOk result (HasGrown t.old.tree t.new.tree r.old.tree r.new.tree) }
    ensures values { OnOk result (values.new ≡ values.old) }
    ensures scale { r.new.scale ≡ r.old.scale }
{
    if left == 0 {
        return Err(FrameFault::TreeTooLarge);
    }
    let mounted = mount_node(from, values, spot, widget, place, t, r, g, entered, builds)?;
    let at = mounted.at;
    let below = left - 1;
    let given = given_of(widget, &mounted.output);
    let above = match mounted.render {
        None => {
            inflate_only(
                from, below, values, at, spot, widget, place, &given[0], t, r, g, entered, builds,
            )?;
            return Ok(at);
        }
        Some(above) => above,
    };
    let kind = &widget.kind;
    inflate_each(
        from, below, values, at, above, kind, given, t, r, g, entered, builds,
    )?;
    Ok(at)
}

// Inflates widgets, one after another, below an element that has a render node.
#[cycle(inflating)]
fn inflate_each<L: Ledger>(
    from: &WalkSource<'_>,
    left: u32,
    values: &mut [Value],
    parent: Handle,
    above: Handle,
    kind: &Kind,
    widgets: &[Rc<Widget>],
    t: &mut ElementTree,
    r: &mut RenderTree,
    g: &mut Registry,
    entered: &mut u32,
    builds: &mut Steps<L>,
) -> Result<(), FrameFault>
    requires ready { IsReadyToMount (program_of from.now).nodes entered.old g.old t.old.tree r.old.tree }
    requires values { map type_of values.old ≡ (declared_by from.now).inherited }
    requires widgets { AreTypedWidgets (declared_by from.now) (widgets_of (map shared widgets.now)) }
    requires parent { IsNode t.old.tree parent }
    requires above { IsNode r.old.tree above }
    requires no_list { IsNoList (look_in kind.now) }
    requires bodies { HasNoListBodies (plain_checked from.now.checked.now) }
    requires listless { AllLooksMeet IsNoList (widgets_of (map shared widgets.now)) }
    ensures inflated { OnOk result ((pasts : Pasts) (scrolled : ℕ → ℕ) → IsUnscrolled (made_count t.old.tree + 1) scrolled → (e : ElementOf) → role_of e ≡ render_role_of (look_in kind.now)
        → AreInflated (program_of from.now) pasts left values.old scrolled (under parent above e) (map shared widgets.now) 0 (progress_at entered.old g.old t.old.tree) (progress_at entered.new g.new t.new.tree)
        t.old.tree t.new.tree r.old.tree r.new.tree) }
    ensures fault { IfErr result (λ e. IfSome (fault_of e) (λ x. (pasts : Pasts)
        → each (reenter (basis (program_of from.now) None) pasts first left values.old) (first_arrivals 0 (map shared widgets.now)) (progress_at entered.old g.old t.old.tree) ≡ stops x)) }
    ensures builds { OnOk result ((pasts : Pasts)
        → builds.new ≡ builds.old + builds_by_each (reenter (basis (program_of from.now) None) pasts first left values.old) (builds_from (basis (program_of from.now) None) pasts first left values.old)
        (first_arrivals 0 (map shared widgets.now)) (progress_at entered.old g.old t.old.tree)) }
    ensures builds_at_fault { IfErr result (λ e. IfSome (fault_of e) (λ x. (pasts : Pasts)
        → builds.new ≡ builds.old + builds_by_each (reenter (basis (program_of from.now) None) pasts first left values.old) (builds_from (basis (program_of from.now) None) pasts first left values.old)
        (first_arrivals 0 (map shared widgets.now)) (progress_at entered.old g.old t.old.tree))) }
    ensures ready { OnOk result (IsReadyToMount (program_of from.now).nodes entered.new g.new t.new.tree r.new.tree) }
    ensures grown { OnOk result (HasGrown t.old.tree t.new.tree r.old.tree r.new.tree) }
    ensures values { OnOk result (values.new ≡ values.old) }
    ensures scale { r.new.scale ≡ r.old.scale }
{
    let spot = MountSpot {
        parent: Some(parent),
        above: Some(above),
        kind: Some(kind),
        told: None,
    };
    for i in 0..widgets.len() {
        inflate(
            from,
            left,
            values,
            &spot,
            &widgets[i],
            i as u64,
            t,
            r,
            g,
            entered,
            builds,
        )?;
    }
    Ok(())
}

// Inflates the only child widget of a widget at a place, whose element has no render node.
#[cycle(inflating)]
fn inflate_only<L: Ledger>(
    from: &WalkSource<'_>,
    left: u32,
    values: &mut [Value],
    at: Handle,
    spot: &MountSpot<'_>,
    widget: &Rc<Widget>,
    place: u64,
    child: &Rc<Widget>,
    t: &mut ElementTree,
    r: &mut RenderTree,
    g: &mut Registry,
    entered: &mut u32,
    builds: &mut Steps<L>,
) -> Result<Handle, FrameFault>
    requires ready { IsReadyToMount (program_of from.now).nodes entered.old g.old t.old.tree r.old.tree }
    requires values { map type_of values.old ≡ (declared_by from.now).inherited }
    requires widget { IsTypedWidget (declared_by from.now) (shared widget.now) }
    requires child { IsTypedWidget (declared_by from.now) (shared child.now) }
    requires at { IsNode t.old.tree at }
    requires above { CanMount r.old.tree spot.now.above }
    requires no_list { IfSome spot.now.kind (λ k. IsNoList (look_in k.now)) }
    requires bodies { HasNoListBodies (plain_checked from.now.checked.now) }
    requires listless { WidgetHasNoLists (shared child.now) }
    ensures inflated { IfOk result (λ h. (pasts : Pasts) (scrolled : ℕ → ℕ) → IsUnscrolled (made_count t.old.tree + 1) scrolled → (e : ElementOf) → e.widget ≡ shared widget.now → e.index ≡ place
        → IsInflated (program_of from.now) pasts left (values_below (shared widget.now) values.old) scrolled (through (place_of spot.now) at e) (shared child.now) 0
        (progress_at entered.old g.old t.old.tree) (progress_at entered.new g.new t.new.tree) t.old.tree t.new.tree r.old.tree r.new.tree h) }
    ensures fault { IfErr result (λ e. IfSome (fault_of e) (λ x. (pasts : Pasts)
        → reenter (basis (program_of from.now) None) pasts first left (values_below (shared widget.now) values.old) (arrival (shared child.now) 0 None) (progress_at entered.old g.old t.old.tree) ≡ stops x)) }
    ensures builds { OnOk result ((pasts : Pasts)
        → builds.new ≡ builds.old + builds_from (basis (program_of from.now) None) pasts first left (values_below (shared widget.now) values.old) (arrival (shared child.now) 0 None) (progress_at entered.old g.old t.old.tree)) }
    ensures builds_at_fault { IfErr result (λ e. IfSome (fault_of e) (λ x. (pasts : Pasts)
        → builds.new ≡ builds.old + builds_from (basis (program_of from.now) None) pasts first left (values_below (shared widget.now) values.old) (arrival (shared child.now) 0 None) (progress_at entered.old g.old t.old.tree))) }
    ensures ready { OnOk result (IsReadyToMount (program_of from.now).nodes entered.new g.new t.new.tree r.new.tree) }
    ensures grown { OnOk result (HasGrown t.old.tree t.new.tree r.old.tree r.new.tree) }
    ensures values { OnOk result (values.new ≡ values.old) }
    ensures scale { r.new.scale ≡ r.old.scale }
{
    let told = told_through(spot, &widget.kind, place);
    let through = MountSpot {
        parent: Some(at),
        above: spot.above,
        kind: spot.kind,
        told: Some(&told),
    };
    let outer = provide_below(values, widget)?;
    let child = inflate(
        from, left, values, &through, child, 0, t, r, g, entered, builds,
    )?;
    restore(values, outer);
    Ok(child)
}
