// The element and the render node of a widget, which are made in their places before anything is below them (`Element.mount`).
ghost use Rattle.std.specs.Prelude.{◌≡◌, ℕ, ◌+◌, ◌<◌, List, ◌∷◌, [], true, false, None, Some, length, map, option_map, IfOk, OnOk, IfErr, IfSome};
ghost use Rattle.fx_expr.specs.declared.values.Value.{Value as AnyValue};
ghost use Rattle.fx_expr.specs.Value.{type_of};
ghost use Rattle.fx_handles.specs.declared.TheConstants.{SLOTS_MAX};
ghost use Rattle.fx_handles.specs.Arena.{used_count, retired_count};
ghost use Rattle.node_tree.specs.Mounting.{CanMount};
ghost use Rattle.node_tree.specs.Tree.{Tree as TreeOf};
ghost use Rattle.widget_model.specs.Plain.{look_of, key_of, widgets_of};
ghost use Rattle.widget_model.specs.Typed.{IsTypedWidget, AreTypedWidgets};
ghost use Rattle.widget_model.specs.View.{look_in, plain_of, shared};
ghost use Rattle.plain_tree.specs.RenderRole.{render_role_of, vanishes};
ghost use Rattle.program_check.specs.CheckedView.{plain_checked};
ghost use Rattle.build_form.specs.BuildRole.{composes, build_role_of};
ghost use Rattle.build_form.specs.Entering.{first_fields, given_by, met_once};
ghost use Rattle.build_form.specs.FaultView.{fault_of};
ghost use Rattle.build_form.specs.FullBuild.{basis};
ghost use Rattle.build_form.specs.Partner.{arrival};
ghost use Rattle.build_form.specs.Step.{Progress, stops, gives};
ghost use Rattle.build_form.specs.WellBuilt.{FitFields};
ghost use Rattle.element_tree.specs.Element.{made_count};
ghost use Rattle.element_tree.specs.Fields.{AreDeclared};
ghost use Rattle.global_keys.specs.Holders.{recorded, is_met};
ghost use Rattle.global_keys.specs.Named.{global_in};
ghost use Rattle.render_tree.specs.Object.{RenderObject as ObjectOf};
ghost use Rattle.versioned_kinds.specs.Lists.{IsNoList, HasNoListBodies, WidgetHasNoLists};
ghost use Rattle.versioned_kinds.specs.Widgets.{AllLooksMeet};
ghost use Rattle.build_walk.specs.Counting.{builds_opening};
ghost use Rattle.build_walk.specs.Keeping.{reopened};
ghost use Rattle.build_walk.specs.Past.{Pasts};
ghost use Rattle.build_owner.specs.WalkView.{declared_by, program_of};
ghost use Rattle.first_builds.specs.Inflated.{progress_at, IsUnscrolled, given_of, IsMounted, IsReadyToMount, HasGrown};
ghost use Rattle.first_builds.specs.Mounts.{MountsNode, NotesKey, IsFreeFor, IsNoted, MountsComponent, MountsOther, new_element};
ghost use Rattle.first_builds.specs.SpotView.{place_of};

use build_form::{BuildRole, FrameFault, build_role_of};
use build_owner::{WalkSource, body_output, first_fields, is_drawn, keep_apart};
use element_tree::{ElementTree, Renewal};
use fx_expr::{Scope, Value};
use fx_handles::Handle;
use fx_outside::Steps;
use global_keys::{Claim, Registry};
use plain_tree::ParentData;
use render_tree::RenderTree;
use std::alloc::AllocError;
use std::rc::Rc;
use std::sync::ledger::Ledger;
use versioned_kinds::programs_without_lists_build_none;
use widget_keys::Key;
use widget_model::{Kind, Widget};

/// Where a widget is inflated: the element above, the render node above, its kind, and what the widgets between told.
#[derive(Clone, Copy)]
pub(crate) struct MountSpot<'a> {
    pub(crate) parent: Option<Handle>,
    pub(crate) above: Option<Handle>,
    pub(crate) kind: Option<&'a Kind>,
    pub(crate) told: Option<&'a ParentData>,
}

/// A widget that was mounted: its element, its render node, if it has one, and of a component what its body gave.
#[derive(Drop)]
pub(crate) struct MountedNode {
    pub(crate) at: Handle,
    pub(crate) render: Option<Handle>,
    pub(crate) output: Option<Rc<Widget>>,
}

// A key that was met before is refused.
fn meet(g: &mut Registry, t: &ElementTree, widget: &Rc<Widget>) -> Result<(), FrameFault>
    requires { (k : AnyValue) → is_met g.old k ≡ false → recorded g.old k ≡ None }
    ensures same { (k : AnyValue) → recorded g.new k ≡ recorded g.old k }
    ensures fresh { OnOk result ((k : AnyValue) → global_in (key_of (shared widget.now)) ≡ Some k → recorded g.new k ≡ None) }
    ensures fault { IfErr result (λ e. IfSome (fault_of e) (λ x. (s : Progress) → s.met ≡ (λ k. is_met g.old k) → met_once (key_of (shared widget.now)) s ≡ stops x)) }
{
    let Key::Global(key) = &widget.key else {
        return Ok(());
    };
    if let Claim::Repeated = g.claim(t, key, widget) {
        return Err(FrameFault::RepeatedGlobalKey(key.clone()?));
    }
    Ok(())
}

// An element is noted for its global key, if it has one.
fn note(g: &mut Registry, widget: &Widget, at: Handle) -> Result<(), AllocError>
    ensures { OnOk result (NotesKey (global_in (key_of (plain_of widget.now))) g.old g.new at) }
{
    let Key::Global(key) = &widget.key else {
        return Ok(());
    };
    g.note(key.clone()?, at)
}

// The element of a widget, with room for so many children.
fn mount_element(
    spot: &MountSpot<'_>,
    widget: &Rc<Widget>,
    place: u64,
    room: usize,
    fields: Vec<Value>,
    output: Option<Rc<Widget>>,
    render: Option<Handle>,
    t: &mut ElementTree,
    g: &mut Registry,
) -> Result<Handle, AllocError>
    requires free { IsFreeFor (shared widget.now) spot.now.parent g.old t.old.tree }
    requires fields { AreDeclared (shared widget.now) fields.items }
    ensures element { IfOk result (λ h. MountsNode t.old.tree t.new.tree spot.now.parent h (new_element t.old.tree (shared widget.now) place fields.items (option_map shared output) render)) }
    ensures noted { OnOk result (IsNoted (shared widget.now) g.old g.new t.new.tree) }
{
    let renewal = Renewal {
        widget: Rc::clone(widget)?,
        index: place,
        output,
        render,
    };
    let at = t.mount(spot.parent, room, fields, renewal)?;
    note(g, widget, at)?;
    Ok(at)
}

// What the body of a component gives.
fn output<L: Ledger>(
    from: &WalkSource<'_>,
    widget: &Widget,
    values: &[Value],
    fields: &[Value],
    number: u64,
    builds: &mut Steps<L>,
) -> Result<Rc<Widget>, FrameFault>
    requires typed { IsTypedWidget (declared_by from.now) (plain_of widget.now) }
    requires values { map type_of values.now ≡ (declared_by from.now).inherited }
    requires fields { FitFields (declared_by from.now) (build_role_of (look_in widget.now.kind)) fields.now }
    requires composes { (place : ℕ) × (props : List AnyValue) × (build_role_of (look_in widget.now.kind) ≡ composes place props) }
    ensures ok { IfOk result (λ o. (s : Progress) → given_by (program_of from.now) (build_role_of (look_in widget.now.kind)) values.now number fields.now (plain_of widget.now) s ≡ gives (shared o ∷ []) s) }
    ensures fault { IfErr result (λ e. IfSome (fault_of e) (λ x. (s : Progress) → given_by (program_of from.now) (build_role_of (look_in widget.now.kind)) values.now number fields.now (plain_of widget.now) s ≡ stops x)) }
    ensures typed { IfOk result (λ o. AreTypedWidgets (declared_by from.now) (widgets_of (shared o ∷ []))) }
    ensures builds { builds.new ≡ builds.old + 1 }
{
    let BuildRole::Composes {
        component,
        props,
        slots,
    } = build_role_of(&widget.kind)
    else {
        unreachable!()
    };
    let scope = Scope {
        fields,
        props: props.get(),
        vars: &[],
        inherited: values,
        event: (0, 0),
    };
    body_output(
        from.alloc,
        from.checked,
        component,
        &scope,
        slots,
        number,
        builds,
    )
}

// A component, with what its body gives.
fn mount_component<L: Ledger>(
    from: &WalkSource<'_>,
    values: &[Value],
    spot: &MountSpot<'_>,
    widget: &Rc<Widget>,
    place: u64,
    t: &mut ElementTree,
    g: &mut Registry,
    builds: &mut Steps<L>,
) -> Result<MountedNode, FrameFault>
    requires free { IsFreeFor (shared widget.now) spot.now.parent g.old t.old.tree }
    requires widget { IsTypedWidget (declared_by from.now) (shared widget.now) }
    requires values { map type_of values.now ≡ (declared_by from.now).inherited }
    requires composes { (place : ℕ) × (props : List AnyValue) × (build_role_of (look_of (shared widget.now)) ≡ composes place props) }
    ensures mounts { IfOk result (λ m. MountsComponent (program_of from.now) values.now (place_of spot.now) (shared widget.now) place t.old.tree t.new.tree g.old g.new m.at (option_map shared m.output) m.render) }
    ensures fault { IfErr result (λ e. IfSome (fault_of e) (λ x. (s : Progress) → given_by (program_of from.now) (build_role_of (look_of (shared widget.now))) values.now (made_count t.old.tree + 1)
        (first_fields (program_of from.now) (build_role_of (look_of (shared widget.now)))) (shared widget.now) s ≡ stops x)) }
    ensures typed { IfOk result (λ m. AreTypedWidgets (declared_by from.now) (widgets_of (given_of (shared widget.now) (option_map shared m.output)))) }
    ensures lists { IfOk result (λ m. HasNoListBodies (plain_checked from.now.checked.now) → WidgetHasNoLists (shared widget.now)
        → AllLooksMeet IsNoList (widgets_of (given_of (shared widget.now) (option_map shared m.output)))) }
    ensures builds { OnOk result (builds.new ≡ builds.old + 1) }
    ensures builds_at_fault { IfErr result (λ e. IfSome (fault_of e) (λ x. builds.new ≡ builds.old + 1)) }
{
    programs_without_lists_build_none();
    let fields = first_fields(from.alloc, from.checked, widget)?;
    let number = t.next_number();
    let output = output(from, widget, values, fields.as_slice(), number, builds)?;
    let kept = Some(Rc::clone(&output)?);
    let at = mount_element(spot, widget, place, 1, fields, kept, None, t, g)?;
    Ok(MountedNode {
        at,
        render: None,
        output: Some(output),
    })
}

// Another widget without a render node.
fn mount_bare(
    from: &WalkSource<'_>,
    spot: &MountSpot<'_>,
    widget: &Rc<Widget>,
    place: u64,
    t: &mut ElementTree,
    g: &mut Registry,
) -> Result<MountedNode, AllocError>
    requires free { IsFreeFor (shared widget.now) spot.now.parent g.old t.old.tree }
    requires widget { IsTypedWidget (declared_by from.now) (shared widget.now) }
    requires other { (place : ℕ) (props : List AnyValue) → build_role_of (look_of (shared widget.now)) ≡ composes place props → ⊥ }
    requires hidden { vanishes (render_role_of (look_of (shared widget.now))) ≡ true }
    ensures mounts { IfOk result (λ m. (r : TreeOf ObjectOf) → MountsOther (place_of spot.now) (shared widget.now) place t.old.tree t.new.tree r r g.old g.new m.at (option_map shared m.output) m.render) }
{
    let fields = Vec::new(from.alloc);
    let at = mount_element(spot, widget, place, 1, fields, None, None, t, g)?;
    Ok(MountedNode {
        at,
        render: None,
        output: None,
    })
}

// A widget with a render node.
fn mount_drawn(
    from: &WalkSource<'_>,
    spot: &MountSpot<'_>,
    widget: &Rc<Widget>,
    place: u64,
    t: &mut ElementTree,
    r: &mut RenderTree,
    g: &mut Registry,
) -> Result<MountedNode, AllocError>
    requires free { IsFreeFor (shared widget.now) spot.now.parent g.old t.old.tree }
    requires widget { IsTypedWidget (declared_by from.now) (shared widget.now) }
    requires other { (place : ℕ) (props : List AnyValue) → build_role_of (look_of (shared widget.now)) ≡ composes place props → ⊥ }
    requires shown { vanishes (render_role_of (look_of (shared widget.now))) ≡ false }
    requires above { CanMount r.old.tree spot.now.above }
    requires room { used_count r.old.tree.nodes + retired_count r.old.tree.nodes < SLOTS_MAX }
    requires no_list { IfSome spot.now.kind (λ k. IsNoList (look_in k.now)) }
    ensures mounts { IfOk result (λ m. MountsOther (place_of spot.now) (shared widget.now) place t.old.tree t.new.tree r.old.tree r.new.tree g.old g.new m.at (option_map shared m.output) m.render) }
    ensures scale { r.new.scale ≡ r.old.scale }
{
    let room = widget.children.get().len();
    let number = t.next_number();
    let k = r.mount(spot.above, room, widget, number, spot.told)?;
    let fields = Vec::new(from.alloc);
    let at = mount_element(spot, widget, place, room, fields, None, Some(k), t, g)?;
    Ok(MountedNode {
        at,
        render: Some(k),
        output: None,
    })
}

/// Opens a widget where nothing stood before, and mounts its element and its render node, if it has one: there isn't a node too many, its
/// global key wasn't met before, its output isn't too large, and its children have different keys. Nothing is below it yet.
pub(crate) fn mount_node<L: Ledger>(
    from: &WalkSource<'_>,
    values: &[Value],
    spot: &MountSpot<'_>,
    widget: &Rc<Widget>,
    place: u64,
    t: &mut ElementTree,
    r: &mut RenderTree,
    g: &mut Registry,
    entered: &mut u32,
    builds: &mut Steps<L>,
) -> Result<MountedNode, FrameFault>
    requires ready { IsReadyToMount (program_of from.now).nodes entered.old g.old t.old.tree r.old.tree }
    requires values { map type_of values.now ≡ (declared_by from.now).inherited }
    requires widget { IsTypedWidget (declared_by from.now) (shared widget.now) }
    requires parent { CanMount t.old.tree spot.now.parent }
    requires above { CanMount r.old.tree spot.now.above }
    requires no_list { IfSome spot.now.kind (λ k. IsNoList (look_in k.now)) }
    ensures mounted { IfOk result (λ m. (pasts : Pasts) (scrolled : ℕ → ℕ) → IsUnscrolled (made_count t.old.tree + 1) scrolled
        → IsMounted (program_of from.now) pasts values.now scrolled (place_of spot.now) (shared widget.now) place (progress_at entered.old g.old t.old.tree) (progress_at entered.new g.new t.new.tree)
        t.old.tree t.new.tree r.old.tree r.new.tree m.at (option_map shared m.output) m.render) }
    ensures fault { IfErr result (λ e. IfSome (fault_of e) (λ x. (pasts : Pasts)
        → reopened (basis (program_of from.now) None) pasts values.now (arrival (shared widget.now) place None) (progress_at entered.old g.old t.old.tree) ≡ stops x)) }
    ensures builds { OnOk result ((pasts : Pasts)
        → builds.new ≡ builds.old + builds_opening (basis (program_of from.now) None) pasts values.now (arrival (shared widget.now) place None) (progress_at entered.old g.old t.old.tree)) }
    ensures builds_at_fault { IfErr result (λ e. IfSome (fault_of e) (λ x. (pasts : Pasts)
        → builds.new ≡ builds.old + builds_opening (basis (program_of from.now) None) pasts values.now (arrival (shared widget.now) place None) (progress_at entered.old g.old t.old.tree))) }
    ensures typed { IfOk result (λ m. AreTypedWidgets (declared_by from.now) (widgets_of (given_of (shared widget.now) (option_map shared m.output)))) }
    ensures lists { IfOk result (λ m. HasNoListBodies (plain_checked from.now.checked.now) → WidgetHasNoLists (shared widget.now)
        → AllLooksMeet IsNoList (widgets_of (given_of (shared widget.now) (option_map shared m.output)))) }
    ensures one { IfOk result (λ m. vanishes (render_role_of (look_of (shared widget.now))) ≡ true → length (given_of (shared widget.now) (option_map shared m.output)) ≡ 1) }
    ensures undrawn { IfOk result (λ m. m.render ≡ None → r.new.tree ≡ r.old.tree) }
    ensures ready { OnOk result (IsReadyToMount (program_of from.now).nodes entered.new g.new t.new.tree r.new.tree) }
    ensures grown { OnOk result (HasGrown t.old.tree t.new.tree r.old.tree r.new.tree) }
    ensures scale { r.new.scale ≡ r.old.scale }
{
    if *entered >= from.checked.scale().nodes {
        return Err(FrameFault::TreeTooLarge);
    }
    meet(g, t, widget)?;
    *entered += 1;
    if let BuildRole::Composes { .. } = build_role_of(&widget.kind) {
        return mount_component(from, values, spot, widget, place, t, g, builds);
    }
    keep_apart(from.alloc, widget.children.get())?;
    if !is_drawn(&widget.kind) {
        return Ok(mount_bare(from, spot, widget, place, t, g)?);
    }
    Ok(mount_drawn(from, spot, widget, place, t, r, g)?)
}
