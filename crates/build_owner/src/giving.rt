// The child widgets of an element, and what it stores of them (`ComponentElement.performRebuild`).
ghost use Rattle.std.specs.Prelude.{◌≡◌, ℕ, ◌+◌, ◌≤◌, List, Some, length, map, option_map, IfOk, OnOk, IfErr, IfSome};
ghost use Rattle.std.specs.List.{list_any};
ghost use Rattle.fx_expr.specs.declared.values.Value.{Value as AnyValue};
ghost use Rattle.fx_expr.specs.Value.{type_of};
ghost use Rattle.node_tree.specs.Children.{Keeps};
ghost use Rattle.widget_keys.specs.Key.{is_given};
ghost use Rattle.widget_model.specs.Plain.{key_of, look_of, widgets_of};
ghost use Rattle.widget_model.specs.Typed.{IsTypedWidget, AreTypedWidgets};
ghost use Rattle.widget_model.specs.View.{look_in, shared};
ghost use Rattle.build_form.specs.BuildRole.{composes, build_role_of};
ghost use Rattle.build_form.specs.Entering.{given_by, apart};
ghost use Rattle.build_form.specs.FaultView.{fault_of};
ghost use Rattle.build_form.specs.Step.{Progress, stops, gives};
ghost use Rattle.element_tree.specs.Element.{Element as ElementOf, element_at};
ghost use Rattle.work_sets.specs.Due.{names_read};
ghost use Rattle.build_walk.specs.Counting.{built_here};
ghost use Rattle.build_walk.specs.Keeping.{kept_or, kept_output};
ghost use Rattle.build_walk.specs.Kept.{plain_at_any};
ghost use Rattle.build_owner.specs.Given.{Stores, given_to};
ghost use Rattle.build_owner.specs.LastFrame.{LastFrame, IsOld};
ghost use Rattle.build_owner.specs.Owned.{IsElementOf};
ghost use Rattle.build_owner.specs.Ready.{AreTypedOutputs};
ghost use Rattle.build_owner.specs.WalkView.{declared_by, program_of};

use crate::arriving::Arrival;
use crate::keeping::kept_output;
use crate::names::NameValues;
use crate::owning::Owned;
use crate::program::given_by_body;
use crate::source::WalkSource;
use build_form::{BuildRole, FrameFault, build_role_of};
use element_tree::ElementTree;
use fx_expr::Value;
use fx_outside::Steps;
use plain_build::keys_of;
use std::alloc::{AllocError, Global};
use std::rc::Rc;
use std::slice::from_ref;
use std::sync::ledger::Ledger;
use widget_keys::{Key, first_repeat};
use widget_model::Widget;

/// The child widgets that are given to an element: those that its widget has, another one, or others.
#[derive(Drop)]
pub(crate) enum GivenWidgets {
    Own,
    One(Rc<Widget>),
    Others(Vec<Rc<Widget>>),
}

/// The child widgets that are given to an element with such a widget.
pub(crate) fn given_to<'a>(widget: &'a Rc<Widget>, given: &'a GivenWidgets) -> &'a [Rc<Widget>]
    ensures { map shared result.now ≡ given_to (shared widget.now) given.now }
{
    match given {
        GivenWidgets::Own => widget.children.get(),
        GivenWidgets::One(output) => from_ref(output),
        GivenWidgets::Others(widgets) => widgets.as_slice(),
    }
}

// The child widgets of a widget with such an element: of a component the one that its body gave before, where it may be kept, and else the
// one that its body gives, which counts as one build.
fn given_anew_or_kept<L: Ledger>(
    from: &WalkSource<'_>,
    names: &NameValues,
    arrival: &Arrival,
    owned: &Owned,
    t: &ElementTree,
    builds: &mut Steps<L>,
) -> Result<GivenWidgets, FrameFault>
    requires outputs { AreTypedOutputs (declared_by from.now) t.now.tree }
    requires widget { IsTypedWidget (declared_by from.now) (shared arrival.now.widget) }
    requires element { IsElementOf (declared_by from.now) t.now.tree (shared arrival.now.widget) owned.now }
    requires now { map type_of names.now.now.items ≡ (declared_by from.now).inherited }
    requires was { map type_of names.now.was.items ≡ (declared_by from.now).inherited }
    ensures ok { IfOk result (λ ws. (f : LastFrame) (e : ElementOf) (s : Progress) → element_at t.now.tree owned.now.at ≡ Some e → Keeps f.elements t.now.tree → IfSome owned.now.partner (IsOld f names.entry.now.was.items)
        → kept_or (kept_output f.pasts (plain_at_any f.scrolled f.elements owned.now.partner) (shared arrival.now.widget) names.entry.now.now.items)
        (given_by (program_of from.now) (build_role_of (look_of (shared arrival.now.widget))) names.entry.now.now.items e.number e.fields (shared arrival.now.widget)) s ≡ gives (given_to (shared arrival.now.widget) ws) s) }
    ensures fault { IfErr result (λ x. IfSome (fault_of x) (λ y. (f : LastFrame) (e : ElementOf) (s : Progress) → element_at t.now.tree owned.now.at ≡ Some e → Keeps f.elements t.now.tree → IfSome owned.now.partner (IsOld f names.entry.now.was.items)
        → kept_or (kept_output f.pasts (plain_at_any f.scrolled f.elements owned.now.partner) (shared arrival.now.widget) names.entry.now.now.items)
        (given_by (program_of from.now) (build_role_of (look_of (shared arrival.now.widget))) names.entry.now.now.items e.number e.fields (shared arrival.now.widget)) s ≡ stops y)) }
    ensures builds { OnOk result ((f : LastFrame) → Keeps f.elements t.now.tree → IfSome owned.now.partner (IsOld f names.entry.now.was.items)
        → builds.new ≡ builds.old + built_here (names_read (look_of (shared arrival.now.widget))) (kept_output f.pasts (plain_at_any f.scrolled f.elements owned.now.partner) (shared arrival.now.widget) names.entry.now.now.items)) }
    ensures builds_at_fault { IfErr result (λ x. IfSome (fault_of x) (λ y. (f : LastFrame) → Keeps f.elements t.now.tree → IfSome owned.now.partner (IsOld f names.entry.now.was.items)
        → builds.new ≡ builds.old + built_here (names_read (look_of (shared arrival.now.widget))) (kept_output f.pasts (plain_at_any f.scrolled f.elements owned.now.partner) (shared arrival.now.widget) names.entry.now.now.items))) }
    ensures typed { IfOk result (λ ws. AreTypedWidgets (declared_by from.now) (widgets_of (given_to (shared arrival.now.widget) ws))) }
    ensures few { IfOk result (λ ws. (place : ℕ) (props : List AnyValue) → build_role_of (look_of (shared arrival.now.widget)) ≡ composes place props → length (given_to (shared arrival.now.widget) ws) ≤ 1) }
{
    let now = names.now.as_slice();
    let was = names.was.as_slice();
    if let Some(kept) = kept_output(from.alloc, t, owned.partner, &arrival.widget, was, now)? {
        return Ok(kept);
    }
    let Some(number) = t.number(owned.at) else {
        unreachable!()
    };
    given_by_body(
        from.alloc,
        from.checked,
        &arrival.widget,
        now,
        t.fields(owned.at),
        number,
        builds,
    )
}

/// The child widgets of a widget with such an element: those that it has, and of a component the one that its body gave before, where it may
/// be kept, and else the one that its body gives, which counts as one build.
pub(crate) fn given<L: Ledger>(
    from: &WalkSource<'_>,
    names: &NameValues,
    arrival: &Arrival,
    owned: &Owned,
    t: &ElementTree,
    builds: &mut Steps<L>,
) -> Result<GivenWidgets, FrameFault>
    requires outputs { AreTypedOutputs (declared_by from.now) t.now.tree }
    requires widget { IsTypedWidget (declared_by from.now) (shared arrival.now.widget) }
    requires element { IsElementOf (declared_by from.now) t.now.tree (shared arrival.now.widget) owned.now }
    requires now { map type_of names.now.now.items ≡ (declared_by from.now).inherited }
    requires was { map type_of names.now.was.items ≡ (declared_by from.now).inherited }
    ensures ok { IfOk result (λ ws. (f : LastFrame) (e : ElementOf) (s : Progress) → element_at t.now.tree owned.now.at ≡ Some e → Keeps f.elements t.now.tree → IfSome owned.now.partner (IsOld f names.entry.now.was.items)
        → kept_or (kept_output f.pasts (plain_at_any f.scrolled f.elements owned.now.partner) (shared arrival.now.widget) names.entry.now.now.items)
        (given_by (program_of from.now) (build_role_of (look_of (shared arrival.now.widget))) names.entry.now.now.items e.number e.fields (shared arrival.now.widget)) s ≡ gives (given_to (shared arrival.now.widget) ws) s) }
    ensures fault { IfErr result (λ x. IfSome (fault_of x) (λ y. (f : LastFrame) (e : ElementOf) (s : Progress) → element_at t.now.tree owned.now.at ≡ Some e → Keeps f.elements t.now.tree → IfSome owned.now.partner (IsOld f names.entry.now.was.items)
        → kept_or (kept_output f.pasts (plain_at_any f.scrolled f.elements owned.now.partner) (shared arrival.now.widget) names.entry.now.now.items)
        (given_by (program_of from.now) (build_role_of (look_of (shared arrival.now.widget))) names.entry.now.now.items e.number e.fields (shared arrival.now.widget)) s ≡ stops y)) }
    ensures builds { OnOk result ((f : LastFrame) → Keeps f.elements t.now.tree → IfSome owned.now.partner (IsOld f names.entry.now.was.items)
        → builds.new ≡ builds.old + built_here (names_read (look_of (shared arrival.now.widget))) (kept_output f.pasts (plain_at_any f.scrolled f.elements owned.now.partner) (shared arrival.now.widget) names.entry.now.now.items)) }
    ensures builds_at_fault { IfErr result (λ x. IfSome (fault_of x) (λ y. (f : LastFrame) → Keeps f.elements t.now.tree → IfSome owned.now.partner (IsOld f names.entry.now.was.items)
        → builds.new ≡ builds.old + built_here (names_read (look_of (shared arrival.now.widget))) (kept_output f.pasts (plain_at_any f.scrolled f.elements owned.now.partner) (shared arrival.now.widget) names.entry.now.now.items))) }
    ensures typed { IfOk result (λ ws. AreTypedWidgets (declared_by from.now) (widgets_of (given_to (shared arrival.now.widget) ws))) }
    ensures few { IfOk result (λ ws. (place : ℕ) (props : List AnyValue) → build_role_of (look_of (shared arrival.now.widget)) ≡ composes place props → length (given_to (shared arrival.now.widget) ws) ≤ 1) }
{
    let BuildRole::Composes { .. } = build_role_of(&arrival.widget.kind) else {
        return Ok(GivenWidgets::Own);
    };
    given_anew_or_kept(from, names, arrival, owned, t, builds)
}

/// What an element stores as the output of a component, which gave these child widgets.
pub(crate) fn output_of(
    widget: &Widget,
    given: &[Rc<Widget>],
) -> Result<Option<Rc<Widget>>, AllocError>
    requires { (place : ℕ) (props : List AnyValue) → build_role_of (look_in widget.now.kind) ≡ composes place props → length given.now ≤ 1 }
    ensures { IfOk result (λ o. Stores (build_role_of (look_in widget.now.kind)) (option_map shared o) (map shared given.now)) }
{
    let BuildRole::Composes { .. } = build_role_of(&widget.kind) else {
        return Ok(None);
    };
    if given.len() == 0 {
        return Ok(None);
    }
    Ok(Some(Rc::clone(&given[0])?))
}

// Whether a key isn't absent.
fn is_key(key: &Key<Value>) -> bool
    ensures { result ≡ is_given key.now }
{
    match key {
        Key::None => false,
        Key::Local(_) | Key::Global(_) => true,
    }
}

// Whether one of these widgets has a key.
fn is_any_keyed(widgets: &[Rc<Widget>]) -> bool
    ensures { result ≡ list_any (λ w. is_given (key_of (shared w))) widgets.now }
{
    for widget in widgets {
        if is_key(&widget.key) {
            return true;
        }
    }
    false
}

// The keys of siblings differ, some of which have one.
fn keep_keyed_apart(alloc: Global, widgets: &[Rc<Widget>]) -> Result<(), FrameFault>
    ensures ok { OnOk result ((s : Progress) → apart (map shared widgets.now) s ≡ gives (map shared widgets.now) s) }
    ensures fault { IfErr result (λ e. IfSome (fault_of e) (λ x. (s : Progress) → apart (map shared widgets.now) s ≡ stops x)) }
{
    let keys = keys_of(alloc, widgets)?;
    match first_repeat(alloc, keys.as_slice())? {
        None => Ok(()),
        Some(i) => Err(FrameFault::RepeatedSiblingKey(keys[i].clone()?)),
    }
}

/// The keys of siblings differ.
pub fn keep_apart(alloc: Global, widgets: &[Rc<Widget>]) -> Result<(), FrameFault>
    ensures ok { OnOk result ((s : Progress) → apart (map shared widgets.now) s ≡ gives (map shared widgets.now) s) }
    ensures fault { IfErr result (λ e. IfSome (fault_of e) (λ x. (s : Progress) → apart (map shared widgets.now) s ≡ stops x)) }
{
    if !is_any_keyed(widgets) {
        return Ok(());
    }
    keep_keyed_apart(alloc, widgets)
}
