// The values of inherited names at a place, now and in the last frame (`InheritedWidget`).
ghost use Rattle.std.specs.Prelude.{◌≡◌, ◌<◌, length, map, IfOk, OnOk, IfSome, Some, slice_set, slice_get};
ghost use Rattle.fx_expr.specs.Value.{type_of};
ghost use Rattle.widget_model.specs.View.{plain_of, look_in};
ghost use Rattle.build_form.specs.BuildRole.{build_role_of};
ghost use Rattle.build_form.specs.Entering.{values_below};
ghost use Rattle.build_form.specs.Filling.{FitsNames};
ghost use Rattle.build_owner.specs.Climbing.{AreAllFitting};
ghost use Rattle.build_owner.specs.NamesView.{with_outer, outer_now, outer_was, provides_value, provided_value, widget_had, was_around, values_had};

use build_form::{BuildRole, build_role_of};
use element_tree::ElementTree;
use fx_expr::Value;
use fx_handles::Handle;
use std::alloc::{AllocError, Global};
use std::mem::replace;
use widget_model::Widget;

/// The values of all inherited names at a place: in the new tree, and in the old one where the node stood from which the widget there
/// goes on.
#[derive(Drop)]
pub(crate) struct NameValues {
    pub(crate) now: Vec<Value>,
    pub(crate) was: Vec<Value>,
}

/// A name that has another value below a widget, and the value that it has around it.
#[derive(Drop)]
pub struct Outer {
    pub(crate) name: usize,
    pub(crate) value: Value,
}

// Gives a value to a name, and answers the one that it had.
fn provide(values: &mut [Value], name: usize, value: &Value) -> Result<Value, AllocError>
    requires { slice_get (map type_of values.old) name ≡ Some (type_of value.now) }
    ensures provided { OnOk result (values.new ≡ slice_set values.old name value.now) }
    ensures before { IfOk result (λ outer. slice_set values.new name outer ≡ values.old) }
    ensures typed { OnOk result (map type_of values.new ≡ map type_of values.old) }
{
    Ok(replace(&mut values[name], value.clone()?))
}

/// Gives the names the values that they have below a widget, and answers what it changed.
pub fn provide_below(values: &mut [Value], widget: &Widget) -> Result<Option<Outer>, AllocError>
    requires { FitsNames (map type_of values.old) (build_role_of (look_in widget.now.kind)) }
    ensures below { OnOk result (values.new ≡ values_below (plain_of widget.now) values.old) }
    ensures outer { IfOk result (λ o. with_outer o values.new ≡ values.old) }
    ensures within { IfOk result (λ o. IfSome o (λ x. x.name < length values.new)) }
    ensures typed { OnOk result (map type_of values.new ≡ map type_of values.old) }
{
    if let BuildRole::Provides { name, value } = build_role_of(&widget.kind) {
        let name = name as usize;
        let value = provide(values, name, value)?;
        return Ok(Some(Outer { name, value }));
    }
    Ok(None)
}

/// Gives a name the value again that it had.
pub fn restore(values: &mut [Value], outer: Option<Outer>)
    requires { IfSome outer (λ x. x.name < length values.old) }
    ensures { values.new ≡ with_outer outer values.old }
{
    if let Some(Outer { name, value }) = outer {
        values[name] = value;
    }
}

/// The same values once more.
pub(crate) fn copy_values(alloc: Global, values: &[Value]) -> Result<Vec<Value>, AllocError>
    ensures { IfOk result (λ vs. vs.items ≡ values.now) }
{
    let mut copies = Vec::with_capacity(alloc, values.len())?;
    for value in values {
        copies.push(value.clone()?)?;
    }
    Ok(copies)
}

/// The names that have other values below a widget, and below the old element from which the one there goes on.
#[derive(Drop)]
pub(crate) struct Outers {
    pub(crate) now: Option<Outer>,
    pub(crate) was: Option<Outer>,
}

// Gives the names the values that they had below an old element, if there is one, and answers what it changed.
fn provide_had(
    values: &mut [Value],
    t: &ElementTree,
    partner: Option<Handle>,
) -> Result<Option<Outer>, AllocError>
    requires { AreAllFitting (map type_of values.old) t.now.tree }
    ensures had { OnOk result (values.new ≡ values_had t.now.tree partner values.old) }
    ensures outer { IfOk result (λ o. with_outer o values.new ≡ values.old) }
    ensures within { IfOk result (λ o. IfSome o (λ x. x.name < length values.new)) }
    ensures typed { OnOk result (map type_of values.new ≡ map type_of values.old) }
{
    let Some(h) = partner else {
        return Ok(None);
    };
    let Some(widget) = t.widget(h) else {
        return Ok(None);
    };
    provide_below(values, widget)
}

/// The values that the names had below an old element, if there is one, of those that they had around it.
pub(crate) fn below_old(
    values: Vec<Value>,
    t: &ElementTree,
    partner: Option<Handle>,
) -> Result<Vec<Value>, AllocError>
    requires { AreAllFitting (map type_of values.items) t.now.tree }
    ensures had { IfOk result (λ vs. vs.items ≡ values_had t.now.tree partner values.items) }
    ensures typed { IfOk result (λ vs. map type_of vs.items ≡ map type_of values.items) }
{
    let mut values = values;
    provide_had(values.as_mut_slice(), t, partner)?;
    Ok(values)
}

// Whether a widget gives a name another value.
fn is_provider(widget: &Widget) -> bool
    ensures { result ≡ provides_value (build_role_of (look_in widget.now.kind)) }
{
    if let BuildRole::Provides { .. } = build_role_of(&widget.kind) {
        return true;
    }
    false
}

// Whether an old element, if there is one, gave a name another value.
fn was_provider(t: &ElementTree, partner: Option<Handle>) -> bool
    ensures { result ≡ provided_value (widget_had t.now.tree partner) }
{
    let Some(h) = partner else {
        return false;
    };
    let Some(widget) = t.widget(h) else {
        return false;
    };
    is_provider(widget)
}

// Gives the names the values that they have below a widget, and those that they had below an old element, and answers what it changed.
fn provide_both(
    alloc: Global,
    names: &mut NameValues,
    widget: &Widget,
    t: &ElementTree,
    partner: Option<Handle>,
) -> Result<Option<Box<Outers>>, AllocError>
    requires now { FitsNames (map type_of names.old.now.items) (build_role_of (look_in widget.now.kind)) }
    requires was { AreAllFitting (map type_of names.old.was.items) t.now.tree }
    ensures now { OnOk result (names.new.now.items ≡ values_below (plain_of widget.now) names.old.now.items) }
    ensures was { OnOk result (names.new.was.items ≡ values_had t.now.tree partner names.old.was.items) }
    ensures back { IfOk result (λ o. (with_outer (outer_now o) names.new.now.items ≡ names.old.now.items) × (with_outer (outer_was o) names.new.was.items ≡ names.old.was.items)) }
    ensures within { IfOk result (λ o. IfSome (outer_now o) (λ x. x.name < length names.new.now.items) × IfSome (outer_was o) (λ x. x.name < length names.new.was.items)) }
    ensures typed { OnOk result ((map type_of names.new.now.items ≡ map type_of names.old.now.items) × (map type_of names.new.was.items ≡ map type_of names.old.was.items)) }
{
    let now = provide_below(names.now.as_mut_slice(), widget)?;
    let was = provide_had(names.was.as_mut_slice(), t, partner)?;
    Ok(Some(Box::new(alloc, Outers { now, was })?))
}

/// Goes below a widget that goes on from an old element, or from none: gives the names the values that they have there, and had there, and
/// answers what it changed, which is nothing at most widgets.
pub(crate) fn go_below(
    alloc: Global,
    names: &mut NameValues,
    widget: &Widget,
    t: &ElementTree,
    partner: Option<Handle>,
) -> Result<Option<Box<Outers>>, AllocError>
    requires now { FitsNames (map type_of names.old.now.items) (build_role_of (look_in widget.now.kind)) }
    requires was { AreAllFitting (map type_of names.old.was.items) t.now.tree }
    ensures now { OnOk result (names.new.now.items ≡ values_below (plain_of widget.now) names.old.now.items) }
    ensures was { OnOk result (names.new.was.items ≡ values_had t.now.tree partner names.old.was.items) }
    ensures back { IfOk result (λ o. (with_outer (outer_now o) names.new.now.items ≡ names.old.now.items) × (with_outer (outer_was o) names.new.was.items ≡ names.old.was.items)) }
    ensures within { IfOk result (λ o. IfSome (outer_now o) (λ x. x.name < length names.new.now.items) × IfSome (outer_was o) (λ x. x.name < length names.new.was.items)) }
    ensures typed { OnOk result ((map type_of names.new.now.items ≡ map type_of names.old.now.items) × (map type_of names.new.was.items ≡ map type_of names.old.was.items)) }
{
    if !is_provider(widget) && !was_provider(t, partner) {
        return Ok(None);
    }
    provide_both(alloc, names, widget, t, partner)
}

// Gives the names the values again that they have and had around a widget.
fn restore_both(names: &mut NameValues, outers: Box<Outers>)
    requires within { IfSome outers.value.now (λ x. x.name < length names.old.now.items) × IfSome outers.value.was (λ x. x.name < length names.old.was.items) }
    ensures now { names.new.now.items ≡ with_outer outers.value.now names.old.now.items }
    ensures was { names.new.was.items ≡ with_outer outers.value.was names.old.was.items }
{
    let Outers { now, was } = Box::into_inner(outers);
    restore(names.now.as_mut_slice(), now);
    restore(names.was.as_mut_slice(), was);
}

/// Goes back up: gives the names the values again that they have and had around a widget.
pub(crate) fn go_back(names: &mut NameValues, outers: Option<Box<Outers>>)
    requires within { IfSome (outer_now outers) (λ x. x.name < length names.old.now.items) × IfSome (outer_was outers) (λ x. x.name < length names.old.was.items) }
    ensures now { names.new.now.items ≡ with_outer (outer_now outers) names.old.now.items }
    ensures was { names.new.was.items ≡ with_outer (outer_was outers) names.old.was.items }
{
    if let Some(outers) = outers {
        restore_both(names, outers);
    }
}

/// Gives the names the values again that they had around the place where a widget stands whose element was taken from elsewhere.
pub(crate) fn give_back(names: &mut NameValues, around: Option<Vec<Value>>)
    ensures now { names.new.now.items ≡ names.old.now.items }
    ensures was { names.new.was.items ≡ was_around around names.old.was.items }
{
    if let Some(was) = around {
        names.was = was;
    }
}
