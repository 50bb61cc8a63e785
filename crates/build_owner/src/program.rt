// What a build asks of a checked program.
ghost use Rattle.std.specs.Prelude.{◌≡◌, ◌+◌, ℕ, List, [], ◌∷◌, None, length, map, IfOk, OnOk, IfErr, IfSome};
ghost use Rattle.fx_expr.specs.declared.values.Value.{Value as AnyValue};
ghost use Rattle.fx_expr.specs.ScopeView.{env_of};
ghost use Rattle.fx_expr.specs.Value.{type_of};
ghost use Rattle.widget_model.specs.Plain.{PlainWidget, widgets_of};
ghost use Rattle.widget_model.specs.Typed.{IsTypedWidget, AreTypedWidgets};
ghost use Rattle.widget_model.specs.View.{plain_of, look_in, shared};
ghost use Rattle.program_check.specs.CheckedView.{plain_checked};
ghost use Rattle.template_build.specs.Program.{component_output, declarations_of};
ghost use Rattle.template_build.specs.Suits.{MayBuild};
ghost use Rattle.build_form.specs.Step.{Progress, stops, gives};
ghost use Rattle.build_form.specs.BuildRole.{composes, build_role_of};
ghost use Rattle.build_form.specs.Entering.{given_by, small_enough, first_fields};
ghost use Rattle.build_form.specs.FaultView.{fault_of};
ghost use Rattle.build_form.specs.Program.{blueprint_of};
ghost use Rattle.build_form.specs.WellBuilt.{FitFields};
ghost use Rattle.work_sets.specs.Due.{names_read};
ghost use Rattle.build_walk.specs.Counting.{built_here};
ghost use Rattle.build_owner.specs.Given.{given_to};

use crate::arriving::copies;
use crate::giving::GivenWidgets;
use build_form::{BuildRole, FrameFault, build_role_of};
use fx_expr::{Scope, Value};
use fx_outside::Steps;
use program_check::Checked;
use std::alloc::{AllocError, Global};
use std::rc::Rc;
use std::sync::ledger::Ledger;
use template_build::{BuildFault, build_component, initial_fields};
use widget_model::{Widget, WidgetList};

/// The first fields of an element for a widget.
pub fn first_fields(
    alloc: Global,
    checked: &Checked,
    widget: &Widget,
) -> Result<Vec<Value>, AllocError>
    requires { IsTypedWidget (declarations_of (plain_checked checked.now)) (plain_of widget.now) }
    ensures fields { IfOk result (λ vs. vs.items ≡ first_fields (blueprint_of (plain_checked checked.now)) (build_role_of (look_in widget.now.kind))) }
    ensures fit { IfOk result (λ vs. FitFields (declarations_of (plain_checked checked.now)) (build_role_of (look_in widget.now.kind)) vs.items) }
{
    if let BuildRole::Composes {
        component,
        props,
        ..
    } = build_role_of(&widget.kind)
    {
        return initial_fields(alloc, checked, component, props.get());
    }
    Ok(Vec::new(alloc))
}

/// The widget that the body of a component gives, which counts as one build.
pub fn body_output<L: Ledger>(
    alloc: Global,
    checked: &Checked,
    component: u32,
    scope: &Scope<'_>,
    slots: &WidgetList,
    number: u64,
    builds: &mut Steps<L>,
) -> Result<Rc<Widget>, FrameFault>
    requires { MayBuild (plain_checked checked.now) component (env_of scope.now) slots.now }
    ensures ok { IfOk result (λ w. (s : Progress) → small_enough (component_output (plain_checked checked.now) component (env_of scope.now) slots.now number) s ≡ gives (shared w ∷ []) s) }
    ensures fault { IfErr result (λ f. IfSome (fault_of f) (λ g. (s : Progress) → small_enough (component_output (plain_checked checked.now) component (env_of scope.now) slots.now number) s ≡ stops g)) }
    ensures typed { IfOk result (λ w. AreTypedWidgets (declarations_of (plain_checked checked.now)) (widgets_of slots.now)
        → AreTypedWidgets (declarations_of (plain_checked checked.now)) (widgets_of (shared w ∷ []))) }
    ensures builds { builds.new ≡ builds.old + 1 }
{
    match build_component(
        alloc,
        checked,
        component,
        scope,
        slots.get(),
        number,
        builds,
    ) {
        Ok(widget) => Ok(widget),
        Err(BuildFault::OutputTooLarge) => Err(FrameFault::OutputTooLarge),
        Err(BuildFault::OutOfMemory) => Err(FrameFault::OutOfMemory),
    }
}

// What the body of a component gives, as what is given to an element.
fn output<L: Ledger>(
    alloc: Global,
    checked: &Checked,
    component: u32,
    scope: &Scope<'_>,
    slots: &WidgetList,
    number: u64,
    builds: &mut Steps<L>,
) -> Result<GivenWidgets, FrameFault>
    requires { MayBuild (plain_checked checked.now) component (env_of scope.now) slots.now }
    ensures ok { IfOk result (λ o. (w : PlainWidget) (s : Progress) → small_enough (component_output (plain_checked checked.now) component (env_of scope.now) slots.now number) s ≡ gives (given_to w o) s) }
    ensures fault { IfErr result (λ f. IfSome (fault_of f) (λ g. (s : Progress) → small_enough (component_output (plain_checked checked.now) component (env_of scope.now) slots.now number) s ≡ stops g)) }
    ensures typed { IfOk result (λ o. (w : PlainWidget) → AreTypedWidgets (declarations_of (plain_checked checked.now)) (widgets_of slots.now)
        → AreTypedWidgets (declarations_of (plain_checked checked.now)) (widgets_of (given_to w o))) }
    ensures one { IfOk result (λ o. (w : PlainWidget) → length (given_to w o) ≡ 1) }
    ensures builds { builds.new ≡ builds.old + 1 }
{
    match body_output(alloc, checked, component, scope, slots, number, builds) {
        Ok(widget) => Ok(GivenWidgets::One(widget)),
        Err(fault) => Err(fault),
    }
}

/// What is given to an element with a widget: the child widgets that it has, and of a component the one that its body gives, which counts
/// as one build.
pub(crate) fn given_by_body<L: Ledger>(
    alloc: Global,
    checked: &Checked,
    widget: &Widget,
    values: &[Value],
    fields: &[Value],
    number: u64,
    builds: &mut Steps<L>,
) -> Result<GivenWidgets, FrameFault>
    requires typed { IsTypedWidget (declarations_of (plain_checked checked.now)) (plain_of widget.now) }
    requires values { map type_of values.now ≡ (declarations_of (plain_checked checked.now)).inherited }
    requires fields { FitFields (declarations_of (plain_checked checked.now)) (build_role_of (look_in widget.now.kind)) fields.now }
    ensures ok { IfOk result (λ ws. (s : Progress) → given_by (blueprint_of (plain_checked checked.now)) (build_role_of (look_in widget.now.kind)) values.now number fields.now (plain_of widget.now) s ≡ gives (given_to (plain_of widget.now) ws) s) }
    ensures fault { IfErr result (λ f. IfSome (fault_of f) (λ g. (s : Progress) → given_by (blueprint_of (plain_checked checked.now)) (build_role_of (look_in widget.now.kind)) values.now number fields.now (plain_of widget.now) s ≡ stops g)) }
    ensures typed { IfOk result (λ ws. AreTypedWidgets (declarations_of (plain_checked checked.now)) (widgets_of (given_to (plain_of widget.now) ws))) }
    ensures one { IfOk result (λ ws. (place : ℕ) (props : List AnyValue) → build_role_of (look_in widget.now.kind) ≡ composes place props → length (given_to (plain_of widget.now) ws) ≡ 1) }
    ensures builds { OnOk result (builds.new ≡ builds.old + built_here (names_read (look_in widget.now.kind)) None) }
    ensures builds_at_fault { IfErr result (λ f. IfSome (fault_of f) (λ g. builds.new ≡ builds.old + built_here (names_read (look_in widget.now.kind)) None)) }
{
    if let BuildRole::Composes {
        component,
        props,
        slots,
    } = build_role_of(&widget.kind)
    {
        let scope = Scope {
            fields,
            props: props.get(),
            vars: &[],
            inherited: values,
            event: (0, 0),
        };
        return output(alloc, checked, component, &scope, slots, number, builds);
    }
    Ok(GivenWidgets::Own)
}

// The list of the child widgets that are given to an element with such a widget.
fn listed(
    alloc: Global,
    widget: &Widget,
    given: GivenWidgets,
) -> Result<Vec<Rc<Widget>>, AllocError>
    ensures { IfOk result (λ ws. map shared ws.items ≡ given_to (plain_of widget.now) given) }
{
    match given {
        GivenWidgets::Own => copies(alloc, widget.children.get()),
        GivenWidgets::One(output) => {
            let mut widgets = Vec::new(alloc);
            widgets.push(output)?;
            Ok(widgets)
        }
        GivenWidgets::Others(widgets) => Ok(widgets),
    }
}

/// The child widgets of a widget: those that it has, and of a component the one that its body gives, which counts as one build.
pub fn given_anew<L: Ledger>(
    alloc: Global,
    checked: &Checked,
    widget: &Widget,
    values: &[Value],
    fields: &[Value],
    number: u64,
    builds: &mut Steps<L>,
) -> Result<Vec<Rc<Widget>>, FrameFault>
    requires typed { IsTypedWidget (declarations_of (plain_checked checked.now)) (plain_of widget.now) }
    requires values { map type_of values.now ≡ (declarations_of (plain_checked checked.now)).inherited }
    requires fields { FitFields (declarations_of (plain_checked checked.now)) (build_role_of (look_in widget.now.kind)) fields.now }
    ensures ok { IfOk result (λ ws. (s : Progress) → given_by (blueprint_of (plain_checked checked.now)) (build_role_of (look_in widget.now.kind)) values.now number fields.now (plain_of widget.now) s ≡ gives (map shared ws.items) s) }
    ensures fault { IfErr result (λ f. IfSome (fault_of f) (λ g. (s : Progress) → given_by (blueprint_of (plain_checked checked.now)) (build_role_of (look_in widget.now.kind)) values.now number fields.now (plain_of widget.now) s ≡ stops g)) }
    ensures typed { IfOk result (λ ws. AreTypedWidgets (declarations_of (plain_checked checked.now)) (widgets_of (map shared ws.items))) }
    ensures one { IfOk result (λ ws. (place : ℕ) (props : List AnyValue) → build_role_of (look_in widget.now.kind) ≡ composes place props → length ws.items ≡ 1) }
    ensures builds { OnOk result (builds.new ≡ builds.old + built_here (names_read (look_in widget.now.kind)) None) }
    ensures builds_at_fault { IfErr result (λ f. IfSome (fault_of f) (λ g. builds.new ≡ builds.old + built_here (names_read (look_in widget.now.kind)) None)) }
{
    let given = given_by_body(alloc, checked, widget, values, fields, number, builds)?;
    Ok(listed(alloc, widget, given)?)
}
