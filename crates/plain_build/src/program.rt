// What a build asks of a checked program.
ghost use Rattle.std.specs.Prelude.{◌≡◌, ◌∷◌, [], List, map, IfOk, IfErr, IfSome, IsTrue};
ghost use Rattle.fx_expr.specs.declared.values.Ty.{Ty};
ghost use Rattle.fx_expr.specs.ScopeView.{env_of};
ghost use Rattle.fx_expr.specs.ValueOf.{value_of};
ghost use Rattle.fx_expr.specs.View.{exp_of};
ghost use Rattle.expr_check.specs.Sight.{sight_of};
ghost use Rattle.program_check.specs.ProgramCheck.{nothing_seen};
ghost use Rattle.program_check.specs.TypedBody.{AreTypedInOrder};
ghost use Rattle.program_check.specs.TypedChecked.{IsTypedChecked};
ghost use Rattle.fx_expr.specs.Value.{type_of};
ghost use Rattle.widget_model.specs.Plain.{PlainWidget, widgets_of};
ghost use Rattle.widget_model.specs.Size.{count_of};
ghost use Rattle.widget_model.specs.Typed.{sort_of, sorts_of, AreTypedWidgets, IsTypedWidget};
ghost use Rattle.widget_model.specs.Update.{same_type};
ghost use Rattle.widget_model.specs.View.{plain_of, look_in, slots_in, shared};
ghost use Rattle.program_check.specs.CheckedView.{plain_checked};
ghost use Rattle.template_build.specs.Program.{component_output, declarations_of, props_alone};
ghost use Rattle.template_build.specs.Scene.{body_sort_at};
ghost use Rattle.template_build.specs.Suits.{MayBuild};
ghost use Rattle.plain_tree.specs.PlainNode.{PlainNode, widget_of};
ghost use Rattle.build_form.specs.Step.{Progress, stops, gives};
ghost use Rattle.build_form.specs.BuildRole.{build_role_of};
ghost use Rattle.build_form.specs.Entering.{given_by, small_enough, fields_for, first_fields};
ghost use Rattle.build_form.specs.FaultView.{fault_of};
ghost use Rattle.build_form.specs.Lent.{lent};
ghost use Rattle.build_form.specs.Program.{names_in, default_values, blueprint_of};
ghost use Rattle.build_form.specs.WellBuilt.{FitFields, FitBelow, IsWellBuilt};

use crate::partners::copies;
use build_form::{BuildRole, FrameFault, build_role_of};
use fx_expr::{Expr, Scope, Value, ValueList, eval};
use fx_outside::Steps;
use plain_tree::Node;
use program_check::Checked;
use std::alloc::{AllocError, Global};
use std::rc::Rc;
use std::sync::ledger::Ledger;
use template_build::{BuildFault, build_component, initial_fields};
use widget_model::{Widget, WidgetList};

/// The values of inherited names where no widget gives one.
pub fn default_values(alloc: Global, checked: &Checked) -> Result<Vec<Value>, AllocError>
    ensures values { IfOk result (λ vs. vs.items ≡ default_values (plain_checked checked.now)) }
    ensures typed { IfOk result (λ vs. map type_of vs.items ≡ (declarations_of (plain_checked checked.now)).inherited) }
    // A checked program is typed.
    ensures checked { IsTypedChecked (plain_checked checked.now) }
{
    let parts = checked.parts();
    values_of(alloc, parts.inherited.values.as_slice())
}

// The values of expressions that name nothing.
fn values_of(alloc: Global, exprs: &[Expr]) -> Result<Vec<Value>, AllocError>
    requires { (ts : List Ty) × AreTypedInOrder (sight_of nothing_seen) ts (map exp_of exprs.now) }
    ensures { IfOk result (λ vs. vs.items ≡ map (λ e. value_of e (props_alone [])) (map exp_of exprs.now)) }
{
    let scope = Scope {
        fields: &[],
        props: &[],
        vars: &[],
        inherited: &[],
        event: (0, 0),
    };
    let mut values = Vec::with_capacity(alloc, exprs.len())?;
    for e in exprs {
        values.push(eval(alloc, e, &scope)?)?;
    }
    Ok(values)
}

// The same values once more.
fn copy_values(alloc: Global, values: &[Value]) -> Result<Vec<Value>, AllocError>
    ensures { IfOk result (λ vs. vs.items ≡ values.now) }
{
    let mut copies = Vec::with_capacity(alloc, values.len())?;
    for value in values {
        copies.push(value.clone()?)?;
    }
    Ok(copies)
}

// What the body of a component gives.
fn output<L: Ledger>(
    alloc: Global,
    checked: &Checked,
    component: u32,
    scope: &Scope<'_>,
    slots: &WidgetList,
    number: u64,
    builds: &mut Steps<L>,
) -> Result<Vec<Rc<Widget>>, FrameFault>
    requires { MayBuild (plain_checked checked.now) component (env_of scope.now) slots.now }
    ensures ok { IfOk result (λ ws. (s : Progress) → small_enough (component_output (plain_checked checked.now) component (env_of scope.now) slots.now number) s ≡ gives (map shared ws.items) s) }
    ensures fault { IfErr result (λ f. IfSome (fault_of f) (λ g. (s : Progress) → small_enough (component_output (plain_checked checked.now) component (env_of scope.now) slots.now number) s ≡ stops g)) }
    ensures typed { IfOk result (λ ws. AreTypedWidgets (declarations_of (plain_checked checked.now)) (widgets_of slots.now)
        → AreTypedWidgets (declarations_of (plain_checked checked.now)) (widgets_of (map shared ws.items))) }
    ensures sort { IfOk result (λ ws. sorts_of (declarations_of (plain_checked checked.now)) (widgets_of (map shared ws.items)) ≡ body_sort_at (declarations_of (plain_checked checked.now)) component ∷ []) }
{
    match build_component(
        alloc,
        checked,
        component,
        scope,
        slots.get(),
        number,
        builds,
    ) {
        Ok(widget) => {
            let mut widgets = Vec::new(alloc);
            widgets.push(widget)?;
            Ok(widgets)
        }
        Err(BuildFault::OutputTooLarge) => Err(FrameFault::OutputTooLarge),
        Err(BuildFault::OutOfMemory) => Err(FrameFault::OutOfMemory),
    }
}

/// The child widgets of a widget: those that it has, and of a component the one that its body gives.
pub(crate) fn given<L: Ledger>(
    alloc: Global,
    checked: &Checked,
    widget: &Widget,
    values: &[Value],
    fields: &[Value],
    number: u64,
    builds: &mut Steps<L>,
) -> Result<Vec<Rc<Widget>>, FrameFault>
    requires typed { IsTypedWidget (declarations_of (plain_checked checked.now)) (plain_of widget.now) }
    requires values { map type_of values.now ≡ (declarations_of (plain_checked checked.now)).inherited }
    requires fields { FitFields (declarations_of (plain_checked checked.now)) (build_role_of (look_in widget.now.kind)) fields.now }
    ensures ok { IfOk result (λ ws. (s : Progress) → given_by (blueprint_of (plain_checked checked.now)) (build_role_of (look_in widget.now.kind)) values.now number fields.now (plain_of widget.now) s ≡ gives (map shared ws.items) s) }
    ensures fault { IfErr result (λ f. IfSome (fault_of f) (λ g. (s : Progress) → given_by (blueprint_of (plain_checked checked.now)) (build_role_of (look_in widget.now.kind)) values.now number fields.now (plain_of widget.now) s ≡ stops g)) }
    ensures typed { IfOk result (λ ws. AreTypedWidgets (declarations_of (plain_checked checked.now)) (widgets_of (map shared ws.items))) }
    ensures fits { IfOk result (λ ws. FitBelow (declarations_of (plain_checked checked.now)) (look_in widget.now.kind) (build_role_of (look_in widget.now.kind)) (sorts_of (declarations_of (plain_checked checked.now)) (widgets_of (map shared ws.items)))) }
{
    if let BuildRole::Composes {
        component,
        props,
        slots,
    } = build_role_of(&widget.kind)
    {
        let scope = Scope {
            fields,
            props: props.get(),
            vars: &[],
            inherited: values,
            event: (0, 0),
        };
        return output(alloc, checked, component, &scope, slots, number, builds);
    }
    Ok(copies(alloc, widget.children.get())?)
}

/// The fields of a node for a widget: those of the node that it goes on from, or its first ones.
pub(crate) fn fields_for(
    alloc: Global,
    checked: &Checked,
    widget: &Widget,
    partner: Option<&Node>,
) -> Result<ValueList, AllocError>
    requires typed { IsTypedWidget (declarations_of (plain_checked checked.now)) (plain_of widget.now) }
    requires partner { IfSome (lent partner) (λ n. IsWellBuilt (declarations_of (plain_checked checked.now)) n × IsTrue (same_type (widget_of n) (plain_of widget.now))) }
    ensures fields { IfOk result (λ vs. vs ≡ fields_for (blueprint_of (plain_checked checked.now)) (plain_of widget.now) (lent partner.entry)) }
    ensures fit { IfOk result (λ vs. FitFields (declarations_of (plain_checked checked.now)) (build_role_of (look_in widget.now.kind)) vs) }
{
    match partner {
        Some(node) => Ok(ValueList::of(copy_values(alloc, node.fields.get())?)),
        None => first_fields(alloc, checked, widget),
    }
}

// The first fields of a node for a widget.
fn first_fields(alloc: Global, checked: &Checked, widget: &Widget) -> Result<ValueList, AllocError>
    requires { IsTypedWidget (declarations_of (plain_checked checked.now)) (plain_of widget.now) }
    ensures fields { IfOk result (λ vs. vs ≡ first_fields (blueprint_of (plain_checked checked.now)) (build_role_of (look_in widget.now.kind))) }
    ensures fit { IfOk result (λ vs. FitFields (declarations_of (plain_checked checked.now)) (build_role_of (look_in widget.now.kind)) vs) }
{
    if let BuildRole::Composes {
        component,
        props,
        ..
    } = build_role_of(&widget.kind)
    {
        return Ok(ValueList::of(initial_fields(alloc, checked, component, props.get())?));
    }
    Ok(ValueList::of(Vec::new(alloc)))
}
