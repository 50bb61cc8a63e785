// A widget that gives a value to an inherited name, for what is below it (`InheritedWidget`).
ghost use Rattle.std.specs.Prelude.{◌≡◌, ◌<◌, length, map, IfOk, OnOk, IfSome, Some, slice_set, slice_get};
ghost use Rattle.fx_expr.specs.Value.{type_of};
ghost use Rattle.widget_model.specs.View.{plain_of, look_in};
ghost use Rattle.build_form.specs.BuildRole.{build_role_of};
ghost use Rattle.build_form.specs.Entering.{values_below};
ghost use Rattle.plain_build.specs.ProvidingView.{with_outer};
ghost use Rattle.build_form.specs.Filling.{FitsNames};

use build_form::{BuildRole, build_role_of};
use fx_expr::Value;
use std::alloc::AllocError;
use std::mem::replace;
use widget_model::Widget;

/// An inherited name that has another value below a widget, and the value that it has around it.
#[derive(Drop)]
pub(crate) struct Outer {
    pub(crate) name: usize,
    pub(crate) value: Value,
}

// Gives a value to an inherited name, and answers the one that it had.
fn provide(values: &mut [Value], name: usize, value: &Value) -> Result<Value, AllocError>
    requires { slice_get (map type_of values.old) name ≡ Some (type_of value.now) }
    ensures provided { OnOk result (values.new ≡ slice_set values.old name value.now) }
    ensures before { IfOk result (λ outer. slice_set values.new name outer ≡ values.old) }
    ensures typed { OnOk result (map type_of values.new ≡ map type_of values.old) }
{
    Ok(replace(&mut values[name], value.clone()?))
}

/// Gives the inherited names the values that they have below a widget, and answers what it changed.
pub(crate) fn provide_below(
    values: &mut [Value],
    widget: &Widget,
) -> Result<Option<Outer>, AllocError>
    requires { FitsNames (map type_of values.old) (build_role_of (look_in widget.now.kind)) }
    ensures below { OnOk result (values.new ≡ values_below (plain_of widget.now) values.old) }
    ensures outer { IfOk result (λ o. with_outer o values.new ≡ values.old) }
    ensures within { IfOk result (λ o. IfSome o (λ x. x.name < length values.new)) }
    ensures typed { OnOk result (map type_of values.new ≡ map type_of values.old) }
{
    if let BuildRole::Provides { name, value } = build_role_of(&widget.kind) {
        let name = name as usize;
        let value = provide(values, name, value)?;
        return Ok(Some(Outer { name, value }));
    }
    Ok(None)
}

/// Gives a name the value again that it had.
pub(crate) fn restore(values: &mut [Value], outer: Option<Outer>)
    requires { IfSome outer (λ x. x.name < length values.old) }
    ensures { values.new ≡ with_outer outer values.old }
{
    if let Some(Outer { name, value }) = outer {
        values[name] = value;
    }
}
