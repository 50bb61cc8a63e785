// The output of a component, of a root, and the first fields of a component.
ghost use Rattle.std.specs.Prelude.{◌≡◌, ◌+◌, ◌<◌, ◌≤◌, length, map, IfOk, Err, [], ◌∷◌};
ghost use Rattle.fx_expr.specs.ScopeView.{env_of};
ghost use Rattle.fx_expr.specs.Value.{type_of};
ghost use Rattle.widget_model.specs.Size.{count_of, count_in};
ghost use Rattle.widget_model.specs.Sized.{IsSized, AreSized};
ghost use Rattle.widget_model.specs.View.{shared};
ghost use Rattle.widget_model.specs.Plain.{widgets_of};
ghost use Rattle.widget_model.specs.Typed.{box, body_of, sort_of, IsTypedWidget, AreTypedWidgets, AreTypedFields};
ghost use Rattle.program_check.specs.BodyView.{plain_body};
ghost use Rattle.program_check.specs.CheckedView.{plain_checked};
ghost use Rattle.program_check.specs.TypedChecked.{IsTypedRoot};
ghost use Rattle.template_build.specs.declared.faults.BuildFault.{BuildFault};
ghost use Rattle.template_build.specs.Scene.{declaration_at, body_sort_at};
ghost use Rattle.template_build.specs.Program.{declarations_of, component_output, root_output, initial_fields_of};
ghost use Rattle.template_build.specs.Suits.{IsBuiltIn, MayBuild, MayBegin};
ghost use Rattle.template_build.specs.Output.{output_of};
ghost use Rattle.template_build.specs.SceneView.{scene_of, IsSoundScene};

use crate::build::add_output;
use crate::faults::BuildFault;
use crate::members::values_of;
use crate::scenes::Scene;
use fx_expr::{Scope, Value};
use fx_outside::Steps;
use program_check::{Body, Checked};
use std::alloc::{AllocError, Global};
use std::rc::Rc;
use std::sync::ledger::Ledger;
use widget_model::Widget;

/// An output has at most so many widgets.
pub const LIMIT: u32 = 65_536;

// The one widget that a template gives outside loops.
fn one_widget<'x>(
    alloc: Global,
    scene: &'x Scene<'x>,
    body: &'x Body,
) -> Result<Rc<Widget>, BuildFault>
    requires built { IsBuiltIn (scene_of scene.now []) (plain_body body.now) }
    requires sound { IsSoundScene scene.now }
    requires certain { length (output_of (plain_body body.now) (scene_of scene.now [])) ≡ 1 }
    ensures output { IfOk result (λ w. output_of (plain_body body.now) (scene_of scene.now []) ≡ shared w ∷ []) }
    ensures size { IfOk result (λ w. IsSized w.value) }
    ensures limit { IfOk result (λ w. count_of (shared w) ≤ LIMIT) }
    ensures too_large { result ≡ Err BuildFault.OutputTooLarge → LIMIT < count_in (output_of (plain_body body.now) (scene_of scene.now [])) }
{
    let mut vars = Vec::new(alloc);
    let mut widgets = Vec::new(alloc);
    add_output(alloc, scene, body, &mut vars, LIMIT, &mut widgets)?;
    match widgets.pop() {
        Some(widget) => Ok(widget),
        None => unreachable!(),
    }
}

/// The widget that the body of the component at a place of the program gives: with the names of the scope, at a node of
/// the number `owner`, to which its handlers belong, and with these contents of its slots. It counts one build. Fails
/// where the output has more than 65,536 widgets, and for want of memory.
pub fn build_component<L: Ledger>(
    alloc: Global,
    c: &Checked,
    component: u32,
    s: &Scope<'_>,
    slots: &[Rc<Widget>],
    owner: u64,
    builds: &mut Steps<L>,
) -> Result<Rc<Widget>, BuildFault>
    requires component { MayBuild (plain_checked c.now) component (env_of s.now) (map shared slots.now) }
    requires sizes { AreSized slots.now }
    ensures output { IfOk result (λ w. component_output (plain_checked c.now) component (env_of s.now) (map shared slots.now) owner ≡ shared w ∷ []) }
    ensures size { IfOk result (λ w. IsSized w.value) }
    ensures limit { IfOk result (λ w. count_of (shared w) ≤ LIMIT) }
    ensures too_large { result ≡ Err BuildFault.OutputTooLarge
        → LIMIT < count_in (component_output (plain_checked c.now) component (env_of s.now) (map shared slots.now) owner) }
    // It is of the sort that the component declares, and typed over the program where the contents of its slots are.
    ensures sort { IfOk result (λ w. sort_of (declarations_of (plain_checked c.now)) (shared w) ≡ body_sort_at (declarations_of (plain_checked c.now)) component) }
    ensures typed { IfOk result (λ w. AreTypedWidgets (declarations_of (plain_checked c.now)) (widgets_of (map shared slots.now))
        → IsTypedWidget (declarations_of (plain_checked c.now)) (shared w)) }
    ensures builds { builds.new ≡ builds.old + 1 }
{
    builds.tick();
    let program = c.parts();
    let components = program.components.as_slice();
    let scene = Scene {
        program,
        fields: s.fields,
        props: s.props,
        inherited: s.inherited,
        event: s.event,
        given: slots,
        owner,
    };
    one_widget(alloc, &scene, &components[component as usize].body)
}

/// The widget that a root gives, the program's own or another that was checked in its place. Fails where the output has
/// more than 65,536 widgets, and for want of memory.
pub fn build_root(alloc: Global, c: &Checked, b: &Body) -> Result<Rc<Widget>, BuildFault>
    requires { IsTypedRoot (plain_checked c.now) (plain_body b.now) }
    ensures output { IfOk result (λ w. root_output (plain_checked c.now) (plain_body b.now) ≡ shared w ∷ []) }
    ensures size { IfOk result (λ w. IsSized w.value) }
    ensures limit { IfOk result (λ w. count_of (shared w) ≤ LIMIT) }
    ensures too_large { result ≡ Err BuildFault.OutputTooLarge → LIMIT < count_in (root_output (plain_checked c.now) (plain_body b.now)) }
    ensures sort { IfOk result (λ w. sort_of (declarations_of (plain_checked c.now)) (shared w) ≡ box) }
    ensures typed { IfOk result (λ w. IsTypedWidget (declarations_of (plain_checked c.now)) (shared w)) }
{
    let scene = Scene {
        program: c.parts(),
        fields: &[],
        props: &[],
        inherited: &[],
        event: (0, 0),
        given: &[],
        owner: 0,
    };
    one_widget(alloc, &scene, b)
}

/// The first values of the fields of the component at a place of the program, by the values of its props. Fails only for
/// want of memory.
pub fn initial_fields(
    alloc: Global,
    c: &Checked,
    component: u32,
    props: &[Value],
) -> Result<Vec<Value>, AllocError>
    requires { MayBegin (plain_checked c.now) component (map type_of props.now) }
    ensures fields { IfOk result (λ vs. vs.items ≡ initial_fields_of (plain_checked c.now) component props.now) }
    ensures typed { IfOk result (λ vs. AreTypedFields (declaration_at (declarations_of (plain_checked c.now)) component) vs.items) }
{
    let components = c.parts().components.as_slice();
    let scope = Scope {
        fields: &[],
        props,
        vars: &[],
        inherited: &[],
        event: (0, 0),
    };
    let fields = &components[component as usize].fields;
    values_of(alloc, fields.values.as_slice(), &scope)
}
