// The widgets that a template gives, one after another, as long as there is room for them.
ghost use Rattle.std.specs.Prelude.{◌≡◌, ◌≤◌, ◌++◌, ◌∷◌, [], map, IfOk, IsTrue, OnOk};
ghost use Rattle.widget_model.specs.Sized.{IsSized, AreSized};
ghost use Rattle.widget_model.specs.View.{shared, plain_of};
ghost use Rattle.program_check.specs.Body.{members_in_body, bodies_in};
ghost use Rattle.program_check.specs.BodyView.{plain_body, plain_body_key_member};
ghost use Rattle.template_build.specs.declared.roles.TemplateRole.TheVariants as gives;
ghost use Rattle.template_build.specs.Building.{plain_part, part_output, makes_widget, made_over, AddsWidgets, HasCause, items_output, IsPartBuiltIn, AreAllBuiltIn, AreItemsBuiltIn};
ghost use Rattle.template_build.specs.Output.{items_in, output_of, outputs_of};
ghost use Rattle.template_build.specs.TemplateRole.{template_role_of};
ghost use Rattle.template_build.specs.SceneView.{scene_of, IsSoundScene};
ghost use Rattle.template_build.specs.Suits.{IsBuiltIn};

use crate::faults::BuildFault;
use crate::members::Members;
use crate::parts::{Templates, branch, holder, item, item_count, loop_list, templates_of};
use crate::roles::{TemplateRole, template_role_of};
use crate::scenes::Scene;
use fx_expr::Value;
use program_check::{Body, BodyPart};
use std::alloc::{AllocError, Global};
use std::rc::Rc;
use widget_model::{Kind, Widget, WidgetList};

// The use of a component, with these contents of its slots.
fn made_component(
    alloc: Global,
    scene: &Scene<'_>,
    body: &Body,
    vars: &[Value],
    below: Vec<Rc<Widget>>,
) -> Result<Widget, AllocError>
    requires built { IsBuiltIn (scene_of scene.now vars.now) (plain_body body.now) }
    requires sound { IsSoundScene scene.now }
    requires role { template_role_of body.now.w ≡ gives.Component }
    requires sizes { AreSized below.items }
    ensures widget { IfOk result (λ w. plain_of w ≡ made_over (template_role_of body.now.w) body.now.w (plain_body_key_member body.now.key) (members_in_body (plain_body body.now)) (scene_of scene.now vars.now) (map shared below.items)) }
    ensures size { IfOk result IsSized }
{
    let members = Members { scene, vars, body };
    let key = members.key(alloc)?;
    let component = members.name(0);
    let components = scene.program.components.as_slice();
    let decl = Rc::clone(&components[component as usize].decl)?;
    let props = members.props(alloc, 1)?;
    let kind = Kind::Use {
        component,
        props,
        slots: WidgetList::of(below),
        decl,
    };
    Ok(Widget::new(kind, key, WidgetList::of(Vec::new(alloc))))
}

// The widget of any other template, with these children.
fn made_widget(
    alloc: Global,
    scene: &Scene<'_>,
    body: &Body,
    vars: &[Value],
    below: Vec<Rc<Widget>>,
) -> Result<Widget, AllocError>
    requires built { IsBuiltIn (scene_of scene.now vars.now) (plain_body body.now) }
    requires sound { IsSoundScene scene.now }
    requires role { template_role_of body.now.w ≡ gives.Widget }
    requires sizes { AreSized below.items }
    ensures widget { IfOk result (λ w. plain_of w ≡ made_over (template_role_of body.now.w) body.now.w (plain_body_key_member body.now.key) (members_in_body (plain_body body.now)) (scene_of scene.now vars.now) (map shared below.items)) }
    ensures size { IfOk result IsSized }
{
    let members = Members { scene, vars, body };
    let key = members.key(alloc)?;
    let kind = members.kind(alloc, !below.is_empty())?;
    Ok(Widget::new(kind, key, WidgetList::of(below)))
}

// The widget of a template with the widgets below it.
fn made(
    alloc: Global,
    scene: &Scene<'_>,
    body: &Body,
    vars: &[Value],
    below: Vec<Rc<Widget>>,
) -> Result<Widget, AllocError>
    requires built { IsBuiltIn (scene_of scene.now vars.now) (plain_body body.now) }
    requires sound { IsSoundScene scene.now }
    requires role { IsTrue (makes_widget (template_role_of body.now.w)) }
    requires sizes { AreSized below.items }
    ensures widget { IfOk result (λ w. plain_of w ≡ made_over (template_role_of body.now.w) body.now.w (plain_body_key_member body.now.key) (members_in_body (plain_body body.now)) (scene_of scene.now vars.now) (map shared below.items)) }
    ensures size { IfOk result IsSized }
{
    match template_role_of(body.w) {
        TemplateRole::Widget => made_widget(alloc, scene, body, vars, below),
        TemplateRole::Component => made_component(alloc, scene, body, vars, below),
        TemplateRole::Content | TemplateRole::Choice | TemplateRole::Loop => unreachable!(),
    }
}

// Appends the widget of a template with the widgets below it.
fn add_made(
    alloc: Global,
    scene: &Scene<'_>,
    body: &Body,
    vars: &[Value],
    below: Vec<Rc<Widget>>,
    into: &mut Vec<Rc<Widget>>,
) -> Result<(), AllocError>
    requires built { IsBuiltIn (scene_of scene.now vars.now) (plain_body body.now) }
    requires sound { IsSoundScene scene.now }
    requires role { IsTrue (makes_widget (template_role_of body.now.w)) }
    requires below { AreSized below.items }
    requires into { AreSized into.old.items }
    ensures widgets { OnOk result (map shared into.new.items ≡ map shared into.old.items ++ made_over (template_role_of body.now.w) body.now.w (plain_body_key_member body.now.key) (members_in_body (plain_body body.now)) (scene_of scene.now vars.now) (map shared below.items) ∷ []) }
    ensures sizes { OnOk result (AreSized into.new.items) }
{
    let widget = made(alloc, scene, body, vars, below)?;
    into.push(Rc::new(alloc, widget)?)?;
    Ok(())
}

// Appends the content that was given for a slot, where there is room for it.
fn add_content(
    scene: &Scene<'_>,
    body: &Body,
    vars: &[Value],
    room: u32,
    into: &mut Vec<Rc<Widget>>,
) -> Result<u32, BuildFault>
    requires built { IsBuiltIn (scene_of scene.now vars.now) (plain_body body.now) }
    requires role { template_role_of body.now.w ≡ gives.Content }
    requires sizes { AreSized into.old.items }
    requires sound { IsSoundScene scene.now }
    requires small { room ≤ 65536 }
    ensures added { AddsWidgets (output_of (plain_body body.now) (scene_of scene.now vars.now)) room into.old.items into.new.items result }
    ensures too_large { HasCause (output_of (plain_body body.now) (scene_of scene.now vars.now)) room result }
{
    let members = Members { scene, vars, body };
    let content = &scene.given[members.name(0) as usize];
    let size = content.size;
    if size > room {
        return Err(BuildFault::OutputTooLarge);
    }
    into.push(Rc::clone(content)?)?;
    Ok(size)
}

// Appends the widgets that a template gives, and gives how many they are with all in them. Fails where there is no room
// for so many.
#[cycle(build)]
pub(crate) fn add_output<'x>(
    alloc: Global,
    scene: &'x Scene<'x>,
    body: &'x Body,
    vars: &mut Vec<Value>,
    room: u32,
    into: &mut Vec<Rc<Widget>>,
) -> Result<u32, BuildFault>
    requires built { IsBuiltIn (scene_of scene.now vars.old.items) (plain_body body.now) }
    requires sizes { AreSized into.old.items }
    requires sound { IsSoundScene scene.now }
    requires small { room ≤ 65536 }
    ensures added { AddsWidgets (output_of (plain_body body.now) (scene_of scene.now vars.old.items)) room into.old.items into.new.items result }
    ensures too_large { HasCause (output_of (plain_body body.now) (scene_of scene.now vars.old.items)) room result }
    ensures vars { OnOk result (vars.new.items ≡ vars.old.items) }
{
    match template_role_of(body.w) {
        TemplateRole::Widget | TemplateRole::Component => add_widget(
            alloc, scene, body, vars, room, into,
        ),
        TemplateRole::Content => add_content(scene, body, vars.as_slice(), room, into),
        TemplateRole::Choice => {
            let place = branch(alloc, scene, body, vars.as_slice())?;
            add_part(alloc, scene, body.part(place), vars, room, into)
        }
        TemplateRole::Loop => add_each(alloc, scene, body, vars, room, into),
    }
}

// The same of a template that makes a widget: that widget, with those below it.
#[cycle(build)]
fn add_widget<'x>(
    alloc: Global,
    scene: &'x Scene<'x>,
    body: &'x Body,
    vars: &mut Vec<Value>,
    room: u32,
    into: &mut Vec<Rc<Widget>>,
) -> Result<u32, BuildFault>
    requires built { IsBuiltIn (scene_of scene.now vars.old.items) (plain_body body.now) }
    requires role { IsTrue (makes_widget (template_role_of body.now.w)) }
    requires sizes { AreSized into.old.items }
    requires sound { IsSoundScene scene.now }
    requires small { room ≤ 65536 }
    ensures added { AddsWidgets (output_of (plain_body body.now) (scene_of scene.now vars.old.items)) room into.old.items into.new.items result }
    ensures too_large { HasCause (output_of (plain_body body.now) (scene_of scene.now vars.old.items)) room result }
    ensures vars { OnOk result (vars.new.items ≡ vars.old.items) }
{
    if room == 0 {
        return Err(BuildFault::OutputTooLarge);
    }
    let mut below = Vec::new(alloc);
    let size = add_part(alloc, scene, holder(body), vars, room - 1, &mut below)?;
    add_made(alloc, scene, body, vars.as_slice(), below, into)?;
    Ok(size + 1)
}

// The same of a loop.
#[cycle(build)]
fn add_each<'x>(
    alloc: Global,
    scene: &'x Scene<'x>,
    body: &'x Body,
    vars: &mut Vec<Value>,
    room: u32,
    into: &mut Vec<Rc<Widget>>,
) -> Result<u32, BuildFault>
    requires built { IsBuiltIn (scene_of scene.now vars.old.items) (plain_body body.now) }
    requires role { template_role_of body.now.w ≡ gives.Loop }
    requires sizes { AreSized into.old.items }
    requires sound { IsSoundScene scene.now }
    requires small { room ≤ 65536 }
    ensures added { AddsWidgets (output_of (plain_body body.now) (scene_of scene.now vars.old.items)) room into.old.items into.new.items result }
    ensures too_large { HasCause (output_of (plain_body body.now) (scene_of scene.now vars.old.items)) room result }
    ensures vars { OnOk result (vars.new.items ≡ vars.old.items) }
{
    let list = loop_list(alloc, scene, body, vars.as_slice())?;
    add_items(alloc, scene, &list, body.part(2), vars, room, into)
}

// The same of each item of a list: what a member of a template gives there, with the item as one more variable.
#[cycle(build)]
fn add_items<'x>(
    alloc: Global,
    scene: &'x Scene<'x>,
    list: &Value,
    part: Option<&'x BodyPart>,
    vars: &mut Vec<Value>,
    room: u32,
    into: &mut Vec<Rc<Widget>>,
) -> Result<u32, BuildFault>
    requires built { AreItemsBuiltIn (scene_of scene.now vars.old.items) (items_in list.now) (plain_part part) }
    requires sizes { AreSized into.old.items }
    requires sound { IsSoundScene scene.now }
    requires small { room ≤ 65536 }
    ensures added { AddsWidgets (items_output (plain_part part.entry) (scene_of scene.now vars.old.items) (items_in list.now)) room into.old.items into.new.items result }
    ensures too_large { HasCause (items_output (plain_part part.entry) (scene_of scene.now vars.old.items) (items_in list.now)) room result }
    ensures vars { OnOk result (vars.new.items ≡ vars.old.items) }
{
    let mut size = 0;
    for i in 0..item_count(list) {
        vars.push(item(list, i)?)?;
        size += add_part(alloc, scene, part, vars, room - size, into)?;
        vars.pop();
    }
    Ok(size)
}

// The same of a member of a template: what the templates give that it holds.
#[cycle(build)]
fn add_part<'x>(
    alloc: Global,
    scene: &'x Scene<'x>,
    part: Option<&'x BodyPart>,
    vars: &mut Vec<Value>,
    room: u32,
    into: &mut Vec<Rc<Widget>>,
) -> Result<u32, BuildFault>
    requires built { IsPartBuiltIn (scene_of scene.now vars.old.items) (plain_part part) }
    requires sizes { AreSized into.old.items }
    requires sound { IsSoundScene scene.now }
    requires small { room ≤ 65536 }
    ensures added { AddsWidgets (part_output (plain_part part.entry) (scene_of scene.now vars.old.items)) room into.old.items into.new.items result }
    ensures too_large { HasCause (part_output (plain_part part.entry) (scene_of scene.now vars.old.items)) room result }
    ensures vars { OnOk result (vars.new.items ≡ vars.old.items) }
{
    match templates_of(part) {
        Templates::Nothing => Ok(0),
        Templates::One(body) => add_output(alloc, scene, body, vars, room, into),
        Templates::Many(bodies) => add_bodies(alloc, scene, bodies, vars, room, into),
    }
}

// The same of templates, one after another.
#[cycle(build)]
fn add_bodies<'x>(
    alloc: Global,
    scene: &'x Scene<'x>,
    bodies: &'x [Body],
    vars: &mut Vec<Value>,
    room: u32,
    into: &mut Vec<Rc<Widget>>,
) -> Result<u32, BuildFault>
    requires built { AreAllBuiltIn (scene_of scene.now vars.old.items) (bodies_in (map plain_body bodies.now)) }
    requires sizes { AreSized into.old.items }
    requires sound { IsSoundScene scene.now }
    requires small { room ≤ 65536 }
    ensures added { AddsWidgets (outputs_of (bodies_in (map plain_body bodies.now)) (scene_of scene.now vars.old.items)) room into.old.items into.new.items result }
    ensures too_large { HasCause (outputs_of (bodies_in (map plain_body bodies.now)) (scene_of scene.now vars.old.items)) room result }
    ensures vars { OnOk result (vars.new.items ≡ vars.old.items) }
{
    let mut size = 0;
    for body in bodies {
        size += add_output(alloc, scene, body, vars, room - size, into)?;
    }
    Ok(size)
}
