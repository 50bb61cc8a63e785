// The members of a template that hold others: the first of them, the branch of an `if`, and the items of an `each`.
ghost use Rattle.std.specs.Prelude.{◌≡◌, ◌<◌, ◌≤◌, IfOk, length, slice_get, Some};
ghost use Rattle.program_check.specs.Body.{body_depth, members_in_body, part_at};
ghost use Rattle.program_check.specs.BodyView.{plain_body, plain_body_part};
ghost use Rattle.template_build.specs.declared.roles.TemplateRole.TheVariants as gives;
ghost use Rattle.template_build.specs.Building.{plain_part, part_output, depth_in, holds, holder_in, IsPartBuiltIn};
ghost use Rattle.template_build.specs.TemplatesView.{templates_output, templates_depth, AreTemplatesBuiltIn};
ghost use Rattle.template_build.specs.Scene.{Scene as PlainScene};
ghost use Rattle.template_build.specs.Members.{value_or_zero};
ghost use Rattle.template_build.specs.Output.{items_in, output_of};
ghost use Rattle.template_build.specs.TemplateRole.{template_role_of};
ghost use Rattle.template_build.specs.SceneView.{scene_of};
ghost use Rattle.template_build.specs.Suits.{IsBuiltIn};

use crate::members::Members;
use crate::scenes::Scene;
use fx_expr::Value;
use program_check::{Body, BodyPart};
use std::alloc::{AllocError, Global};

// The templates that a member holds.
pub(crate) enum Templates<'a> {
    Nothing,
    One(&'a Body),
    Many(&'a [Body]),
}

// Those of a member, where it is given.
#[tactic(auto, unfolding(crate::specs::Output::output_of))]
pub(crate) fn templates_of(part: Option<&BodyPart>) -> Templates<'_>
    ensures output { (s : PlainScene) → part_output (plain_part part.entry) s ≡ templates_output result s }
    ensures built { (s : PlainScene) → IsPartBuiltIn s (plain_part part.entry) → AreTemplatesBuiltIn s result }
    ensures depth { templates_depth result ≤ depth_in (plain_part part.entry) }
{
    match part {
        None => Templates::Nothing,
        Some(part) => match part {
            BodyPart::Child(body) => Templates::One(body),
            BodyPart::Children(bodies) => Templates::Many(bodies.as_slice()),
            BodyPart::Slots(bodies) => Templates::Many(bodies.as_slice()),
            BodyPart::Expression(_) => Templates::Nothing,
            BodyPart::Word(_) => Templates::Nothing,
            BodyPart::Name(_) => Templates::Nothing,
            BodyPart::Handler(_) => Templates::Nothing,
            BodyPart::Props(_) => Templates::Nothing,
        },
    }
}

// Whether a member holds templates.
fn holds(part: &BodyPart) -> bool
    ensures { result ≡ holds (plain_body_part part.now) }
{
    match part {
        BodyPart::Child(_) | BodyPart::Children(_) | BodyPart::Slots(_) => true,
        BodyPart::Expression(_)
        | BodyPart::Word(_)
        | BodyPart::Name(_)
        | BodyPart::Handler(_)
        | BodyPart::Props(_) => false,
    }
}

// The first member that holds templates.
pub(crate) fn holder(body: &Body) -> Option<&BodyPart>
    ensures part { plain_part result ≡ holder_in (members_in_body (plain_body body.now)) }
    ensures depth { depth_in (plain_part result) < body_depth (plain_body body.now) }
{
    for i in 0..body.members.len() {
        match body.part(i) {
            Some(part) => {
                if holds(part) {
                    return Some(part);
                }
            }
            None => {}
        }
    }
    None
}

// The place of the branch that an `if` takes.
pub(crate) fn branch(
    alloc: Global,
    scene: &Scene<'_>,
    body: &Body,
    vars: &[Value],
) -> Result<usize, AllocError>
    requires built { IsBuiltIn (scene_of scene.now vars.now) (plain_body body.now) }
    requires role { template_role_of body.now.w ≡ gives.Choice }
    ensures output { IfOk result (λ i. output_of (plain_body body.now) (scene_of scene.now vars.now) ≡ part_output (part_at (members_in_body (plain_body body.now)) i) (scene_of scene.now vars.now)) }
    ensures built { IfOk result (λ i. IsPartBuiltIn (scene_of scene.now vars.now) (part_at (members_in_body (plain_body body.now)) i)) }
{
    let members = Members { scene, vars, body };
    if members.flag_or(alloc, false, 0)? {
        Ok(1)
    } else {
        Ok(2)
    }
}

// The list over whose items an `each` goes.
pub(crate) fn loop_list(
    alloc: Global,
    scene: &Scene<'_>,
    body: &Body,
    vars: &[Value],
) -> Result<Value, AllocError>
    requires { IsBuiltIn (scene_of scene.now vars.now) (plain_body body.now) }
    ensures { IfOk result (λ v. v ≡ value_or_zero (members_in_body (plain_body body.now)) 1 (scene_of scene.now vars.now)) }
{
    let members = Members { scene, vars, body };
    members.value_or_zero(alloc, 1)
}

// How many items a list has; none where it isn't one.
pub(crate) fn item_count(list: &Value) -> usize
    ensures { result ≡ length (items_in list.now) }
{
    match list {
        Value::Ints(numbers) => numbers.get().len(),
        Value::Texts(texts) => texts.get().len(),
        Value::Int(_) | Value::Bool(_) | Value::Text(_) => 0,
    }
}

// The item at a place of a list.
pub(crate) fn item(list: &Value, place: usize) -> Result<Value, AllocError>
    requires { place < length (items_in list.now) }
    ensures { IfOk result (λ v. slice_get (items_in list.now) place ≡ Some v) }
{
    match list {
        Value::Ints(numbers) => Ok(Value::Int(numbers.get()[place])),
        Value::Texts(texts) => Ok(Value::Text(texts.get()[place].clone()?)),
        Value::Int(_) | Value::Bool(_) | Value::Text(_) => unreachable!(),
    }
}
