// Whether a build can have a lazy list: only where a template of the program makes one, or the root has one.
ghost use Rattle.std.specs.Prelude.{◌≡◌, ◌↔◌, IsTrue, false, map};
ghost use Rattle.std.specs.List.{All};
ghost use Rattle.program_check.specs.Body.{members_in, bodies_in};
ghost use Rattle.program_check.specs.BodyView.{plain_body, plain_body_part, plain_members};
ghost use Rattle.program_check.specs.CheckedView.{plain_component, plain_checked};
ghost use Rattle.widget_model.specs.Plain.{widgets_of};
ghost use Rattle.widget_model.specs.View.{look_in, slots_in, plain_of, shared};
ghost use Rattle.versioned_kinds.specs.Lists.{IsNoList, IsNoListKind, is_list_kind, HasNoListBodies, WidgetHasNoLists};
ghost use Rattle.versioned_kinds.specs.Templates.{BodyKindsMeet, BodyMembersMeet, BodyPartMeets, BodiesMeet};
ghost use Rattle.versioned_kinds.specs.Widgets.{AllLooksMeet};
ghost use Rattle.first_builds.specs.Listless.{IsListlessComponent};

use program_check::{Body, BodyPart, Checked, CheckedComponent};
use program_form::KindName;
use std::rc::Rc;
use widget_model::{Kind, Widget};

// Whether a kind of templates is that of a lazy list.
fn is_list_kind(kind: KindName) -> bool
    ensures { result ≡ is_list_kind kind }
{
    match kind {
        KindName::SliverLazy => true,
        _ => false,
    }
}

// Whether a template has no lazy list in it.
#[cycle(templates)]
fn is_listless_body(body: &Body) -> bool
    ensures { IsTrue result ↔ BodyKindsMeet IsNoListKind (plain_body body.now) }
{
    if is_list_kind(body.w) {
        return false;
    }
    are_listless_members(body.members.as_slice())
}

// Whether none of a template's members has one.
#[cycle(templates)]
fn are_listless_members(members: &[Option<Box<BodyPart>>]) -> bool
    ensures { IsTrue result ↔ BodyMembersMeet IsNoListKind (members_in (plain_members members.now)) }
{
    for member in members {
        if let Some(part) = member {
            if !is_listless_part(part) {
                return false;
            }
        }
    }
    true
}

// Whether a member has none.
#[cycle(templates)]
fn is_listless_part(part: &BodyPart) -> bool
    ensures { IsTrue result ↔ BodyPartMeets IsNoListKind (plain_body_part part.now) }
{
    match part {
        BodyPart::Child(body) => is_listless_body(body),
        BodyPart::Children(bodies) => are_listless_bodies(bodies.as_slice()),
        BodyPart::Slots(bodies) => are_listless_bodies(bodies.as_slice()),
        BodyPart::Expression(_)
        | BodyPart::Word(_)
        | BodyPart::Name(_)
        | BodyPart::Handler(_)
        | BodyPart::Props(_) => true,
    }
}

// Whether no template of a list has one.
#[cycle(templates)]
fn are_listless_bodies(bodies: &[Body]) -> bool
    ensures { IsTrue result ↔ BodiesMeet IsNoListKind (bodies_in (map plain_body bodies.now)) }
{
    for body in bodies {
        if !is_listless_body(body) {
            return false;
        }
    }
    true
}

// Whether no component's body has one.
fn are_listless_components(components: &[CheckedComponent]) -> bool
    ensures { IsTrue result ↔ All IsListlessComponent (map plain_component components.now) }
{
    for component in components {
        if !is_listless_body(&component.body) {
            return false;
        }
    }
    true
}

// Whether a widget has no lazy list in it.
#[cycle(widgets)]
fn is_listless(widget: &Widget) -> bool
    ensures { IsTrue result ↔ WidgetHasNoLists (plain_of widget.now) }
{
    if !is_listless_kind(&widget.kind) {
        return false;
    }
    are_listless(widget.children.get())
}

// Whether a kind is no lazy list and has none in its slots.
#[cycle(widgets)]
fn is_listless_kind(kind: &Kind) -> bool
    ensures { IsTrue result ↔ (IsNoList (look_in kind.now) × AllLooksMeet IsNoList (widgets_of (slots_in kind.now))) }
{
    match kind {
        Kind::SliverLazy { .. } => false,
        Kind::Use { slots, .. } => are_listless(slots.get()),
        _ => true,
    }
}

// Whether no widget of a list has one in it.
#[cycle(widgets)]
fn are_listless(widgets: &[Rc<Widget>]) -> bool
    ensures { IsTrue result ↔ AllLooksMeet IsNoList (widgets_of (map shared widgets.now)) }
{
    for widget in widgets {
        if !is_listless(widget) {
            return false;
        }
    }
    true
}

/// Whether no build of a root can have a lazy list: neither the root has one in it, nor the body of a component.
pub fn has_no_lists(checked: &Checked, root: &Widget) -> bool
    ensures { IsTrue result ↔ (HasNoListBodies (plain_checked checked.now) × WidgetHasNoLists (plain_of root.now)) }
{
    if !are_listless_components(checked.parts().components.as_slice()) {
        return false;
    }
    is_listless(root)
}
