// What is known of a template before it is checked: its members, and how many widgets of which sort it gives.
ghost use Rattle.std.specs.Prelude.{◌≡◌, ◌≤◌, ◌&&◌, map, option_map, IfSome, Some};
ghost use Rattle.program_check.specs.Place.{component_of, sorts_agree};
ghost use Rattle.program_check.specs.Judged.{part_at, name_of, child_of, is_each, is_certain, sort_of, sort_used, sort_found, certain, sort_in, allowed};
ghost use Rattle.program_check.specs.JudgedView.{judged_of, part_of, member_of, parts_of};
ghost use Rattle.program_check.specs.Depth.{depth_of, part_depth_of, parts_depth};
ghost use Rattle.program_check.specs.CheckedView.{signature};

use crate::checked::CheckedComponent;
use crate::places::{Amount, component_of, sorts_agree};
use fx_expr::Txt;
use program_form::{ChildSort, KindName, Part, Template};

// The member at a place of the kind's members, where it is given.
fn part_at(members: &[Option<Box<Part>>], place: usize) -> Option<&Part>
    ensures answer { option_map (λ p. part_of p.now) result ≡ part_at (parts_of members.now) place }
    ensures depth { IfSome result (λ p. part_depth_of p.now ≤ parts_depth members.now) }
{
    if place >= members.len() {
        return None;
    }
    match &members[place] {
        Some(part) => Some(part),
        None => None,
    }
}

// A name, where the part is one.
#[tactic(auto, unfolding(crate::specs::Judged::judged))]
fn name_of(part: &Part) -> Option<&Txt>
    ensures { option_map (λ n. n.now) result ≡ name_of (Some (part_of part.now)) }
{
    match part {
        Part::Name(name) => Some(name),
        _ => None,
    }
}

// The member at a place, where it is a name.
fn name_part(members: &[Option<Box<Part>>], place: usize) -> Option<&Txt>
    ensures { option_map (λ n. n.now) result ≡ name_of (part_at (parts_of members.now) place) }
{
    match part_at(members, place) {
        Some(part) => name_of(part),
        None => None,
    }
}

// A child, where the part is one.
#[tactic(auto, unfolding(crate::specs::Judged::judged))]
fn child_of(part: &Part) -> Option<&Template>
    ensures answer { option_map (λ t. judged_of t.now) result ≡ child_of (Some (part_of part.now)) }
    ensures depth { IfSome result (λ t. depth_of t.now ≤ part_depth_of part.now) }
{
    match part {
        Part::Child(child) => Some(child),
        _ => None,
    }
}

// The member at a place, where it is a child.
fn child_part(members: &[Option<Box<Part>>], place: usize) -> Option<&Template>
    ensures answer { option_map (λ t. judged_of t.now) result ≡ child_of (part_at (parts_of members.now) place) }
    ensures depth { IfSome result (λ t. depth_of t.now ≤ parts_depth members.now) }
{
    match part_at(members, place) {
        Some(part) => child_of(part),
        None => None,
    }
}

// Whether a template is certain to give one widget.
#[cycle(certain)]
pub(crate) fn is_certain(template: &Template) -> bool
    ensures { result ≡ (judged_of template.now).certain }
{
    is_certain_kind(template.w, template.members.as_slice())
}

// Whether a template of the kind, with these members, is certain to give one widget.
#[cycle(certain)]
fn is_certain_kind(kind: KindName, members: &[Option<Box<Part>>]) -> bool
    ensures { result ≡ certain kind (parts_of members.now) }
{
    match kind {
        KindName::Each => false,
        KindName::If => has_certain_branches(members),
        _ => true,
    }
}

// Whether both branches of an `if` are there and certain.
#[cycle(certain)]
fn has_certain_branches(members: &[Option<Box<Part>>]) -> bool
    ensures { result ≡ (is_certain (child_of (part_at (parts_of members.now) 1)) && is_certain (child_of (part_at (parts_of members.now) 2))) }
{
    if !has_certain(members, 1) {
        return false;
    }
    has_certain(members, 2)
}

// Whether a member is a child that is certain.
#[cycle(certain)]
fn has_certain(members: &[Option<Box<Part>>], place: usize) -> bool
    ensures { result ≡ is_certain (child_of (part_at (parts_of members.now) place)) }
{
    match child_part(members, place) {
        Some(child) => is_certain(child),
        None => false,
    }
}

// Whether a template is a box or a sliver, by the components that it can use.
#[cycle(sort)]
pub(crate) fn sort_in(template: &Template, earlier: &[CheckedComponent]) -> ChildSort
    ensures { result ≡ (judged_of template.now).sort (map signature earlier.now) }
{
    sort_of_kind(template.w, template.members.as_slice(), earlier)
}

// The sort of a member that is a child; of another there is none.
pub(crate) fn sort_in_member(member: &Option<Box<Part>>, earlier: &[CheckedComponent]) -> ChildSort
    ensures { result ≡ sort_of (map signature earlier.now) (child_of (member_of member.now)) }
{
    let Some(part) = member else {
        return ChildSort::Any;
    };
    match child_of(part) {
        Some(child) => sort_in(child, earlier),
        None => ChildSort::Any,
    }
}

// Whether a template of the kind, with these members, is a box or a sliver.
#[cycle(sort)]
fn sort_of_kind(
    kind: KindName,
    members: &[Option<Box<Part>>],
    earlier: &[CheckedComponent],
) -> ChildSort
    ensures { result ≡ sort_in kind (parts_of members.now) (map signature earlier.now) }
{
    match kind {
        KindName::SliverToBox
        | KindName::SliverPadding
        | KindName::SliverFixed
        | KindName::SliverLazy => ChildSort::Sliver,
        KindName::Inherit | KindName::Each => sort_at(members, 2, earlier),
        KindName::If => sort_at(members, 1, earlier),
        KindName::Use => sort_used(members, earlier),
        _ => ChildSort::Box,
    }
}

// Whether a template has the sort that is wanted; where any will do, its own isn't looked for.
pub(crate) fn has_sort(wanted: ChildSort, template: &Template, earlier: &[CheckedComponent]) -> bool
    ensures { result ≡ sorts_agree wanted ((judged_of template.now).sort (map signature earlier.now)) }
{
    match wanted {
        ChildSort::Any => true,
        _ => sorts_agree(wanted, sort_in(template, earlier)),
    }
}

// The sort of a child.
#[cycle(sort)]
fn sort_at(members: &[Option<Box<Part>>], place: usize, earlier: &[CheckedComponent]) -> ChildSort
    ensures { result ≡ sort_of (map signature earlier.now) (child_of (part_at (parts_of members.now) place)) }
{
    match child_part(members, place) {
        Some(child) => sort_in(child, earlier),
        None => ChildSort::Any,
    }
}

// The sort of the component that a template uses.
fn sort_used(members: &[Option<Box<Part>>], earlier: &[CheckedComponent]) -> ChildSort
    ensures { result ≡ sort_used (map signature earlier.now) (name_of (part_at (parts_of members.now) 0)) }
{
    match name_part(members, 0) {
        Some(name) => sort_named(name, earlier),
        None => ChildSort::Any,
    }
}

// The sort of the component of a name.
fn sort_named(name: &Txt, earlier: &[CheckedComponent]) -> ChildSort
    ensures { result ≡ sort_found (component_of (map signature earlier.now) name.now) }
{
    match component_of(earlier, name) {
        Some((_, component)) => component.sort,
        None => ChildSort::Any,
    }
}

// Whether a template of the kind is `each`.
fn is_each(kind: KindName) -> bool
    ensures { result ≡ is_each kind }
{
    match kind {
        KindName::Each => true,
        _ => false,
    }
}

// Whether as many widgets may come from the template.
pub(crate) fn allows(amount: Amount, template: &Template) -> bool
    ensures { result ≡ allowed amount (judged_of template.now) }
{
    match amount {
        Amount::One => is_certain(template),
        Amount::AtMostOne => !is_each(template.w),
        Amount::Any => true,
    }
}
