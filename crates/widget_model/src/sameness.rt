// Whether two widgets are the same in every part (`identical` of two descriptions, read as values).
ghost use Rattle.std.specs.Prelude.{◌≡◌, ◌↔◌, ◌<◌, ◌+◌, IsTrue, length, get_or, map};
ghost use Rattle.widget_model.specs.Parts.{parts_in, IsSameHead, AgreeBut};
ghost use Rattle.widget_model.specs.View.{plain_of, shared, slots_in};

use crate::looks::same_look;
use crate::types::same_key;
use crate::widgets::{Kind, Widget};
use std::rc::Rc;

/// Whether two widgets are the same: in kind, members, key, the contents of slots, children and all that is in these.
/// It takes no memory, and no more steps than the smaller widget has parts. It goes along the heaviest parts in a loop,
/// so no more calls stand in one another than the first one's size has binary digits. How many widgets each says that it
/// is isn't compared.
#[cycle(sameness)]
pub fn same(a: &Widget, b: &Widget) -> bool
    ensures { IsTrue result ↔ (plain_of a.now ≡ plain_of b.now) }
{
    let mut left = a;
    let mut right = b;
    loop {
        if !same_head(left, right) {
            return false;
        }
        if part_count(left) == 0 {
            return true;
        }
        let heaviest = heaviest_part(left);
        if !same_but(left, right, heaviest) {
            return false;
        }
        left = part(left, heaviest);
        right = part(right, heaviest);
    }
}

// Whether two widgets with as many parts have the same parts, but for the one at a place.
#[cycle(sameness)]
fn same_but(a: &Widget, b: &Widget, place: usize) -> bool
    requires { length (parts_in a.now) ≡ length (parts_in b.now) }
    ensures { IsTrue result ↔ AgreeBut place (parts_in a.now) (parts_in b.now) }
{
    for i in 0..part_count(a) {
        if i == place {
            continue;
        }
        if !same(part(a, i), part(b, i)) {
            return false;
        }
    }
    true
}

// Whether two widgets are the same in all but their parts, of which they have as many in slots and as children.
fn same_head(a: &Widget, b: &Widget) -> bool
    ensures { IsTrue result ↔ IsSameHead a.now b.now }
{
    if !same_key(&a.key, &b.key) {
        return false;
    }
    if !same_look(&a.kind, &b.kind) {
        return false;
    }
    if slots(&a.kind).len() != slots(&b.kind).len() {
        return false;
    }
    a.children.get().len() == b.children.get().len()
}

// How many widgets stand right in a widget: in its slots, and as its children.
fn part_count(widget: &Widget) -> usize
    ensures { result ≡ length (parts_in widget.now) }
{
    slots(&widget.kind).len() + widget.children.get().len()
}

// The widget at a place right in a widget: first the contents of the slots, then the children.
fn part(widget: &Widget, place: usize) -> &Widget
    requires { place < length (parts_in widget.now) }
    ensures { plain_of result.now ≡ get_or (parts_in widget.now) place (plain_of result.now) }
{
    let slots = slots(&widget.kind);
    if place < slots.len() {
        &slots[place]
    } else {
        &widget.children.get()[place - slots.len()]
    }
}

// The place of the first of the largest widgets right in a widget.
fn heaviest_part(widget: &Widget) -> usize
    requires { 0 < length (parts_in widget.now) }
    ensures { result < length (parts_in widget.now) }
{
    let mut heaviest = 0;
    for i in 1..part_count(widget) {
        if part(widget, i).size > part(widget, heaviest).size {
            heaviest = i;
        }
    }
    heaviest
}

// What is in a kind's slots.
fn slots(kind: &Kind) -> &[Rc<Widget>]
    ensures { map shared result.now ≡ slots_in kind.now }
{
    match kind {
        Kind::Use { slots, .. } => slots.get(),
        _ => &[],
    }
}
