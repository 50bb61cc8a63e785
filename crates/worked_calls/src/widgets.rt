// Whether two widgets are the same, which no build asks, and of one type, which a build asks with their keys.
ghost use Rattle.std.specs.Prelude.{IfOk, OnOk};
ghost use Rattle.widget_model.specs.Sized.{IsSized, AreSized};

use crate::compare::expect;
use fx_expr::{Txt, Ty, Value, ValueList};
use std::alloc::{AllocError, Global};
use std::process::Abort;
use std::rc::Rc;
use std::test::Fail;
use widget_keys::Key;
use widget_model::{Decl, FieldList, Kind, NameList, Widget, WidgetList, same, same_type};

// A widget of a kind, shared.
fn shared(
    alloc: Global,
    kind: Kind,
    key: Key<Value>,
    children: WidgetList,
) -> Result<Rc<Widget>, AllocError>
    ensures { IfOk result (λ r. IsSized r.value) }
{
    Ok(Rc::new(alloc, Widget::new(kind, key, children))?)
}

fn no_widgets(alloc: Global) -> WidgetList {
    WidgetList::of(Vec::new(alloc))
}

// A list of one widget.
fn one(alloc: Global, widget: Rc<Widget>) -> Result<WidgetList, AllocError>
    requires { IsSized widget.value }
{
    let mut items = Vec::new(alloc);
    items.push(widget)?;
    Ok(WidgetList::of(items))
}

// A box of a width with a key and no child.
fn sized(alloc: Global, width: u64, key: Key<Value>) -> Result<Rc<Widget>, AllocError>
    ensures { IfOk result (λ r. IsSized r.value) }
{
    let kind = Kind::SizedBox {
        width: Some(width),
        height: None,
    };
    shared(alloc, kind, key, no_widgets(alloc))
}

fn name(alloc: Global, text: &str) -> Result<Txt, AllocError> {
    Ok(Txt::of(String::from_str(alloc, text)?))
}

// A list of one field.
fn one_field(alloc: Global, field: Ty) -> Result<FieldList, AllocError> {
    let name = name(alloc, "n")?;
    let mut fields = Vec::new(alloc);
    fields.push((name, field))?;
    Ok(FieldList::of(fields))
}

// What a component with one field declares.
fn decl(alloc: Global, field: Ty) -> Result<Decl, AllocError> {
    let name = name(alloc, "Counter")?;
    Ok(Decl {
        fields: one_field(alloc, field)?,
        name,
        inherited: NameList::of(Vec::new(alloc)),
    })
}

fn shared_decl(alloc: Global, field: Ty) -> Result<Rc<Decl>, AllocError> {
    Ok(Rc::new(alloc, decl(alloc, field)?)?)
}

// A list of one number.
fn one_prop(alloc: Global, prop: i64) -> Result<ValueList, AllocError> {
    let mut props = Vec::new(alloc);
    props.push(Value::Int(prop))?;
    Ok(ValueList::of(props))
}

// The content of one slot: a clip that holds a box of a width.
fn one_slot(alloc: Global, width: u64) -> Result<WidgetList, AllocError> {
    let content = one(alloc, sized(alloc, width, Key::None)?)?;
    one(alloc, shared(alloc, Kind::ClipRect, Key::None, content)?)
}

// What a component is given: a prop and the content of a slot.
#[derive(Drop)]
struct Given {
    props: ValueList,
    slots: WidgetList,
}

fn prop_and_slot(alloc: Global, prop: i64, width: u64) -> Result<Given, AllocError> {
    let props = one_prop(alloc, prop)?;
    Ok(Given {
        slots: one_slot(alloc, width)?,
        props,
    })
}

fn used(alloc: Global, given: Given, decl: Rc<Decl>) -> Result<Rc<Widget>, AllocError> {
    let Given { props, slots } = given;
    let kind = Kind::Use {
        component: 0,
        props,
        slots,
        decl,
    };
    shared(alloc, kind, Key::None, no_widgets(alloc))
}

// A use of a component with a prop and one slot, in which a clip holds a box of a width.
fn component(alloc: Global, prop: i64, field: Ty, width: u64) -> Result<Rc<Widget>, AllocError> {
    let decl = shared_decl(alloc, field)?;
    used(alloc, prop_and_slot(alloc, prop, width)?, decl)
}

// A provider of a value.
fn provider(alloc: Global, value: i64) -> Result<Rc<Widget>, AllocError> {
    let child = one(alloc, sized(alloc, 1, Key::None)?)?;
    let kind = Kind::Inherit {
        name: 0,
        value: Value::Int(value),
    };
    shared(alloc, kind, Key::None, child)
}

// Compares a component with another one.
fn check_component(
    rt: &impl Abort,
    alloc: Global,
    used: &Widget,
    given: (i64, Ty, u64),
    is_same: bool,
) -> Result<(), Fail> {
    let (prop, field, width) = given;
    let other = component(alloc, prop, field, width)?;
    expect(rt, same(used, &other), is_same);
    Ok(())
}

// Components that differ in a prop, in the type of a field, and in what is in a slot.
fn check_components(rt: &impl Abort, alloc: Global, used: &Widget) -> Result<(), Fail> {
    check_component(rt, alloc, used, (1, Ty::Int, 1), true)?;
    check_component(rt, alloc, used, (2, Ty::Int, 1), false)?;
    check_component(rt, alloc, used, (1, Ty::Bool, 1), false)?;
    check_component(rt, alloc, used, (1, Ty::Int, 2), false)
}

#[test]
fn tells_components_apart(rt: HostRuntime) -> Result<(), Fail> {
    let used = component(rt.alloc(), 1, Ty::Int, 1)?;
    expect(&rt, used.size, 3);
    check_components(&rt, rt.alloc(), &used)
}

// Compares a provider with another one.
fn check_provider(
    rt: &impl Abort,
    alloc: Global,
    provides: &Widget,
    value: i64,
    is_same: bool,
) -> Result<(), Fail> {
    let other = provider(alloc, value)?;
    expect(rt, same(provides, &other), is_same);
    Ok(())
}

#[test]
fn tells_providers_apart(rt: HostRuntime) -> Result<(), Fail> {
    let provides = provider(rt.alloc(), 1)?;
    expect(&rt, provides.size, 2);
    check_provider(&rt, rt.alloc(), &provides, 1, true)?;
    check_provider(&rt, rt.alloc(), &provides, 2, false)
}

#[test]
fn tells_keys_apart(rt: HostRuntime) -> Result<(), Fail> {
    let keyed = sized(rt.alloc(), 1, Key::Local(Value::Int(1)))?;
    let plain = sized(rt.alloc(), 1, Key::None)?;
    expect(&rt, same(&keyed, &plain), false);
    Ok(())
}

#[test]
fn a_key_is_no_part_of_a_type(rt: HostRuntime) -> Result<(), Fail> {
    let local = sized(rt.alloc(), 2, Key::Local(Value::Int(1)))?;
    let global = sized(rt.alloc(), 2, Key::Global(Value::Int(1)))?;
    expect(&rt, same_type(&local, &global), true);
    Ok(())
}

// Adds a box.
fn push_box(alloc: Global, items: &mut Vec<Rc<Widget>>) -> Result<(), AllocError>
    requires { AreSized items.old.items }
    ensures { OnOk result (AreSized items.new.items) }
{
    items.push(sized(alloc, 1, Key::None)?)?;
    Ok(())
}

// A clip with a widget, and so many boxes after it.
fn clip(alloc: Global, first: Rc<Widget>, boxes: u8) -> Result<Rc<Widget>, AllocError>
    requires { IsSized first.value }
    ensures { IfOk result (λ r. IsSized r.value) }
{
    let mut items = Vec::new(alloc);
    items.push(first)?;
    for _ in 0..boxes {
        push_box(alloc, &mut items)?;
    }
    shared(alloc, Kind::ClipRect, Key::None, WidgetList::of(items))
}

// So many clips round a widget, each in the next, with so many boxes in each.
fn chain(alloc: Global, first: Rc<Widget>, clips: u32, boxes: u8) -> Result<Rc<Widget>, AllocError>
    requires { IsSized first.value }
    ensures { IfOk result (λ r. IsSized r.value) }
{
    let mut link = first;
    for _ in 0..clips {
        link = clip(alloc, link, boxes)?;
    }
    Ok(link)
}

// A chain of 65,536 widgets, each but the last with one child.
fn long_chain(alloc: Global) -> Result<Rc<Widget>, AllocError> {
    chain(alloc, sized(alloc, 1, Key::None)?, 65_535, 0)
}

// A tree of 65,536 widgets, 512 deep: 256 in the lowest clip, and 128 more in each of the others.
fn deep_tree(alloc: Global) -> Result<Rc<Widget>, AllocError> {
    let lowest = clip(alloc, sized(alloc, 1, Key::None)?, 254)?;
    chain(alloc, lowest, 510, 127)
}

#[test]
fn long_chains_are_compared_and_dropped(rt: HostRuntime) -> Result<(), Fail> {
    let link = long_chain(rt.alloc())?;
    expect(&rt, link.size, 65536);
    let copy = long_chain(rt.alloc())?;
    expect(&rt, same(&link, &copy), true);
    Ok(())
}

#[test]
fn deep_trees_are_compared_and_dropped(rt: HostRuntime) -> Result<(), Fail> {
    let tree = deep_tree(rt.alloc())?;
    expect(&rt, tree.size, 65536);
    let copy = deep_tree(rt.alloc())?;
    expect(&rt, same(&tree, &copy), true);
    Ok(())
}
