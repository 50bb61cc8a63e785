// Elements: each call of their tree where it succeeds, and what it refuses.
ghost use Rattle.std.specs.Prelude.{◌≡◌, ◌∷◌, ◌++◌, [], None, IfOk, OnOk, List, map};
ghost use Rattle.fx_expr.specs.declared.values.Ty.{Ty};
ghost use Rattle.fx_expr.specs.declared.values.Ty.TheVariants as ty;
ghost use Rattle.fx_expr.specs.Value.{type_of};
ghost use Rattle.widget_model.specs.View.{shared, look_in};
ghost use Rattle.node_tree.specs.Plan.{PlanEntry};
ghost use Rattle.element_tree.specs.Renewal.{Renewal as RenewalOf};
ghost use Rattle.element_tree.specs.Fields.{declared, AreDeclared};

use crate::compare::expect;
use crate::trees::last_of;
use element_tree::{ElementTree, Renewal, SetFault};
use fx_expr::{IntList, TextList, Txt, Ty, Value, ValueList};
use fx_handles::Handle;
use node_tree::PlanEntry;
use std::alloc::{AllocError, Global};
use std::process::Abort;
use std::rc::Rc;
use std::test::Fail;
use widget_keys::Key;
use widget_model::{Decl, FieldList, Kind, NameList, Widget, WidgetList};

pub(crate) fn shared(alloc: Global, kind: Kind) -> Result<Rc<Widget>, AllocError>
    ensures { IfOk result (λ r. r.value.kind ≡ kind) }
{
    let widget = Widget::new(kind, Key::None, WidgetList::of(Vec::new(alloc)));
    Ok(Rc::new(alloc, widget)?)
}

// A clip without a child, and a lazy list without children.
fn clip(alloc: Global) -> Result<Rc<Widget>, AllocError>
    ensures { IfOk result (λ r. AreDeclared (shared r) []) }
{
    shared(alloc, Kind::ClipRect)
}

fn lazy(alloc: Global) -> Result<Rc<Widget>, AllocError>
    ensures { IfOk result (λ r. AreDeclared (shared r) []) }
{
    shared(alloc, Kind::SliverLazy { extent: 10 })
}

fn name(alloc: Global, text: &str) -> Result<Txt, AllocError> {
    Ok(Txt::of(String::from_str(alloc, text)?))
}

// Two fields: n of numbers, and l of lists of them.
fn two_fields(alloc: Global) -> Result<FieldList, AllocError>
    ensures { IfOk result (λ fs. map (λ (f : List _ × Ty). f.1) fs ≡ ty.Int ∷ ty.Ints ∷ []) }
{
    let n = name(alloc, "n")?;
    let l = name(alloc, "l")?;
    let mut fields = Vec::new(alloc);
    fields.push((n, Ty::Int))?;
    fields.push((l, Ty::Ints))?;
    Ok(FieldList::of(fields))
}

// A component with these fields.
fn counter(alloc: Global) -> Result<Rc<Widget>, AllocError>
    ensures { IfOk result (λ r. map (λ (f : List _ × Ty). f.1) (declared (look_in r.value.kind)) ≡ ty.Int ∷ ty.Ints ∷ []) }
{
    let fields = two_fields(alloc)?;
    let decl = Decl {
        name: name(alloc, "Counter")?,
        fields,
        inherited: NameList::of(Vec::new(alloc)),
    };
    let kind = Kind::Use {
        component: 0,
        props: ValueList::of(Vec::new(alloc)),
        slots: WidgetList::of(Vec::new(alloc)),
        decl: Rc::new(alloc, decl)?,
    };
    shared(alloc, kind)
}

// A number, and a list without items.
fn values(alloc: Global, n: i64) -> Result<Vec<Value>, AllocError>
    ensures { IfOk result (λ vs. map type_of vs.items ≡ ty.Int ∷ ty.Ints ∷ []) }
{
    let mut values = Vec::new(alloc);
    values.push(Value::Int(n))?;
    values.push(Value::Ints(IntList::of(Vec::new(alloc))))?;
    Ok(values)
}

fn add_root(
    rt: &impl Abort,
    tree: &mut ElementTree,
    w: Rc<Widget>,
    fields: Vec<Value>,
) -> Result<Handle, Fail>
    requires { AreDeclared (shared w) fields.items }
{
    assert!(rt; tree.root().is_none());
    Ok(tree.insert(None, 0, w, fields)?)
}

// A clip as the first child of a live element, and a counter.
fn add_clip(
    rt: &impl Abort,
    alloc: Global,
    tree: &mut ElementTree,
    parent: Handle,
) -> Result<Handle, Fail> {
    assert!(rt; tree.tree().contains(parent));
    let w = clip(alloc)?;
    Ok(tree.insert(Some(parent), 0, w, Vec::new(alloc))?)
}

fn add_counter(
    rt: &impl Abort,
    alloc: Global,
    tree: &mut ElementTree,
    parent: Handle,
) -> Result<Handle, Fail> {
    assert!(rt; tree.tree().contains(parent));
    let w = counter(alloc)?;
    let fields = values(alloc, 4)?;
    Ok(tree.insert(Some(parent), 0, w, fields)?)
}

// The numbers of an element's children, as the digits of a number.
fn numbers(tree: &ElementTree, h: Handle) -> u64 {
    let mut numbers: u64 = 0;
    for child in tree.children(h) {
        numbers = numbers
            .wrapping_mul(10)
            .wrapping_add(tree.number(*child).unwrap_or(0));
    }
    numbers
}

fn move_first(
    rt: &impl Abort,
    tree: &mut ElementTree,
    h: Handle,
    parent: Handle,
) -> Result<(), Fail> {
    assert!(rt; tree.tree().contains(h));
    assert!(rt; tree.tree().contains(parent));
    assert!(rt; tree.parent(h).is_some());
    assert!(rt; !tree.tree().is_within(parent, h));
    tree.move_to(h, parent, 0)?;
    Ok(())
}

fn detach(rt: &impl Abort, tree: &mut ElementTree, h: Handle) -> Result<(), Fail> {
    assert!(rt; tree.tree().contains(h));
    assert!(rt; tree.tree().inactive().is_empty());
    tree.detach(h)?;
    Ok(())
}

// An update of an element that is no more, which changes nothing.
fn update_dead(tree: &mut ElementTree, h: Handle, w: Rc<Widget>) -> bool {
    if tree.tree().contains(h) {
        return false;
    }
    tree.update(h, w);
    true
}

// The handle of an element that is no more doesn't reach the one that has its slot now.
fn check_dead(
    rt: &impl Abort,
    alloc: Global,
    tree: &mut ElementTree,
    dead: Handle,
    h: Handle,
) -> Result<(), Fail> {
    expect(rt, dead.index, h.index);
    tree.clear_dirty(h);
    tree.mark_dirty(dead);
    expect(rt, update_dead(tree, dead, lazy(alloc)?), true);
    expect(rt, tree.remove(dead), 0);
    expect(rt, tree.number(dead), None);
    expect(rt, tree.is_dirty(dead), false);
    expect(rt, tree.is_dirty(h), false);
    expect(rt, tree.number(h), Some(4));
    Ok(())
}

// 1 over 2 and 3; 3 goes below 2, is taken out and dropped, and its number isn't given again.
fn move_elements(rt: &impl Abort, alloc: Global, tree: &mut ElementTree) -> Result<(), Fail> {
    let root = add_root(rt, tree, clip(alloc)?, Vec::new(alloc))?;
    let second = add_clip(rt, alloc, tree, root)?;
    let third = add_clip(rt, alloc, tree, root)?;
    expect(rt, numbers(tree, root), 32);
    expect(rt, tree.find(3), Some(third));
    move_first(rt, tree, third, second)?;
    expect(rt, numbers(tree, second), 3);
    expect(rt, tree.parent(third), Some(second));
    detach(rt, tree, third)?;
    expect(rt, tree.parent(third), None);
    expect(rt, tree.drop_inactive(), 1);
    expect(rt, tree.find(3), None);
    let fourth = add_clip(rt, alloc, tree, second)?;
    check_dead(rt, alloc, tree, third, fourth)?;
    expect(rt, tree.remove(second), 2);
    expect(rt, tree.find(4), None);
    expect(rt, tree.find(1), tree.root());
    Ok(())
}

#[test]
fn elements_move(rt: HostRuntime) -> Result<(), Fail> {
    move_elements(&rt, rt.alloc(), &mut ElementTree::new(rt.alloc()))
}

// Whether a field of the element with a number was set, as 0, or what refused it.
fn set(tree: &mut ElementTree, number: u64, field: &str, value: Value) -> u64 {
    match tree.set_field(number, field, value) {
        Ok(()) => 0,
        Err(SetFault::NoNode) => 6,
        Err(SetFault::NotStateful) => 7,
        Err(SetFault::NoField) => 8,
        Err(SetFault::WrongType) => 9,
    }
}

fn set_fields(rt: &impl Abort, alloc: Global, tree: &mut ElementTree) -> Result<(), Fail> {
    let root = add_root(rt, tree, clip(alloc)?, Vec::new(alloc))?;
    let h = add_counter(rt, alloc, tree, root)?;
    tree.clear_dirty(h);
    expect(rt, set(tree, 3, "n", Value::Int(5)), 6);
    expect(rt, set(tree, 1, "n", Value::Int(5)), 7);
    expect(rt, set(tree, 2, "x", Value::Int(5)), 8);
    expect(rt, set(tree, 2, "n", Value::Bool(true)), 9);
    expect(rt, tree.is_dirty(h), false);
    expect(rt, set(tree, 2, "n", Value::Int(5)), 0);
    let none = TextList::of(Vec::new(alloc));
    expect(rt, set(tree, 2, "l", Value::Texts(none)), 0);
    expect(rt, tree.is_dirty(h), true);
    let now = [Value::Int(5), Value::Ints(IntList::of(Vec::new(alloc)))];
    expect(rt, tree.fields(h), now.as_slice());
    expect(rt, tree.set_fields(h, Vec::new(alloc)), false);
    expect(rt, tree.set_fields(h, values(alloc, 8)?), true);
    expect(rt, set(tree, 2, "n", Value::Int(8)), 0);
    expect(rt, tree.fields(root).is_empty(), true);
    Ok(())
}

#[test]
fn fields_are_set(rt: HostRuntime) -> Result<(), Fail> {
    set_fields(&rt, rt.alloc(), &mut ElementTree::new(rt.alloc()))
}

// Gives an element the widget that it has once more, and stores it as what its body gave.
fn update(tree: &mut ElementTree, h: Handle) -> Result<(), Fail> {
    let Some(widget) = tree.widget(h) else {
        return Err("no element".into());
    };
    let same = Rc::clone(widget)?;
    let output = Rc::clone(widget)?;
    tree.update(h, same);
    tree.set_output(h, output);
    Ok(())
}

fn set_parts(rt: &impl Abort, alloc: Global, tree: &mut ElementTree) -> Result<(), Fail> {
    let root = add_root(rt, tree, lazy(alloc)?, Vec::new(alloc))?;
    let item = add_clip(rt, alloc, tree, root)?;
    expect(rt, tree.index(root), None);
    expect(rt, tree.index(item), Some(0));
    tree.set_index(item, 7);
    tree.set_index(root, 7);
    expect(rt, tree.index(item), Some(7));
    expect(rt, tree.place(root), Some(0));
    expect(rt, tree.output(item).is_none(), true);
    update(tree, item)?;
    expect(rt, tree.output(item).is_some(), true);
    expect(rt, tree.render(item), None);
    tree.set_render(item, Some(root));
    expect(rt, tree.render(item), Some(root));
    tree.clear_dirty(item);
    expect(rt, tree.is_dirty(item), false);
    tree.mark_dirty(item);
    expect(rt, tree.is_dirty(item), true);
    Ok(())
}

#[test]
fn parts_are_set(rt: HostRuntime) -> Result<(), Fail> {
    set_parts(&rt, rt.alloc(), &mut ElementTree::new(rt.alloc()))
}

// Makes the last inactive top the root.
fn attach_root(rt: &impl Abort, tree: &mut ElementTree) -> Result<(), Fail> {
    assert!(rt; tree.root().is_none());
    match last_of(tree.tree().inactive()) {
        Some(top) => {
            tree.attach(top, None, 0)?;
            Ok(())
        }
        None => Err("no top waits".into()),
    }
}

// A loose element becomes the root, and a spent tree answers that there is no memory.
fn bring_in(rt: &impl Abort, alloc: Global, tree: &mut ElementTree) -> Result<(), Fail> {
    let h = tree.insert_loose(clip(alloc)?, Vec::new(alloc))?;
    expect(rt, tree.root(), None);
    attach_root(rt, tree)?;
    expect(rt, tree.root(), Some(h));
    tree.spend();
    let refused = tree.insert_loose(clip(alloc)?, Vec::new(alloc));
    expect(rt, refused.is_err(), true);
    expect(rt, tree.find(1), Some(h));
    Ok(())
}

#[test]
fn a_loose_element_becomes_the_root(rt: HostRuntime) -> Result<(), Fail> {
    bring_in(&rt, rt.alloc(), &mut ElementTree::new(rt.alloc()))
}

// Adds an entry for an element at the top, without children.
fn push_alone(
    alloc: Global,
    plan: &mut Vec<PlanEntry<Renewal>>,
    h: Handle,
    update: Renewal,
) -> Result<(), AllocError>
    ensures { OnOk result ((e : PlanEntry RenewalOf) × (e.at ≡ h) × (e.parent ≡ None) × (e.children ≡ []) × (e.update ≡ update)
        × (plan.new.items ≡ plan.old.items ++ e ∷ [])) }
{
    plan.push(PlanEntry::new(h, None, Vec::new(alloc), update))?;
    Ok(())
}

// Makes one element the whole tree, with the widget that it has.
fn commit_alone(alloc: Global, tree: &mut ElementTree, h: Handle) -> Result<(), Fail> {
    if !tree.tree().contains(h) {
        return Ok(());
    }
    let Some(widget) = tree.widget(h) else {
        return Ok(());
    };
    let renewal = Renewal {
        widget: Rc::clone(widget)?,
        index: 3,
        output: None,
        render: Some(h),
    };
    let mut plan = Vec::new(alloc);
    push_alone(alloc, &mut plan, h, renewal)?;
    tree.commit(Some(h), &mut plan)?;
    Ok(())
}

// The second element is all that is left: it keeps its number and its fields.
fn leave_one(rt: &impl Abort, alloc: Global, tree: &mut ElementTree) -> Result<(), Fail> {
    let root = add_root(rt, tree, clip(alloc)?, Vec::new(alloc))?;
    let h = add_counter(rt, alloc, tree, root)?;
    commit_alone(alloc, tree, h)?;
    expect(rt, tree.root(), Some(h));
    expect(rt, tree.find(1), None);
    expect(rt, tree.find(2), Some(h));
    expect(rt, tree.fields(h).len(), 2);
    expect(rt, tree.place(h), Some(3));
    expect(rt, tree.render(h), Some(h));
    expect(rt, tree.is_dirty(h), false);
    Ok(())
}

#[test]
fn a_plan_becomes_the_elements(rt: HostRuntime) -> Result<(), Fail> {
    leave_one(&rt, rt.alloc(), &mut ElementTree::new(rt.alloc()))
}
