// Inherited values, and global keys: each call where it succeeds, and what it refuses.
ghost use Rattle.std.specs.Prelude.{◌≡◌, [], IfOk};
ghost use Rattle.widget_model.specs.View.{shared};
ghost use Rattle.element_tree.specs.Fields.{AreDeclared};

use crate::compare::expect;
use crate::elements::shared;
use element_tree::ElementTree;
use fx_expr::{Txt, Value, ValueList};
use fx_handles::Handle;
use global_keys::{Claim, Registry};
use inherited::{Providers, mark_readers};
use std::alloc::{AllocError, Global};
use std::process::Abort;
use std::rc::Rc;
use std::test::Fail;
use widget_model::{Decl, FieldList, Kind, NameList, Widget, WidgetList};

fn provider(alloc: Global, name: u32) -> Result<Rc<Widget>, AllocError>
    ensures { IfOk result (λ r. AreDeclared (shared r) []) }
{
    let value = Value::Int(1);
    shared(alloc, Kind::Inherit { name, value })
}

// What a component declares that reads one name.
fn reading(alloc: Global, name: u32) -> Result<Decl, AllocError>
    ensures { IfOk result (λ d. d.fields ≡ []) }
{
    let mut inherited = Vec::new(alloc);
    inherited.push(name)?;
    Ok(Decl {
        name: Txt::of(String::from_str(alloc, "Reader")?),
        fields: FieldList::of(Vec::new(alloc)),
        inherited: NameList::of(inherited),
    })
}

fn reader(alloc: Global, name: u32) -> Result<Rc<Widget>, AllocError>
    ensures { IfOk result (λ r. AreDeclared (shared r) []) }
{
    let kind = Kind::Use {
        component: 0,
        props: ValueList::of(Vec::new(alloc)),
        slots: WidgetList::of(Vec::new(alloc)),
        decl: Rc::new(alloc, reading(alloc, name)?)?,
    };
    shared(alloc, kind)
}

fn add_root(
    rt: &impl Abort,
    alloc: Global,
    tree: &mut ElementTree,
    w: Rc<Widget>,
) -> Result<Handle, Fail>
    requires { AreDeclared (shared w) [] }
{
    assert!(rt; tree.root().is_none());
    Ok(tree.insert(None, 0, w, Vec::new(alloc))?)
}

// An element that isn't to be built anew, as the first child of a live one.
fn add(
    rt: &impl Abort,
    alloc: Global,
    tree: &mut ElementTree,
    parent: Handle,
    w: Rc<Widget>,
) -> Result<Handle, Fail>
    requires { AreDeclared (shared w) [] }
{
    assert!(rt; tree.tree().contains(parent));
    let h = tree.insert(Some(parent), 0, w, Vec::new(alloc))?;
    tree.clear_dirty(h);
    Ok(h)
}

// A provider over a reader, over a reader of another name, and over a nearer provider over a reader.
fn mark(rt: &impl Abort, alloc: Global, tree: &mut ElementTree) -> Result<(), Fail> {
    let root = add_root(rt, alloc, tree, provider(alloc, 4)?)?;
    let first = add(rt, alloc, tree, root, reader(alloc, 4)?)?;
    let below = add(rt, alloc, tree, first, reader(alloc, 4)?)?;
    let other = add(rt, alloc, tree, root, reader(alloc, 3)?)?;
    let nearer = add(rt, alloc, tree, root, provider(alloc, 4)?)?;
    let hidden = add(rt, alloc, tree, nearer, reader(alloc, 4)?)?;
    mark_readers(tree, root, 4);
    expect(rt, tree.is_dirty(first), true);
    expect(rt, tree.is_dirty(below), true);
    expect(rt, tree.is_dirty(other), false);
    expect(rt, tree.is_dirty(nearer), false);
    expect(rt, tree.is_dirty(hidden), false);
    Ok(())
}

#[test]
fn readers_are_marked(rt: HostRuntime) -> Result<(), Fail> {
    mark(&rt, rt.alloc(), &mut ElementTree::new(rt.alloc()))
}

// The number that a name has.
fn number(values: &Providers, name: u32) -> Option<i64> {
    match values.value(name) {
        Some(Value::Int(n)) => Some(*n),
        _ => None,
    }
}

#[test]
fn the_innermost_value_counts(rt: HostRuntime) -> Result<(), Fail> {
    let mut values = Providers::new(rt.alloc());
    values.push(4, Value::Int(1))?;
    values.push(3, Value::Int(7))?;
    values.push(4, Value::Int(2))?;
    expect(&rt, number(&values, 4), Some(2));
    expect(&rt, number(&values, 3), Some(7));
    expect(&rt, values.pop(), true);
    expect(&rt, number(&values, 4), Some(1));
    expect(&rt, number(&values, 5), None);
    expect(&rt, values.pop(), true);
    expect(&rt, values.pop(), true);
    expect(&rt, values.pop(), false);
    Ok(())
}

// A key is noted, and taken in the next walk by a widget of the same type alone.
fn claim(
    rt: &impl Abort,
    tree: &ElementTree,
    keys: &mut Registry,
    w: &Widget,
    other: &Widget,
    h: Handle,
) -> Result<(), Fail> {
    let key = Value::Int(5);
    keys.begin();
    expect(rt, keys.claim(tree, &key, w), Claim::Fresh);
    keys.note(Value::Int(5), h)?;
    expect(rt, keys.claim(tree, &key, w), Claim::Repeated);
    keys.drop_dead(tree);
    keys.begin();
    expect(rt, keys.claim(tree, &key, other), Claim::Fresh);
    expect(rt, keys.claim(tree, &key, w), Claim::Taken(h));
    expect(rt, keys.claim(tree, &key, w), Claim::Repeated);
    Ok(())
}

// It is gone with its element.
fn claim_dead(rt: &impl Abort, tree: &mut ElementTree, keys: &mut Registry, w: &Widget, h: Handle) {
    expect(rt, tree.remove(h), 1);
    keys.drop_dead(tree);
    keys.begin();
    expect(rt, keys.claim(tree, &Value::Int(5), w), Claim::Fresh);
    keys.spend();
    expect(rt, keys.note(Value::Int(5), h).is_err(), true);
}

fn claim_all(
    rt: &impl Abort,
    alloc: Global,
    tree: &mut ElementTree,
    keys: &mut Registry,
) -> Result<(), Fail> {
    let w = provider(alloc, 4)?;
    let other = provider(alloc, 3)?;
    let h = add_root(rt, alloc, tree, Rc::clone(&w)?)?;
    claim(rt, tree, keys, &w, &other, h)?;
    claim_dead(rt, tree, keys, &w, h);
    Ok(())
}

#[test]
fn keys_are_claimed(rt: HostRuntime) -> Result<(), Fail> {
    let mut tree = ElementTree::new(rt.alloc());
    claim_all(&rt, rt.alloc(), &mut tree, &mut Registry::new(rt.alloc()))
}
