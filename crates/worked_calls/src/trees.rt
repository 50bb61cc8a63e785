ghost use Rattle.std.specs.Prelude.{◌≡◌, ◌↔◌, ◌++◌, ◌∷◌, [], None, IsTrue, IfSome, IfOk, OnOk};
ghost use Rattle.fx_handles.specs.Handle.{Among};
ghost use Rattle.node_tree.specs.Plan.{PlanEntry};

use crate::compare::expect;
use fx_handles::Handle;
use node_tree::{PlanEntry, Tree, Update};
use std::alloc::{AllocError, Global};
use std::process::Abort;
use std::test::Fail;

#[derive(Clone, Copy, Debug, PartialEq, Eq)]
struct Item {
    key: u64,
    state: u64,
}

// Changes the key, and leaves the state alone.
#[derive(Drop)]
struct SetKey(u64);

impl Update<Item> for SetKey {
    ghost updated = { λ u v. record v { key = u.0 } };

    fn apply(self, value: &mut Item) {
        value.key = self.0;
    }
}

// A root with this key.
fn add_root(rt: &impl Abort, tree: &mut Tree<Item>, key: u64) -> Result<Handle, Fail> {
    assert!(rt; tree.root().is_none());
    Ok(tree.insert(None, 0, Item { key, state: 50 })?)
}

// A node with this key as the first child of a live node.
fn add(rt: &impl Abort, tree: &mut Tree<Item>, parent: Handle, key: u64) -> Result<Handle, Fail> {
    assert!(rt; tree.contains(parent));
    Ok(tree.insert(Some(parent), 0, Item { key, state: 50 })?)
}

// Makes a node the first child of another one.
fn move_first(
    rt: &impl Abort,
    tree: &mut Tree<Item>,
    h: Handle,
    parent: Handle,
) -> Result<(), Fail> {
    assert!(rt; tree.contains(h));
    assert!(rt; tree.contains(parent));
    assert!(rt; tree.parent(h).is_some());
    assert!(rt; !tree.is_within(parent, h));
    tree.move_to(h, parent, 0)?;
    Ok(())
}

fn detach(rt: &impl Abort, tree: &mut Tree<Item>, h: Handle) -> Result<(), Fail> {
    assert!(rt; tree.contains(h));
    assert!(rt; tree.inactive().is_empty());
    tree.detach(h)?;
    Ok(())
}

fn replace(rt: &impl Abort, tree: &mut Tree<Item>, h: Handle, item: Item) -> Item {
    assert!(rt; tree.contains(h));
    tree.replace(h, item)
}

fn key(tree: &Tree<Item>, h: Handle) -> u64 {
    match tree.value(h) {
        Some(item) => item.key,
        None => 0,
    }
}

// The keys of a node's children, as the digits of a number.
fn keys(tree: &Tree<Item>, h: Handle) -> u64 {
    let mut keys: u64 = 0;
    for child in tree.children(h) {
        keys = keys.wrapping_mul(10).wrapping_add(key(tree, *child));
    }
    keys
}

// A root with the key 1, its children 2 and 3, and 4 below 2.
#[derive(Clone, Copy)]
struct Family {
    root: Handle,
    second: Handle,
    third: Handle,
    fourth: Handle,
}

fn add_family(rt: &impl Abort, tree: &mut Tree<Item>) -> Result<Family, Fail> {
    let root = add_root(rt, tree, 1)?;
    let third = add(rt, tree, root, 3)?;
    let second = add(rt, tree, root, 2)?;
    let fourth = add(rt, tree, second, 4)?;
    Ok(Family {
        root,
        second,
        third,
        fourth,
    })
}

fn move_nodes(rt: &impl Abort, tree: &mut Tree<Item>) -> Result<(), Fail> {
    let all = add_family(rt, tree)?;
    expect(rt, keys(tree, all.root), 23);
    // In one list, and then between two.
    move_first(rt, tree, all.third, all.root)?;
    expect(rt, keys(tree, all.root), 32);
    move_first(rt, tree, all.fourth, all.third)?;
    expect(rt, keys(tree, all.second), 0);
    expect(rt, keys(tree, all.third), 4);
    check_removal(rt, tree, &all);
    Ok(())
}

// 3 goes with 4 below it, and its handle is dead from then on.
fn check_removal(rt: &impl Abort, tree: &mut Tree<Item>, all: &Family) {
    expect(rt, tree.remove(all.third), 2);
    expect(rt, tree.remove(all.third), 0);
    expect(rt, tree.contains(all.fourth), false);
    expect(rt, keys(tree, all.root), 2);
    expect(rt, tree.len(), 2);
}

#[test]
fn nodes_move(rt: HostRuntime) -> Result<(), Fail> {
    move_nodes(&rt, &mut Tree::new(rt.alloc()))
}

fn set_state(tree: &mut Tree<Item>, h: Handle, state: u64) {
    if let Some(item) = tree.value_mut(h) {
        item.state = state;
    }
}

fn write_values(rt: &impl Abort, tree: &mut Tree<Item>) -> Result<(), Fail> {
    let root = add_root(rt, tree, 1)?;
    set_state(tree, root, 7);
    let old = replace(rt, tree, root, Item { key: 5, state: 8 });
    expect(rt, old, Item { key: 1, state: 7 });
    expect(rt, key(tree, root), 5);
    expect(rt, tree.root(), Some(root));
    expect(rt, tree.is_full() || tree.is_empty(), false);
    expect(rt, tree.retired(), 0);
    Ok(())
}

#[test]
fn values_are_written(rt: HostRuntime) -> Result<(), Fail> {
    write_values(&rt, &mut Tree::new(rt.alloc()))
}

fn let_wait(rt: &impl Abort, tree: &mut Tree<Item>) -> Result<(), Fail> {
    let root = add_root(rt, tree, 1)?;
    let second = add(rt, tree, root, 2)?;
    detach(rt, tree, second)?;
    expect(rt, tree.parent(second), None);
    expect(rt, tree.inactive(), [second].as_slice());
    let loose = tree.insert_loose(Item { key: 9, state: 90 })?;
    expect(rt, tree.inactive(), [second, loose].as_slice());
    expect(rt, keys(tree, root), 0);
    expect(rt, tree.drop_inactive(), 2);
    expect(rt, tree.len(), 1);
    Ok(())
}

#[test]
fn subtrees_wait(rt: HostRuntime) -> Result<(), Fail> {
    let_wait(&rt, &mut Tree::new(rt.alloc()))
}

// Detaches the root, and makes it the root again.
fn bring_back(rt: &impl Abort, tree: &mut Tree<Item>) -> Result<(), Fail> {
    let root = add_root(rt, tree, 1)?;
    detach(rt, tree, root)?;
    expect(rt, tree.root(), None);
    attach_root(rt, tree, root)?;
    expect(rt, tree.root(), Some(root));
    expect(rt, tree.inactive().is_empty(), true);
    Ok(())
}

#[test]
fn a_root_comes_back(rt: HostRuntime) -> Result<(), Fail> {
    bring_back(&rt, &mut Tree::new(rt.alloc()))
}

// Whether two handles are one.
fn is_same(h: Handle, k: Handle) -> bool
    ensures { IsTrue result ↔ (h ≡ k) }
{
    h == k
}

// The last handle of a list.
pub(crate) fn last_of(list: &[Handle]) -> Option<Handle>
    ensures { IfSome result (λ h. Among h list.now) }
{
    list.last().copied()
}

fn attach_root(rt: &impl Abort, tree: &mut Tree<Item>, h: Handle) -> Result<(), Fail> {
    assert!(rt; tree.root().is_none());
    match last_of(tree.inactive()) {
        Some(top) => {
            expect(rt, top, h);
            tree.attach(top, None, 0)?;
            Ok(())
        }
        None => Err("no top waits".into()),
    }
}

// Makes the last inactive top the first child of a live node.
fn attach_last(rt: &impl Abort, tree: &mut Tree<Item>, parent: Handle) -> Result<(), Fail> {
    assert!(rt; tree.contains(parent));
    match last_of(tree.inactive()) {
        Some(top) => {
            assert!(rt; tree.contains(top));
            assert!(rt; !tree.is_within(parent, top));
            tree.attach(top, Some(parent), 0)?;
            Ok(())
        }
        None => Err("no top waits".into()),
    }
}

// Adds an entry for a node at the top, without children.
fn push_top<U: Drop>(
    alloc: Global,
    plan: &mut Vec<PlanEntry<U>>,
    h: Handle,
    update: U,
) -> Result<(), AllocError>
    ensures { OnOk result ((e : PlanEntry U) × (e.at ≡ h) × (e.parent ≡ None) × (e.children ≡ [])
        × (plan.new.items ≡ plan.old.items ++ e ∷ [])) }
{
    plan.push(PlanEntry::new(h, None, Vec::new(alloc), update))?;
    Ok(())
}

// A list of one node.
fn alone(alloc: Global, h: Handle) -> Result<Vec<Handle>, AllocError>
    ensures { IfOk result (λ hs. hs.items ≡ h ∷ []) }
{
    let mut list = Vec::new(alloc);
    list.push(h)?;
    Ok(list)
}

// Makes one node the whole tree, with this key.
fn commit_alone(
    rt: &impl Abort,
    alloc: Global,
    tree: &mut Tree<Item>,
    h: Handle,
    key: u64,
) -> Result<(), Fail> {
    if !tree.contains(h) {
        return Ok(());
    }
    let mut plan = Vec::new(alloc);
    push_top(alloc, &mut plan, h, SetKey(key))?;
    let mut waiting = Vec::new(alloc);
    tree.commit(Some(h), &mut waiting, &mut plan)?;
    expect(rt, plan.is_empty(), true);
    Ok(())
}

// Makes two nodes the whole tree, with this key: one is the root, the other waits.
fn commit_two(
    rt: &impl Abort,
    alloc: Global,
    tree: &mut Tree<Item>,
    root: Handle,
    waits: Handle,
    key: u64,
) -> Result<(), Fail> {
    if !tree.contains(root) {
        return Ok(());
    }
    if !tree.contains(waits) {
        return Ok(());
    }
    if is_same(root, waits) {
        return Ok(());
    }
    let mut waiting = alone(alloc, waits)?;
    let mut plan = Vec::new(alloc);
    push_top(alloc, &mut plan, root, SetKey(key))?;
    push_top(alloc, &mut plan, waits, SetKey(key))?;
    tree.commit(Some(root), &mut waiting, &mut plan)?;
    expect(rt, plan.is_empty() && waiting.is_empty(), true);
    Ok(())
}

// Makes one node a part of the tree, with this key, and leaves the others beside it.
fn commit_part_alone(
    rt: &impl Abort,
    alloc: Global,
    tree: &mut Tree<Item>,
    h: Handle,
    key: u64,
) -> Result<(), Fail> {
    if !tree.contains(h) {
        return Ok(());
    }
    let mut plan = Vec::new(alloc);
    push_top(alloc, &mut plan, h, SetKey(key))?;
    let mut waiting = Vec::new(alloc);
    tree.commit_part(Some(h), &mut waiting, &mut plan)?;
    expect(rt, plan.is_empty(), true);
    Ok(())
}

// A root with the key 1, and its child 3 with the child 2.
fn add_three(rt: &impl Abort, tree: &mut Tree<Item>) -> Result<(Handle, Handle), Fail> {
    let root = add_root(rt, tree, 1)?;
    let second = add(rt, tree, root, 2)?;
    let third = add(rt, tree, root, 3)?;
    detach(rt, tree, second)?;
    attach_last(rt, tree, third)?;
    expect(rt, keys(tree, root), 3);
    expect(rt, keys(tree, third), 2);
    Ok((root, second))
}

// The second node is all that is left: it gets another key and keeps its state.
fn leave_one(rt: &impl Abort, alloc: Global, tree: &mut Tree<Item>) -> Result<(), Fail> {
    let (root, second) = add_three(rt, tree)?;
    commit_alone(rt, alloc, tree, second, 7)?;
    expect(rt, tree.root(), Some(second));
    expect(rt, tree.parent(second), None);
    let value = tree.value(second).copied();
    expect(rt, value, Some(Item { key: 7, state: 50 }));
    expect(rt, tree.contains(root), false);
    expect(rt, tree.len(), 1);
    Ok(())
}

#[test]
fn a_plan_becomes_the_tree(rt: HostRuntime) -> Result<(), Fail> {
    leave_one(&rt, rt.alloc(), &mut Tree::new(rt.alloc()))
}

// The root and one of its children are left, and the child waits until it is hung below the root again.
fn leave_two(rt: &impl Abort, alloc: Global, tree: &mut Tree<Item>) -> Result<(), Fail> {
    let root = add_root(rt, tree, 1)?;
    let second = add(rt, tree, root, 2)?;
    let third = add(rt, tree, root, 3)?;
    commit_two(rt, alloc, tree, root, second, 7)?;
    expect(rt, tree.len(), 2);
    expect(rt, tree.contains(third), false);
    expect(rt, tree.root(), Some(root));
    expect(rt, tree.inactive(), [second].as_slice());
    expect(rt, keys(tree, root), 0);
    attach_last(rt, tree, root)?;
    expect(rt, keys(tree, root), 7);
    Ok(())
}

#[test]
fn a_top_waits_through_a_plan(rt: HostRuntime) -> Result<(), Fail> {
    leave_two(&rt, rt.alloc(), &mut Tree::new(rt.alloc()))
}

#[test]
fn entries_tell_their_parts(rt: HostRuntime) -> Result<(), Fail> {
    let at = Handle {
        index: 3,
        generation: 1,
    };
    let child = Handle {
        index: 4,
        generation: 0,
    };
    let mut children = Vec::new(rt.alloc());
    children.push(child)?;
    let entry = PlanEntry::new(at, Some(child), children, SetKey(5));
    expect(&rt, entry.at(), at);
    expect(&rt, entry.parent(), Some(child));
    expect(&rt, entry.children(), [child].as_slice());
    expect(&rt, entry.update().0, 5);
    Ok(())
}

// The middle one of three nodes becomes the root. Its child and the old root wait beside it, with their values, until they are
// dropped.
fn leave_beside(rt: &impl Abort, alloc: Global, tree: &mut Tree<Item>) -> Result<(), Fail> {
    let (root, second) = add_three(rt, tree)?;
    let Some(third) = tree.parent(second) else {
        return Err("it has a parent".into());
    };
    commit_part_alone(rt, alloc, tree, third, 7)?;
    expect(rt, tree.root(), Some(third));
    expect(rt, tree.inactive(), [second, root].as_slice());
    for (h, key) in [(third, 7), (second, 2), (root, 1)] {
        let value = tree.value(h).copied();
        expect(rt, value, Some(Item { key, state: 50 }));
        expect(rt, (tree.parent(h), tree.children(h).len()), (None, 0));
    }
    expect(rt, (tree.len(), tree.retired()), (3, 0));
    expect(rt, tree.drop_inactive(), 2);
    expect(rt, tree.len(), 1);
    Ok(())
}

#[test]
fn nodes_wait_beside_a_part(rt: HostRuntime) -> Result<(), Fail> {
    leave_beside(&rt, rt.alloc(), &mut Tree::new(rt.alloc()))
}
