ghost use Rattle.std.specs.Prelude.{◌≡◌, ◌≢◌, ◌⊎◌, ℕ, ◌+◌, ◌<◌, ◌≤◌, ◌↔◌, List, [], ◌∷◌, ◌++◌, length, insert, Option, Some, None, IsSome, IsTrue, IfSome, IfNone, IfOk, IfErr, OnErr, option_map, vec_len, vec_capacity};
ghost use Rattle.std.specs.Option.{option_copied_mut};
ghost use Rattle.std.specs.Borrow.{sem};
ghost use Rattle.fx_handles.specs.declared.TheConstants.{SLOTS_MAX};
ghost use Rattle.fx_handles.specs.Handle.{times, Among};
ghost use Rattle.fx_handles.specs.Arena.{get, IsLive, Inserts, used_count, retired_count, with_value};
ghost use Rattle.node_tree.specs.Forest.{TreeNode as NodeOf, others_than, without_child};
ghost use Rattle.node_tree.specs.Tree.{parent_of, children_of};
ghost use Rattle.node_tree.specs.Edits.{Reorders, WritesValue};
ghost use Rattle.node_tree.specs.Lends.{lends_value};
ghost use Rattle.fx_handles.specs.declared.Handle.{Handle};

use fx_handles::{Arena, Handle, InsertFault};
use std::alloc::Global;
use std::marker::Model;
use std::mem;

// What is stored at a handle.
#[derive(Drop)]
pub(crate) struct TreeNode<T> {
    pub(crate) parent: Option<Handle>,
    pub(crate) children: Vec<Handle>,
    pub(crate) value: T,
}

impl<T> Model for TreeNode<T> {
    ghost use Rattle.node_tree.specs.Forest.{TreeNode as NodeOf};
    ghost use Rattle.node_tree.specs.Tree.{node_code};

    ghost Value = { NodeOf T };

    ghost coded = { node_code T.code };

    ghost view = { λ n. record { parent = n.parent; children = n.children.items; value = n.value } };
}

// The node's parent.
pub(crate) fn parent_in<T>(nodes: &Arena<TreeNode<T>>, h: Handle) -> Option<Handle>
    ensures { result ≡ parent_of (get nodes.now h) }
{
    nodes.get(h)?.parent
}

// The node's children.
pub(crate) fn children_in<T>(nodes: &Arena<TreeNode<T>>, h: Handle) -> &[Handle]
    ensures { result.now ≡ children_of (get nodes.now h) }
{
    match nodes.get(h) {
        Some(node) => node.children.as_slice(),
        None => &[],
    }
}

// The value at the handle for writing.
pub(crate) fn node_value_mut<T>(nodes: &mut Arena<TreeNode<T>>, h: Handle) -> Option<&mut T>
    ensures* writes_back { sem 𝓛 (lends_value T.row nodes.entry h result) }
    ensures value { option_copied_mut result ≡ option_map (λ n. n.value) (get nodes.old h) }
{
    match nodes.get_mut(h) {
        Some(node) => Some(&mut node.value),
        None => None,
    }
}

// Exchanges the value of a live node.
pub(crate) fn replace_value<T>(nodes: &mut Arena<TreeNode<T>>, h: Handle, value: T) -> T
    requires { IsLive nodes.old h }
    ensures old { option_map (λ n. n.value) (get nodes.old h) ≡ Some result }
    ensures writes { WritesValue nodes.old nodes.new h value }
{
    match node_value_mut(nodes, h) {
        Some(old) => mem::replace(old, value),
        None => unreachable!(),
    }
}

// Exchanges the list of children of p with another list.
pub(crate) fn swap_children<T>(nodes: &mut Arena<TreeNode<T>>, p: Handle, list: &mut Vec<Handle>)
    requires { IsLive nodes.old p }
    ensures nodes { (n : NodeOf T) → get nodes.old p ≡ Some n
        → nodes.new ≡ with_value nodes.old p (record n { children = list.old.items }) }
    ensures list { (n : NodeOf T) → get nodes.old p ≡ Some n → list.new.items ≡ n.children }
{
    if let Some(node) = nodes.get_mut(p) {
        mem::swap(&mut node.children, list);
    }
}

// Gives a live node these children.
pub(crate) fn put_children<T>(nodes: &mut Arena<TreeNode<T>>, p: Handle, children: Vec<Handle>)
    requires { IsLive nodes.old p }
    ensures { Reorders nodes.old nodes.new p children.items }
{
    if let Some(node) = nodes.get_mut(p) {
        node.children = children;
    }
}

// Whether two handles are one.
pub(crate) fn is_same(h: Handle, k: Handle) -> bool
    ensures { IsTrue result ↔ (h ≡ k) }
{
    h == k
}

// The last handle of a list.
pub(crate) fn last_of(list: &[Handle]) -> Option<Handle>
    ensures among { IfSome result (λ h. Among h list.now) }
    ensures last { IfSome result (λ h. (front : List Handle) × (list.now ≡ front ++ h ∷ [])) }
    ensures empty { IfNone result (list.now ≡ []) }
{
    list.last().copied()
}

// Takes h out of a list.
pub(crate) fn drop_from(list: &mut Vec<Handle>, h: Handle)
    ensures items { list.new.items ≡ others_than h list.old.items }
    ensures len { vec_len list.new ≤ vec_len list.old }
    ensures capacity { vec_capacity list.new ≡ vec_capacity list.old }
{
    list.retain(|k| *k != h)
}

// Whether h is the last handle of a list.
fn is_last(list: &[Handle], h: Handle) -> bool
    ensures { IsTrue result → (front : List Handle) × (list.now ≡ front ++ h ∷ []) }
{
    match last_of(list) {
        Some(last) => is_same(last, h),
        None => false,
    }
}

// Takes h out of a list in which it stands at most once; at the end of the list at once.
pub(crate) fn drop_once(list: &mut Vec<Handle>, h: Handle)
    requires { times h list.old.items ≤ 1 }
    ensures { list.new.items ≡ others_than h list.old.items }
{
    if is_last(list.as_slice(), h) {
        let end = list.len() - 1;
        list.truncate(end);
    } else {
        drop_from(list, h);
    }
}

// Puts h into a list that has room.
pub(crate) fn put(list: &mut Vec<Handle>, at: usize, h: Handle)
    requires place { at ≤ length list.old.items }
    requires room { vec_len list.old < vec_capacity list.old }
    ensures { list.new.items ≡ insert list.old.items at h }
{
    if list.insert(at, h).is_err() {
        unreachable!()
    }
}

// Takes h out of the list of children of p, where p is live and has it at most once.
pub(crate) fn unlink<T>(nodes: &mut Arena<TreeNode<T>>, p: Handle, h: Handle)
    requires { (n : NodeOf T) → get nodes.old p ≡ Some n → times h n.children ≤ 1 }
    ensures unlinks { (n : NodeOf T) → get nodes.old p ≡ Some n
        → nodes.new ≡ with_value nodes.old p (without_child h n) }
    ensures absent { get nodes.old p ≡ None → nodes.new ≡ nodes.old }
{
    if let Some(node) = nodes.get_mut(p) {
        drop_once(&mut node.children, h);
    }
}

// Gives a live node another parent.
pub(crate) fn set_parent<T>(nodes: &mut Arena<TreeNode<T>>, h: Handle, parent: Option<Handle>)
    ensures sets { (n : NodeOf T) → get nodes.old h ≡ Some n
        → nodes.new ≡ with_value nodes.old h (record n { parent = parent }) }
    ensures absent { get nodes.old h ≡ None → nodes.new ≡ nodes.old }
{
    if let Some(node) = nodes.get_mut(h) {
        node.parent = parent;
    }
}

// A new node without children, in no list.
pub(crate) fn insert_node<T>(
    nodes: &mut Arena<TreeNode<T>>,
    alloc: Global,
    parent: Option<Handle>,
    value: T,
) -> Result<Handle, InsertFault<T>>
    ensures inserts { IfOk result
        (λ h. Inserts nodes.old nodes.new h (record { parent = parent; children = []; value = value })) }
    ensures full { (result ≡ Err (InsertFault.Full value))
        ↔ (SLOTS_MAX ≤ used_count nodes.old + retired_count nodes.old) }
    ensures faults { IfErr result
        (λ e. (e ≡ InsertFault.Full value) ⊎ (e ≡ InsertFault.OutOfMemory value)) }
    ensures err { OnErr result (nodes.new ≡ nodes.old) }
{
    let children = Vec::new(alloc);
    match nodes.insert(TreeNode {
        parent,
        children,
        value,
    }) {
        Ok(h) => Ok(h),
        Err(InsertFault::Full(node)) => Err(InsertFault::Full(value_of(node))),
        Err(InsertFault::OutOfMemory(node)) => Err(InsertFault::OutOfMemory(value_of(node))),
    }
}

// The value of a node that is let go.
pub(crate) fn value_of<T>(node: TreeNode<T>) -> T
    ensures { result ≡ node.value }
{
    let TreeNode {
        parent: _,
        children: _,
        value,
    } = node;
    value
}
