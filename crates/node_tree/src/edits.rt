ghost use Rattle.std.specs.Prelude.{◌≡◌, ◌≢◌, ◌⊎◌, ℕ, ◌+◌, ◌<◌, ◌≤◌, ◌↔◌, [], ◌∷◌, ◌++◌, length, insert, Option, Some, None, IsSome, IsTrue, IsOk, IfOk, IfErr, OnOk, OnErr, option_map, vec_len, vec_capacity};
ghost use Rattle.fx_handles.specs.declared.TheConstants.{SLOTS_MAX};
ghost use Rattle.fx_handles.specs.Handle.{times};
ghost use Rattle.fx_handles.specs.Arena.{get, IsLive, Inserts, used_count, retired_count, with_value};
ghost use Rattle.node_tree.specs.Forest.{TreeNode as NodeOf, others_than, without_child};
ghost use Rattle.node_tree.specs.Tree.{parent_of, children_of};
ghost use Rattle.node_tree.specs.Edits.{KeepsHandles, HasOneParent, Adds, Takes, Hooks, Lifts, inactive_without, root_without, root_with, root_lifted};

use crate::nodes::{
    TreeNode, drop_from, drop_once, insert_node, is_same, parent_in, put, set_parent,
    swap_children, unlink, value_of,
};
use fx_handles::{Arena, Handle, InsertFault};
use std::alloc::{AllocError, Global};

// A new node, which stands in this list of its parent's children, or of tops.
fn insert_into<T>(
    nodes: &mut Arena<TreeNode<T>>,
    alloc: Global,
    list: &mut Vec<Handle>,
    parent: Option<Handle>,
    at: usize,
    value: T,
) -> Result<Handle, InsertFault<T>>
    requires { at ≤ length list.old.items }
    ensures inserts { IfOk result
        (λ h. Inserts nodes.old nodes.new h (record { parent = parent; children = []; value = value })) }
    ensures list { IfOk result (λ h. list.new.items ≡ insert list.old.items at h) }
    ensures full { (result ≡ Err (InsertFault.Full value))
        ↔ (SLOTS_MAX ≤ used_count nodes.old + retired_count nodes.old) }
    ensures faults { IfErr result
        (λ e. (e ≡ InsertFault.Full value) ⊎ (e ≡ InsertFault.OutOfMemory value)) }
    ensures err { OnErr result ((nodes.new ≡ nodes.old) × (list.new.items ≡ list.old.items)) }
{
    if nodes.is_full() {
        return Err(InsertFault::Full(value));
    }
    if list.reserve(1).is_err() {
        return Err(InsertFault::OutOfMemory(value));
    }
    let node = insert_node(nodes, alloc, parent, value)?;
    put(list, at, node);
    Ok(node)
}

// A new node, which is child number `at` of p.
fn insert_below<T>(
    nodes: &mut Arena<TreeNode<T>>,
    alloc: Global,
    p: Handle,
    at: usize,
    value: T,
) -> Result<Handle, InsertFault<T>>
    requires live { IsLive nodes.old p }
    requires place { at ≤ length (children_of (get nodes.old p)) }
    ensures adds { IfOk result (λ h. Adds nodes.old nodes.new (Some p) at h value) }
    ensures full { (result ≡ Err (InsertFault.Full value))
        ↔ (SLOTS_MAX ≤ used_count nodes.old + retired_count nodes.old) }
    ensures faults { IfErr result
        (λ e. (e ≡ InsertFault.Full value) ⊎ (e ≡ InsertFault.OutOfMemory value)) }
    ensures err { OnErr result (nodes.new ≡ nodes.old) }
{
    let mut list = Vec::new(alloc);
    swap_children(nodes, p, &mut list);
    let inserted = insert_into(nodes, alloc, &mut list, Some(p), at, value);
    swap_children(nodes, p, &mut list);
    inserted
}

// A new node, which becomes the root.
fn insert_root<T>(
    nodes: &mut Arena<TreeNode<T>>,
    alloc: Global,
    root: &mut Option<Handle>,
    value: T,
) -> Result<Handle, InsertFault<T>>
    ensures adds { IfOk result (λ h. Adds nodes.old nodes.new None 0 h value) }
    ensures root { IfOk result (λ h. root.new ≡ Some h) }
    ensures full { (result ≡ Err (InsertFault.Full value))
        ↔ (SLOTS_MAX ≤ used_count nodes.old + retired_count nodes.old) }
    ensures faults { IfErr result
        (λ e. (e ≡ InsertFault.Full value) ⊎ (e ≡ InsertFault.OutOfMemory value)) }
    ensures err { OnErr result ((nodes.new ≡ nodes.old) × (root.new ≡ root.old)) }
{
    let top = insert_node(nodes, alloc, None, value)?;
    *root = Some(top);
    Ok(top)
}

// A new node, which is child number `at` of its parent, or becomes the root.
pub(crate) fn insert_at<T>(
    nodes: &mut Arena<TreeNode<T>>,
    alloc: Global,
    root: &mut Option<Handle>,
    parent: Option<Handle>,
    at: usize,
    value: T,
) -> Result<Handle, InsertFault<T>>
    requires live { (p : Handle) → parent ≡ Some p → IsLive nodes.old p }
    requires place { (p : Handle) → parent ≡ Some p → at ≤ length (children_of (get nodes.old p)) }
    ensures adds { IfOk result (λ h. Adds nodes.old nodes.new parent at h value) }
    ensures root { IfOk result (λ h. root.new ≡ root_with parent h root.old) }
    ensures full { (result ≡ Err (InsertFault.Full value))
        ↔ (SLOTS_MAX ≤ used_count nodes.old + retired_count nodes.old) }
    ensures faults { IfErr result
        (λ e. (e ≡ InsertFault.Full value) ⊎ (e ≡ InsertFault.OutOfMemory value)) }
    ensures err { OnErr result ((nodes.new ≡ nodes.old) × (root.new ≡ root.old)) }
{
    match parent {
        Some(p) => insert_below(nodes, alloc, p, at, value),
        None => insert_root(nodes, alloc, root, value),
    }
}

// A new node, which is the last of the inactive tops.
pub(crate) fn insert_last<T>(
    nodes: &mut Arena<TreeNode<T>>,
    alloc: Global,
    inactive: &mut Vec<Handle>,
    value: T,
) -> Result<Handle, InsertFault<T>>
    ensures adds { IfOk result (λ h. Adds nodes.old nodes.new None 0 h value) }
    ensures inactive { IfOk result (λ h. inactive.new.items ≡ inactive.old.items ++ h ∷ []) }
    ensures full { (result ≡ Err (InsertFault.Full value))
        ↔ (SLOTS_MAX ≤ used_count nodes.old + retired_count nodes.old) }
    ensures faults { IfErr result
        (λ e. (e ≡ InsertFault.Full value) ⊎ (e ≡ InsertFault.OutOfMemory value)) }
    ensures err { OnErr result ((nodes.new ≡ nodes.old) × (inactive.new.items ≡ inactive.old.items)) }
{
    let end = inactive.len();
    insert_into(nodes, alloc, inactive, None, end, value)
}

// Takes a node out of its parent's list of children, or out of the inactive tops.
fn unhook<T>(nodes: &mut Arena<TreeNode<T>>, inactive: &mut Vec<Handle>, h: Handle)
    requires { HasOneParent nodes.old h }
    ensures nodes { (k : Handle) → get nodes.new k ≡ option_map (without_child h) (get nodes.old k) }
    ensures handles { KeepsHandles nodes.old nodes.new }
    ensures inactive { inactive.new.items
        ≡ inactive_without (parent_of (get nodes.old h)) h inactive.old.items }
{
    match parent_in(nodes, h) {
        Some(from) => unlink(nodes, from, h),
        None => drop_from(inactive, h),
    }
}

// Puts a node into the list of its new parent p, which is held apart from the nodes, and takes it out of
// where it was.
fn rehook<T>(
    nodes: &mut Arena<TreeNode<T>>,
    inactive: &mut Vec<Handle>,
    list: &mut Vec<Handle>,
    h: Handle,
    p: Handle,
    at: usize,
) -> Result<(), AllocError>
    requires live { IsLive nodes.old h }
    requires one { HasOneParent nodes.old h }
    requires place { at ≤ length (others_than h list.old.items) }
    ensures nodes { OnOk result (Lifts nodes.old nodes.new h (Some p)) }
    ensures list { OnOk result (list.new.items ≡ insert (others_than h list.old.items) at h) }
    ensures inactive { OnOk result (inactive.new.items
        ≡ inactive_without (parent_of (get nodes.old h)) h inactive.old.items) }
    ensures err { OnErr result ((nodes.new ≡ nodes.old) × (list.new.items ≡ list.old.items)
        × (inactive.new.items ≡ inactive.old.items)) }
    ensures err_nodes { OnErr result (nodes.new ≡ nodes.old) }
{
    list.reserve(1)?;
    drop_from(list, h);
    put(list, at, h);
    unhook(nodes, inactive, h);
    set_parent(nodes, h, Some(p));
    Ok(())
}

// Makes a node child number `at` of p, wherever it was.
pub(crate) fn place_below<T>(
    nodes: &mut Arena<TreeNode<T>>,
    alloc: Global,
    inactive: &mut Vec<Handle>,
    h: Handle,
    p: Handle,
    at: usize,
) -> Result<(), AllocError>
    requires live { IsLive nodes.old h }
    requires parent { IsLive nodes.old p }
    requires apart { h ≢ p }
    requires one { HasOneParent nodes.old h }
    requires place { at ≤ length (others_than h (children_of (get nodes.old p))) }
    ensures hooks { OnOk result (Hooks nodes.old nodes.new h (Some p) at) }
    ensures inactive { OnOk result (inactive.new.items
        ≡ inactive_without (parent_of (get nodes.old h)) h inactive.old.items) }
    ensures err { OnErr result ((nodes.new ≡ nodes.old) × (inactive.new.items ≡ inactive.old.items)) }
{
    let mut list = Vec::new(alloc);
    swap_children(nodes, p, &mut list);
    let placed = rehook(nodes, inactive, &mut list, h, p, at);
    swap_children(nodes, p, &mut list);
    placed
}

// Takes a node out of its parent's list of children, or out of the root's place, and leaves it without a
// parent.
fn lift<T>(nodes: &mut Arena<TreeNode<T>>, root: &mut Option<Handle>, h: Handle)
    requires live { IsLive nodes.old h }
    requires one { HasOneParent nodes.old h }
    ensures nodes { Lifts nodes.old nodes.new h None }
    ensures root { root.new ≡ root_lifted (parent_of (get nodes.old h)) root.old }
{
    match parent_in(nodes, h) {
        Some(from) => {
            unlink(nodes, from, h);
            set_parent(nodes, h, None);
        }
        None => *root = None,
    }
}

// Puts a node that has a parent, or is the root, last among the inactive tops.
pub(crate) fn detach_node<T>(
    nodes: &mut Arena<TreeNode<T>>,
    root: &mut Option<Handle>,
    inactive: &mut Vec<Handle>,
    h: Handle,
) -> Result<(), AllocError>
    requires live { IsLive nodes.old h }
    requires one { HasOneParent nodes.old h }
    ensures nodes { OnOk result (Lifts nodes.old nodes.new h None) }
    ensures root { OnOk result (root.new ≡ root_lifted (parent_of (get nodes.old h)) root.old) }
    ensures inactive { OnOk result (inactive.new.items ≡ inactive.old.items ++ h ∷ []) }
    ensures err { OnErr result ((nodes.new ≡ nodes.old) × (root.new ≡ root.old)
        × (inactive.new.items ≡ inactive.old.items)) }
{
    inactive.push(h)?;
    lift(nodes, root, h);
    Ok(())
}

// Makes an inactive top the root.
fn attach_root(
    root: &mut Option<Handle>,
    inactive: &mut Vec<Handle>,
    h: Handle,
) -> Result<(), AllocError>
    ensures ok { IsOk result }
    ensures root { root.new ≡ Some h }
    ensures inactive { inactive.new.items ≡ others_than h inactive.old.items }
{
    *root = Some(h);
    drop_from(inactive, h);
    Ok(())
}

// Makes an inactive top child number `at` of its new parent, or the root.
pub(crate) fn attach_at<T>(
    nodes: &mut Arena<TreeNode<T>>,
    alloc: Global,
    root: &mut Option<Handle>,
    inactive: &mut Vec<Handle>,
    h: Handle,
    parent: Option<Handle>,
    at: usize,
) -> Result<(), AllocError>
    requires live { IsLive nodes.old h }
    requires top { parent_of (get nodes.old h) ≡ None }
    requires one { HasOneParent nodes.old h }
    requires parent { (p : Handle) → parent ≡ Some p → IsLive nodes.old p }
    requires apart { (p : Handle) → parent ≡ Some p → h ≢ p }
    requires place { (p : Handle) → parent ≡ Some p
        → at ≤ length (others_than h (children_of (get nodes.old p))) }
    ensures hooks { OnOk result (Hooks nodes.old nodes.new h parent at) }
    ensures root { OnOk result (root.new ≡ root_with parent h root.old) }
    ensures inactive { OnOk result (inactive.new.items ≡ others_than h inactive.old.items) }
    ensures err { OnErr result ((nodes.new ≡ nodes.old) × (root.new ≡ root.old)
        × (inactive.new.items ≡ inactive.old.items)) }
{
    match parent {
        Some(p) => place_below(nodes, alloc, inactive, h, p, at),
        None => attach_root(root, inactive, h),
    }
}

// Whether h is the root.
fn is_root(root: Option<Handle>, h: Handle) -> bool
    ensures { IsTrue result ↔ (root ≡ Some h) }
{
    match root {
        Some(top) => is_same(top, h),
        None => false,
    }
}

// Takes a top out of the root's place, or out of the inactive tops.
fn drop_top(root: &mut Option<Handle>, inactive: &mut Vec<Handle>, h: Handle)
    requires root { root.old ≡ Some h → times h inactive.old.items ≡ 0 }
    requires once { times h inactive.old.items ≤ 1 }
    ensures root { root.new ≡ root_without h root.old }
    ensures inactive { inactive.new.items ≡ others_than h inactive.old.items }
{
    if is_root(*root, h) {
        *root = None;
    } else {
        drop_once(inactive, h);
    }
}

// Takes a handle that is dead by now out of its parent's list, or out of the tops.
fn unlist<T>(
    nodes: &mut Arena<TreeNode<T>>,
    root: &mut Option<Handle>,
    inactive: &mut Vec<Handle>,
    parent: Option<Handle>,
    h: Handle,
)
    requires root { root.old ≡ Some h → times h inactive.old.items ≡ 0 }
    requires top { times h inactive.old.items ≤ 1 }
    requires child { (p : Handle) (n : NodeOf T) → parent ≡ Some p → get nodes.old p ≡ Some n
        → times h n.children ≤ 1 }
    ensures unlinks { (p : Handle) (n : NodeOf T) → parent ≡ Some p → get nodes.old p ≡ Some n
        → nodes.new ≡ with_value nodes.old p (without_child h n) }
    ensures dead { (p : Handle) → parent ≡ Some p → get nodes.old p ≡ None → nodes.new ≡ nodes.old }
    ensures nodes { parent ≡ None → nodes.new ≡ nodes.old }
    ensures top { parent ≡ None → (root.new ≡ root_without h root.old)
        × (inactive.new.items ≡ others_than h inactive.old.items) }
    ensures child { (p : Handle) → parent ≡ Some p
        → (root.new ≡ root.old) × (inactive.new.items ≡ inactive.old.items) }
{
    match parent {
        Some(p) => unlink(nodes, p, h),
        None => drop_top(root, inactive, h),
    }
}

// Takes a node without children away.
pub(crate) fn take_node<T>(
    nodes: &mut Arena<TreeNode<T>>,
    root: &mut Option<Handle>,
    inactive: &mut Vec<Handle>,
    h: Handle,
) -> T
    requires live { IsLive nodes.old h }
    requires one { HasOneParent nodes.old h }
    requires root { root.old ≡ Some h → times h inactive.old.items ≡ 0 }
    requires once { times h inactive.old.items ≤ 1 }
    ensures takes { Takes nodes.old nodes.new h result }
    ensures top { parent_of (get nodes.old h) ≡ None → (root.new ≡ root_without h root.old)
        × (inactive.new.items ≡ others_than h inactive.old.items) }
    ensures child { (p : Handle) → parent_of (get nodes.old h) ≡ Some p
        → (root.new ≡ root.old) × (inactive.new.items ≡ inactive.old.items) }
{
    let parent = parent_in(nodes, h);
    let Some(node) = nodes.remove(h) else {
        unreachable!()
    };
    unlist(nodes, root, inactive, parent, h);
    value_of(node)
}

// A new node with room for so many children, in no list.
fn roomy_node<T: Drop>(
    nodes: &mut Arena<TreeNode<T>>,
    alloc: Global,
    parent: Option<Handle>,
    room: usize,
    value: T,
) -> Result<Handle, AllocError>
    requires { used_count nodes.old + retired_count nodes.old < SLOTS_MAX }
    ensures inserts { IfOk result
        (λ h. Inserts nodes.old nodes.new h (record { parent = parent; children = []; value = value })) }
    ensures err { OnErr result (nodes.new ≡ nodes.old) }
{
    let children = Vec::with_capacity(alloc, room)?;
    nodes.add(TreeNode {
        parent,
        children,
        value,
    })
}

// The same, where the node stands last in this list of its parent's children.
fn mount_into<T: Drop>(
    nodes: &mut Arena<TreeNode<T>>,
    alloc: Global,
    list: &mut Vec<Handle>,
    parent: Option<Handle>,
    room: usize,
    value: T,
) -> Result<Handle, AllocError>
    requires { used_count nodes.old + retired_count nodes.old < SLOTS_MAX }
    ensures inserts { IfOk result
        (λ h. Inserts nodes.old nodes.new h (record { parent = parent; children = []; value = value })) }
    ensures list { IfOk result (λ h. list.new.items ≡ insert list.old.items (length list.old.items) h) }
    ensures err { OnErr result ((nodes.new ≡ nodes.old) × (list.new.items ≡ list.old.items)) }
{
    list.reserve(1)?;
    let node = roomy_node(nodes, alloc, parent, room, value)?;
    let end = list.len();
    put(list, end, node);
    Ok(node)
}

// A new node, which is the last child of p.
fn mount_below<T: Drop>(
    nodes: &mut Arena<TreeNode<T>>,
    alloc: Global,
    p: Handle,
    room: usize,
    value: T,
) -> Result<Handle, AllocError>
    requires live { IsLive nodes.old p }
    requires room { used_count nodes.old + retired_count nodes.old < SLOTS_MAX }
    ensures adds { IfOk result
        (λ h. Adds nodes.old nodes.new (Some p) (length (children_of (get nodes.old p))) h value) }
    ensures err { OnErr result (nodes.new ≡ nodes.old) }
{
    let mut list = Vec::new(alloc);
    swap_children(nodes, p, &mut list);
    let mounted = mount_into(nodes, alloc, &mut list, Some(p), room, value);
    swap_children(nodes, p, &mut list);
    mounted
}

// A new node, which becomes the root.
fn mount_root<T: Drop>(
    nodes: &mut Arena<TreeNode<T>>,
    alloc: Global,
    root: &mut Option<Handle>,
    room: usize,
    value: T,
) -> Result<Handle, AllocError>
    requires { used_count nodes.old + retired_count nodes.old < SLOTS_MAX }
    ensures adds { IfOk result (λ h. Adds nodes.old nodes.new None 0 h value) }
    ensures root { IfOk result (λ h. root.new ≡ Some h) }
    ensures err { OnErr result ((nodes.new ≡ nodes.old) × (root.new ≡ root.old)) }
{
    let top = roomy_node(nodes, alloc, None, room, value)?;
    *root = Some(top);
    Ok(top)
}

// A new node, which is the last child of its parent, or becomes the root.
pub(crate) fn mount_at<T: Drop>(
    nodes: &mut Arena<TreeNode<T>>,
    alloc: Global,
    root: &mut Option<Handle>,
    parent: Option<Handle>,
    room: usize,
    value: T,
) -> Result<Handle, AllocError>
    requires live { (p : Handle) → parent ≡ Some p → IsLive nodes.old p }
    requires room { used_count nodes.old + retired_count nodes.old < SLOTS_MAX }
    ensures below { (p : Handle) → parent ≡ Some p → IfOk result
        (λ h. Adds nodes.old nodes.new (Some p) (length (children_of (get nodes.old p))) h value) }
    ensures top { parent ≡ None → IfOk result (λ h. Adds nodes.old nodes.new None 0 h value) }
    ensures root { IfOk result (λ h. root.new ≡ root_with parent h root.old) }
    ensures err { OnErr result ((nodes.new ≡ nodes.old) × (root.new ≡ root.old)) }
{
    match parent {
        Some(p) => mount_below(nodes, alloc, p, room, value),
        None => mount_root(nodes, alloc, root, room, value),
    }
}
