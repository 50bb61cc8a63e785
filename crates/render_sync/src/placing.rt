// A node for each number.
ghost use Rattle.std.specs.Prelude.{◌≡◌, ◌+◌, ◌≤◌, true, IsSome, IfOk, OnOk};
ghost use Rattle.std.specs.BTreeMap.{get};
ghost use Rattle.std.specs.Ordering.{nat_cmp};
ghost use Rattle.std.specs.Result.{is_err};
ghost use Rattle.fx_handles.specs.Arena.{used_count, retired_count, inserted_count};
ghost use Rattle.plain_tree.specs.Render.{count_of, counts_of, renders_of};
ghost use Rattle.widget_model.specs.View.{shared};
ghost use Rattle.render_tree.specs.Edits.{InsertedLoose, new_object};
ghost use Rattle.render_sync.specs.Numbering.{IsNumbering};
ghost use Rattle.render_sync.specs.Renders.{EachNumber, AllNumbers};
ghost use Rattle.render_sync.specs.Synced.{Grows};

use crate::numbering::{find, put};
use fx_handles::{Handle, SLOTS_MAX};
use node_tree::Tree;
use plain_tree::RenderNode;
use render_tree::{RenderObject, RenderTree, TreeFault};
use std::alloc::AllocError;
use std::collections::BTreeMap;
use std::rc::Rc;
use widget_model::Widget;

// Makes a node that stands nowhere yet.
fn make(tree: &mut RenderTree, number: u64, widget: &Rc<Widget>) -> Result<Handle, AllocError>
    requires { used_count tree.old.tree.nodes + retired_count tree.old.tree.nodes + 1 ≤ SLOTS_MAX }
    ensures inserted { IfOk result (λ h. InsertedLoose tree.old.tree tree.new.tree h (new_object number (shared widget.now))) }
    ensures refused { tree.old.spent ≡ true → is_err result ≡ true }
    ensures spent { tree.new.spent ≡ tree.old.spent }
    ensures scale { tree.new.scale ≡ tree.old.scale }
{
    match tree.insert_loose(widget, number) {
        Ok(h) => Ok(h),
        Err(TreeFault::OutOfMemory) => Err(AllocError),
        Err(TreeFault::Full) => unreachable!(),
    }
}

// Makes a node with a number, unless there is one.
fn place(
    tree: &mut RenderTree,
    numbers: &mut BTreeMap<u64, Handle>,
    number: u64,
    widget: &Rc<Widget>,
) -> Result<(), AllocError>
    requires index { IsNumbering numbers.old tree.old.tree }
    requires room { used_count tree.old.tree.nodes + retired_count tree.old.tree.nodes + 1 ≤ SLOTS_MAX }
    ensures index { OnOk result (IsNumbering numbers.new tree.new.tree) }
    ensures there { OnOk result (IsSome (get nat_cmp numbers.new number)) }
    ensures grows { OnOk result (Grows tree.old.tree tree.new.tree) }
    ensures room { OnOk result (used_count tree.new.tree.nodes + retired_count tree.new.tree.nodes
        ≤ used_count tree.old.tree.nodes + retired_count tree.old.tree.nodes + 1) }
    ensures made { OnOk result (inserted_count tree.new.tree.nodes ≤ inserted_count tree.old.tree.nodes + 1) }
    ensures spent { tree.new.spent ≡ tree.old.spent }
    ensures scale { tree.new.scale ≡ tree.old.scale }
{
    if find(numbers, number).is_some() {
        return Ok(());
    }
    Tree::<RenderObject>::keep_laws();
    let h = make(tree, number, widget)?;
    put(numbers, number, h)
}

// Makes the nodes that a render node and those below it want.
#[cycle(placing)]
pub(crate) fn place_node(
    tree: &mut RenderTree,
    numbers: &mut BTreeMap<u64, Handle>,
    node: &RenderNode,
) -> Result<(), AllocError>
    requires index { IsNumbering numbers.old tree.old.tree }
    requires room { used_count tree.old.tree.nodes + retired_count tree.old.tree.nodes + count_of node.now ≤ SLOTS_MAX }
    ensures index { OnOk result (IsNumbering numbers.new tree.new.tree) }
    ensures there { OnOk result (EachNumber (λ n. IsSome (get nat_cmp numbers.new n)) node.now) }
    ensures grows { OnOk result (Grows tree.old.tree tree.new.tree) }
    ensures room { OnOk result (used_count tree.new.tree.nodes + retired_count tree.new.tree.nodes
        ≤ used_count tree.old.tree.nodes + retired_count tree.old.tree.nodes + count_of node.now) }
    ensures made { OnOk result (inserted_count tree.new.tree.nodes ≤ inserted_count tree.old.tree.nodes + count_of node.now) }
    ensures spent { tree.new.spent ≡ tree.old.spent }
    ensures scale { tree.new.scale ≡ tree.old.scale }
{
    place(tree, numbers, node.number, &node.widget)?;
    place_nodes(tree, numbers, node.children.as_slice())
}

// Makes the nodes that the render nodes of a list want.
#[cycle(placing)]
fn place_nodes(
    tree: &mut RenderTree,
    numbers: &mut BTreeMap<u64, Handle>,
    nodes: &[RenderNode],
) -> Result<(), AllocError>
    requires index { IsNumbering numbers.old tree.old.tree }
    requires room { used_count tree.old.tree.nodes + retired_count tree.old.tree.nodes + counts_of (renders_of nodes.now) ≤ SLOTS_MAX }
    ensures index { OnOk result (IsNumbering numbers.new tree.new.tree) }
    ensures there { OnOk result (AllNumbers (λ n. IsSome (get nat_cmp numbers.new n)) (renders_of nodes.now)) }
    ensures grows { OnOk result (Grows tree.old.tree tree.new.tree) }
    ensures room { OnOk result (used_count tree.new.tree.nodes + retired_count tree.new.tree.nodes
        ≤ used_count tree.old.tree.nodes + retired_count tree.old.tree.nodes + counts_of (renders_of nodes.now)) }
    ensures made { OnOk result (inserted_count tree.new.tree.nodes ≤ inserted_count tree.old.tree.nodes + counts_of (renders_of nodes.now)) }
    ensures spent { tree.new.spent ≡ tree.old.spent }
    ensures scale { tree.new.scale ≡ tree.old.scale }
{
    for node in nodes {
        place_node(tree, numbers, node)?;
    }
    Ok(())
}
