// What a layout remarks, for a frame's text.
ghost use Rattle.std.specs.Prelude.{◌≡◌, ◌++◌, IfOk, OnOk};
ghost use Rattle.plain_tree.specs.LaidView.{laids_in};
ghost use Rattle.screen_form.specs.Remarks.{own_notes, notes_of, notes_in};

use plain_tree::{LaidChild, LaidNode, Notes};
use screen_form::{Note, Remark};
use std::alloc::{AllocError, Global};

/// What the layout of a tree remarks, in preorder of its nodes; of one node first that it is unbounded. It takes time in
/// the laid nodes.
pub fn notes(alloc: Global, root: &LaidNode) -> Result<Vec<Note>, AllocError>
    ensures { IfOk result (λ ns. ns.items ≡ notes_of root.now) }
{
    let mut notes = Vec::new(alloc);
    push_notes(root, &mut notes)?;
    Ok(notes)
}

// Adds what is remarked of one node.
fn push_own(node: u64, remarked: Notes, notes: &mut Vec<Note>) -> Result<(), AllocError>
    ensures { OnOk result (notes.new.items ≡ notes.old.items ++ own_notes node remarked) }
{
    if remarked.unbounded {
        notes.push(Note {
            node,
            remark: Remark::Unbounded,
        })?;
    }
    if remarked.overflow != 0 {
        notes.push(Note {
            node,
            remark: Remark::Overflow(remarked.overflow),
        })?;
    }
    Ok(())
}

// Adds what is remarked of a node and of all below it.
#[cycle(noting)]
fn push_notes(node: &LaidNode, notes: &mut Vec<Note>) -> Result<(), AllocError>
    ensures { OnOk result (notes.new.items ≡ notes.old.items ++ notes_of node.now) }
{
    push_own(node.number, node.facts.notes, notes)?;
    push_notes_in(node.children.as_slice(), notes)
}

// Adds what is remarked of laid children and of all below them.
#[cycle(noting)]
fn push_notes_in(children: &[LaidChild], notes: &mut Vec<Note>) -> Result<(), AllocError>
    ensures { OnOk result (notes.new.items ≡ notes.old.items ++ notes_in (laids_in children.now)) }
{
    for child in children {
        push_notes(&child.node, notes)?;
    }
    Ok(())
}
