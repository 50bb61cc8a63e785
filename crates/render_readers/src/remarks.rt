// What a layout remarks.
ghost use Rattle.std.specs.Prelude.{◌≡◌, ◌++◌, IfOk, OnOk};
ghost use Rattle.laid_cursor.specs.Opened.{opened};
ghost use Rattle.screen_form.specs.Remarks.{own_notes, notes_of, notes_in};

use laid_cursor::LaidCursor;
use plain_tree::Notes;
use screen_form::{Note, Remark};
use std::alloc::{AllocError, Global};

// What the layout of a tree remarks, in preorder of its nodes.
pub(crate) fn notes_from<C: LaidCursor>(alloc: Global, root: C) -> Result<Vec<Note>, AllocError>
    ensures { IfOk result (λ ns. ns.items ≡ notes_of (C.stands root)) }
{
    let mut notes = Vec::new(alloc);
    push_notes(root, &mut notes)?;
    Ok(notes)
}

// Adds what is remarked of one node.
fn push_own(node: u64, remarked: Notes, notes: &mut Vec<Note>) -> Result<(), AllocError>
    ensures { OnOk result (notes.new.items ≡ notes.old.items ++ own_notes node remarked) }
{
    if remarked.unbounded {
        notes.push(Note {
            node,
            remark: Remark::Unbounded,
        })?;
    }
    if remarked.overflow != 0 {
        notes.push(Note {
            node,
            remark: Remark::Overflow(remarked.overflow),
        })?;
    }
    Ok(())
}

// Adds what is remarked of a node and of all below it.
#[cycle(noting)]
fn push_notes<C: LaidCursor>(node: C, notes: &mut Vec<Note>) -> Result<(), AllocError>
    ensures { OnOk result (notes.new.items ≡ notes.old.items ++ notes_of (C.stands node)) }
{
    push_own(node.number(), node.notes(), notes)?;
    push_notes_below(node, notes)
}

// The same of those below it alone.
#[cycle(noting)]
fn push_notes_below<C: LaidCursor>(node: C, notes: &mut Vec<Note>) -> Result<(), AllocError>
    ensures { OnOk result (notes.new.items ≡ notes.old.items ++ notes_in (opened (C.stands node)).below) }
{
    for i in 0..node.len() {
        let Some(child) = node.child(i) else {
            continue;
        };
        push_notes(child.1, notes)?;
    }
    Ok(())
}
