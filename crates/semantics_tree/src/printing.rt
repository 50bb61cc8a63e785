// The text of a semantics tree.
ghost use Rattle.std.specs.Prelude.{◌≡◌, ◌++◌, codes, map, OnOk, OnErr, IfOk};
ghost use Rattle.draw_records.specs.Quoted.{quoted};
ghost use Rattle.screen_form.specs.SemanticsText.{head_text, flags_text, sem_text, sems_text, tree_text, semantics_text};
ghost use Rattle.screen_form.specs.Sem.{sems_of};
ghost use Rattle.semantics_tree.specs.View.{sem_of, lent};

use crate::nodes::SemNode;
use draw_records::{push_extent, push_number, push_place, push_quoted};
use fx_geom::Rect;
use std::alloc::{AllocError, Global};

// Adds the line of a node, up to its label.
fn push_head(id: u64, rect: Rect, text: &mut Vec<u8>) -> Result<(), AllocError>
    ensures { OnOk result (text.new.items ≡ text.old.items ++ head_text id rect) }
{
    text.push(b'#')?;
    push_number(id, text)?;
    text.push(b' ')?;
    push_place(rect.at, text)?;
    text.push(b' ')?;
    push_extent(rect.size, text)?;
    text.push(b' ')?;
    Ok(())
}

// Adds what a node does.
fn push_flags(button: bool, tap: bool, long: bool, text: &mut Vec<u8>) -> Result<(), AllocError>
    ensures { OnOk result (text.new.items ≡ text.old.items ++ flags_text button tap long) }
{
    if button {
        text.extend_from_slice(b" button")?;
    }
    if tap {
        text.extend_from_slice(b" tap")?;
    }
    if long {
        text.extend_from_slice(b" long")?;
    }
    Ok(())
}

// The indentation one level deeper.
fn deeper(alloc: Global, indent: &[u8]) -> Result<Vec<u8>, AllocError>
    ensures { IfOk result (λ d. d.items ≡ indent.now ++ codes "  ") }
{
    let mut deeper = Vec::new(alloc);
    deeper.extend_from_slice(indent)?;
    deeper.extend_from_slice(b"  ")?;
    Ok(deeper)
}

// Adds the lines of a node and of those below it.
#[cycle(text)]
fn push_node(
    alloc: Global,
    indent: &[u8],
    node: &SemNode,
    text: &mut Vec<u8>,
) -> Result<(), AllocError>
    ensures { OnOk result (text.new.items ≡ text.old.items ++ sem_text indent.now (sem_of node.now)) }
{
    text.extend_from_slice(indent)?;
    push_head(node.id, node.rect, text)?;
    push_quoted(node.label.get(), text)?;
    push_flags(node.button, node.tap.is_some(), node.long.is_some(), text)?;
    text.push(b'\n')?;
    let below = node.children.get();
    if below.is_empty() {
        return Ok(());
    }
    let inner = deeper(alloc, indent)?;
    push_nodes(alloc, inner.as_slice(), below, text)
}

// Adds the lines of the nodes in a list.
#[cycle(text)]
fn push_nodes(
    alloc: Global,
    indent: &[u8],
    nodes: &[SemNode],
    text: &mut Vec<u8>,
) -> Result<(), AllocError>
    ensures { OnOk result (text.new.items ≡ text.old.items ++ sems_text indent.now (sems_of (map sem_of nodes.now))) }
{
    for node in nodes {
        push_node(alloc, indent, node, text)?;
    }
    Ok(())
}

// The lines of a tree, if there is one.
fn tree_lines(alloc: Global, tree: Option<&SemNode>) -> Result<Vec<u8>, AllocError>
    ensures { IfOk result (λ text. text.items ≡ codes "semantics\n" ++ tree_text (lent tree.entry)) }
{
    let mut text = Vec::new(alloc);
    text.extend_from_slice(b"semantics\n")?;
    if let Some(root) = tree {
        push_node(alloc, &[], root, &mut text)?;
    }
    Ok(text)
}

/// Adds the text of a semantics tree: `semantics`, a line for each node, indented by two spaces a level, and `end`.
/// Before the first layout there is no tree. After want of memory `out` is as before.
pub fn print(alloc: Global, tree: Option<&SemNode>, out: &mut Vec<u8>) -> Result<(), AllocError>
    ensures ok { OnOk result (out.new.items ≡ out.old.items ++ semantics_text (lent tree.entry)) }
    ensures err { OnErr result (out.new.items ≡ out.old.items) }
{
    let mut text = tree_lines(alloc, tree)?;
    text.extend_from_slice(b"end\n")?;
    out.extend_from_slice(text.as_slice())
}
