// The text of frames, faults and hit paths.
ghost use Rattle.std.specs.Prelude.{◌≡◌, ◌++◌, codes, IfSome, OnOk};
ghost use Rattle.std.specs.Fmt.{decimal};
ghost use Rattle.screen_form.specs.Remarks.{notes_of};
ghost use Rattle.render_readers.specs.Shown.{shown_laid, read_off};
ghost use Rattle.build_form.specs.Step.{repeated_sibling_key, repeated_global_key};
ghost use Rattle.session_form.specs.EventText.{node_text};
ghost use Rattle.session_form.specs.FaultText.{fault_text};
ghost use Rattle.session_form.specs.FrameText.{remark_text, note_text, notes_text, nodes_text, hits_text};
ghost use Rattle.frame_session.specs.StandsFor.{body_text};

use crate::values::{push_key, push_value};
use draw_records::push_number;
use fx_expr::Value;
use layer_tree::Layer;
use render_readers::notes;
use render_tree::RenderTree;
use screen_form::{Note, Remark};
use std::alloc::{AllocError, Global};
use widget_keys::Key;

// Adds ` #n`.
pub(crate) fn push_node(node: u64, out: &mut Vec<u8>) -> Result<(), AllocError>
    ensures { OnOk result (out.new.items ≡ out.old.items ++ node_text node) }
{
    out.extend_from_slice(b" #")?;
    push_number(node, out)
}

// Adds ` overflow A` and the end of a line.
fn push_overflow(by: u64, out: &mut Vec<u8>) -> Result<(), AllocError>
    ensures { OnOk result (out.new.items ≡ out.old.items ++ remark_text (Remark.Overflow by)) }
{
    out.extend_from_slice(b" overflow ")?;
    push_number(by, out)?;
    out.extend_from_slice(b"\n")
}

// Adds the line of a note.
fn print_note(note: Note, out: &mut Vec<u8>) -> Result<(), AllocError>
    ensures { OnOk result (out.new.items ≡ out.old.items ++ note_text note) }
{
    out.extend_from_slice(b"note")?;
    push_node(note.node, out)?;
    match note.remark {
        Remark::Unbounded => out.extend_from_slice(b" unbounded\n"),
        Remark::Overflow(by) => push_overflow(by, out),
    }
}

// Adds the lines of what is to be noted of what is shown.
fn print_notes(alloc: Global, shown: &RenderTree, out: &mut Vec<u8>) -> Result<(), AllocError>
    ensures { OnOk result (out.new.items ≡ out.old.items ++ notes_text (read_off notes_of (shown_laid shown.now.tree))) }
{
    let notes = notes(alloc, shown)?;
    for note in notes.as_slice() {
        print_note(*note, out)?;
    }
    Ok(())
}

// Adds `frame K`.
fn print_head(number: u64, out: &mut Vec<u8>) -> Result<(), AllocError>
    ensures { OnOk result (out.new.items ≡ out.old.items ++ (codes "frame " ++ (decimal number ++ codes "\n"))) }
{
    out.extend_from_slice(b"frame ")?;
    push_number(number, out)?;
    out.extend_from_slice(b"\n")
}

// Adds what the text of a frame has after its number: the notes, the layers, `end`.
fn print_body(
    alloc: Global,
    shown: &RenderTree,
    layers: &Layer,
    out: &mut Vec<u8>,
) -> Result<(), AllocError>
    ensures { OnOk result (out.new.items ≡ out.old.items ++ body_text (shown_laid shown.now.tree) layers.now) }
{
    print_notes(alloc, shown, out)?;
    layer_tree::print(alloc, layers, 0, out)?;
    out.extend_from_slice(b"end\n")
}

// The same bytes once more, where there is memory for them.
fn copied(alloc: Global, bytes: &[u8]) -> Option<Vec<u8>>
    ensures { IfSome result (λ copy. copy.items ≡ bytes.now) }
{
    let Ok(mut copy) = Vec::with_capacity(alloc, bytes.len()) else {
        return None;
    };
    let Ok(()) = copy.extend_from_slice(bytes) else {
        return None;
    };
    Some(copy)
}

// Adds the text of a frame with this number, which shows render nodes by these layers. The text of what is shown is taken where it is
// kept; else it is printed, and kept for the next frame.
pub(crate) fn print_frame(
    alloc: Global,
    number: u64,
    shown: &RenderTree,
    layers: &Layer,
    last: &mut Option<Vec<u8>>,
    out: &mut Vec<u8>,
) -> Result<(), AllocError>
    ensures text { IfSome last.old (λ text. text.items ≡ body_text (shown_laid shown.now.tree) layers.now)
        → OnOk result (out.new.items ≡ out.old.items ++ (codes "frame " ++ (decimal number ++ (codes "\n" ++ body_text (shown_laid shown.now.tree) layers.now)))) }
    ensures last { IfSome last.old (λ text. text.items ≡ body_text (shown_laid shown.now.tree) layers.now)
        → OnOk result (IfSome last.new (λ text. text.items ≡ body_text (shown_laid shown.now.tree) layers.now)) }
{
    print_head(number, out)?;
    if let Some(text) = last {
        return out.extend_from_slice(text.as_slice());
    }
    let from = out.len();
    print_body(alloc, shown, layers, out)?;
    *last = copied(alloc, &out.as_slice()[from..]);
    Ok(())
}

// Adds the line of a key that siblings share.
pub(crate) fn print_repeated_sibling_key(
    alloc: Global,
    key: &Key<Value>,
    out: &mut Vec<u8>,
) -> Result<(), AllocError>
    ensures { OnOk result (out.new.items ≡ out.old.items ++ fault_text (repeated_sibling_key key.now)) }
{
    out.extend_from_slice(b"fault repeated-sibling-key ")?;
    push_key(alloc, key, out)?;
    out.extend_from_slice(b"\n")
}

// Adds the line of a global key that was met again.
pub(crate) fn print_repeated_global_key(
    alloc: Global,
    key: &Value,
    out: &mut Vec<u8>,
) -> Result<(), AllocError>
    ensures { OnOk result (out.new.items ≡ out.old.items ++ fault_text (repeated_global_key key.now)) }
{
    out.extend_from_slice(b"fault repeated-global-key ")?;
    push_value(alloc, key, out)?;
    out.extend_from_slice(b"\n")
}

// Adds node numbers, each after a space and `#`.
fn push_nodes(nodes: &[u64], out: &mut Vec<u8>) -> Result<(), AllocError>
    ensures { OnOk result (out.new.items ≡ out.old.items ++ nodes_text nodes.now) }
{
    for node in nodes {
        push_node(*node, out)?;
    }
    Ok(())
}

// Adds the line of a hit path.
pub(crate) fn print_hits(nodes: &[u64], out: &mut Vec<u8>) -> Result<(), AllocError>
    ensures { OnOk result (out.new.items ≡ out.old.items ++ hits_text nodes.now) }
{
    out.extend_from_slice(b"hits")?;
    push_nodes(nodes, out)?;
    out.extend_from_slice(b"\n")
}
