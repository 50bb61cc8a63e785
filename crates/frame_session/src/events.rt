// The lines of gestures' events.
ghost use Rattle.std.specs.Prelude.{◌≡◌, ◌++◌, codes, OnOk};
ghost use Rattle.std.specs.Fmt.{decimal, signed_decimal};
ghost use Rattle.session_form.specs.EventText.{gesture_text, member_text, node_text, event_text};

use crate::frame_text::push_node;
use draw_records::{push_number, push_place};
use fx_geom::Offset;
use gesture_arena::{ArenaEvent, Gesture};
use std::alloc::AllocError;

// The name of a gesture.
fn gesture_name(gesture: Gesture) -> &'static str
    ensures { result.now ≡ gesture_text gesture }
{
    match gesture {
        Gesture::Tap => "tap",
        Gesture::Long => "long",
        Gesture::Vertical => "vertical",
        Gesture::Horizontal => "horizontal",
        Gesture::Pan => "pan",
    }
}

// Adds ` #n GESTURE`.
fn push_member(node: u64, gesture: Gesture, out: &mut Vec<u8>) -> Result<(), AllocError>
    ensures { OnOk result (out.new.items ≡ out.old.items ++ member_text node gesture) }
{
    push_node(node, out)?;
    out.extend_from_slice(b" ")?;
    out.extend_from_slice(gesture_name(gesture).as_bytes())
}

// Adds `arena P #n GESTURE` and the end of a line.
fn push_won(pointer: u32, node: u64, gesture: Gesture, out: &mut Vec<u8>) -> Result<(), AllocError>
    ensures { OnOk result (out.new.items ≡ out.old.items ++ (codes "arena " ++ (decimal pointer ++ (member_text node gesture ++ codes "\n")))) }
{
    out.extend_from_slice(b"arena ")?;
    push_number(u64::from(pointer), out)?;
    push_member(node, gesture, out)?;
    out.extend_from_slice(b"\n")
}

// Adds `arena P none` and the end of a line.
fn push_nobody(pointer: u32, out: &mut Vec<u8>) -> Result<(), AllocError>
    ensures { OnOk result (out.new.items ≡ out.old.items ++ (codes "arena " ++ (decimal pointer ++ codes " none\n"))) }
{
    out.extend_from_slice(b"arena ")?;
    push_number(u64::from(pointer), out)?;
    out.extend_from_slice(b" none\n")
}

// Adds `tap #n` or `long #n`, by the word, and the end of a line.
fn push_press(word: &[u8], node: u64, out: &mut Vec<u8>) -> Result<(), AllocError>
    ensures { OnOk result (out.new.items ≡ out.old.items ++ (word.now ++ (node_text node ++ codes "\n"))) }
{
    out.extend_from_slice(word)?;
    push_node(node, out)?;
    out.extend_from_slice(b"\n")
}

// Adds `start #n GESTURE` or `end #n GESTURE`, by the word, and the end of a line.
fn push_drag(word: &[u8], node: u64, gesture: Gesture, out: &mut Vec<u8>) -> Result<(), AllocError>
    ensures { OnOk result (out.new.items ≡ out.old.items ++ (word.now ++ (member_text node gesture ++ codes "\n"))) }
{
    out.extend_from_slice(word)?;
    push_member(node, gesture, out)?;
    out.extend_from_slice(b"\n")
}

// Adds ` DX DY` and the end of a line. How far it went is printed as a place is.
fn push_shift(dx: i64, dy: i64, out: &mut Vec<u8>) -> Result<(), AllocError>
    ensures { OnOk result (out.new.items ≡ out.old.items ++ (codes " " ++ (signed_decimal dx ++ (codes " " ++ (signed_decimal dy ++ codes "\n"))))) }
{
    out.extend_from_slice(b" ")?;
    push_place(Offset { x: dx, y: dy }, out)?;
    out.extend_from_slice(b"\n")
}

// Adds `update #n GESTURE DX DY` and the end of a line.
fn push_update(
    node: u64,
    gesture: Gesture,
    dx: i64,
    dy: i64,
    out: &mut Vec<u8>,
) -> Result<(), AllocError>
    ensures { OnOk result (out.new.items ≡ out.old.items
        ++ (codes "update" ++ (member_text node gesture ++ (codes " " ++ (signed_decimal dx ++ (codes " " ++ (signed_decimal dy ++ codes "\n"))))))) }
{
    out.extend_from_slice(b"update")?;
    push_member(node, gesture, out)?;
    push_shift(dx, dy, out)
}

// Adds the line of an event.
pub(crate) fn print_event(event: ArenaEvent, out: &mut Vec<u8>) -> Result<(), AllocError>
    ensures { OnOk result (out.new.items ≡ out.old.items ++ event_text event) }
{
    match event {
        ArenaEvent::Won {
            pointer,
            node,
            gesture,
        } => push_won(pointer, node, gesture, out),
        ArenaEvent::Nobody { pointer } => push_nobody(pointer, out),
        ArenaEvent::Tap { node } => push_press(b"tap", node, out),
        ArenaEvent::Long { node } => push_press(b"long", node, out),
        ArenaEvent::Start { node, gesture } => push_drag(b"start", node, gesture, out),
        ArenaEvent::Update {
            node,
            gesture,
            dx,
            dy,
        } => push_update(node, gesture, dx, dy, out),
        ArenaEvent::End { node, gesture } => push_drag(b"end", node, gesture, out),
    }
}
