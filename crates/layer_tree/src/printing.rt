// The text of a layer.
ghost use Rattle.std.specs.Prelude.{◌≡◌, ◌++◌, ◌*◌, codes, map, replicate, OnOk, OnErr, IfOk, false};
ghost use Rattle.layer_tree.specs.LayerItem.{items_of, nested};
ghost use Rattle.layer_tree.specs.View.{item_of};
ghost use Rattle.layer_tree.specs.Printed.{kind_text, deeper, picture_start, item_text, items_text, layer_text};

use crate::kind::LayerKind;
use crate::layers::{Item, Layer};
use draw_records::{push_extent, push_number, push_place};
use std::alloc::{AllocError, Global};

// Adds the line of a layer.
fn push_kind(kind: LayerKind, text: &mut Vec<u8>) -> Result<(), AllocError>
    ensures { OnOk result (text.new.items ≡ text.old.items ++ kind_text kind) }
{
    match kind {
        LayerKind::Offset(at) => {
            text.extend_from_slice(b"offset ")?;
            push_place(at, text)?;
            text.extend_from_slice(b"\n")
        }
        LayerKind::Opacity(at, alpha) => {
            text.extend_from_slice(b"opacity ")?;
            push_place(at, text)?;
            text.extend_from_slice(b" ")?;
            push_number(u64::from(alpha), text)?;
            text.extend_from_slice(b"\n")
        }
        LayerKind::Clip(rect) => {
            text.extend_from_slice(b"clip ")?;
            push_place(rect.at, text)?;
            text.extend_from_slice(b" ")?;
            push_extent(rect.size, text)?;
            text.extend_from_slice(b"\n")
        }
    }
}

// Begins a picture, if the record before it isn't one of it.
fn begin_picture(in_picture: bool, indent: &[u8], text: &mut Vec<u8>) -> Result<(), AllocError>
    ensures { OnOk result (text.new.items ≡ text.old.items ++ picture_start in_picture indent.now) }
{
    if in_picture {
        return Ok(());
    }
    text.extend_from_slice(indent)?;
    text.extend_from_slice(b"picture\n")
}

// The indentation one level deeper.
fn deeper(alloc: Global, indent: &[u8]) -> Result<Vec<u8>, AllocError>
    ensures { IfOk result (λ d. d.items ≡ deeper indent.now) }
{
    let mut deeper = Vec::new(alloc);
    deeper.extend_from_slice(indent)?;
    deeper.extend_from_slice(b"  ")?;
    Ok(deeper)
}

// Adds the lines of an item. `inner` is the indentation of what stands one level deeper.
#[cycle(text)]
fn push_item(
    alloc: Global,
    in_picture: bool,
    indent: &[u8],
    inner: &[u8],
    item: &Item,
    text: &mut Vec<u8>,
) -> Result<(), AllocError>
    requires { inner.now ≡ deeper indent.now }
    ensures { OnOk result (text.new.items ≡ text.old.items ++ item_text in_picture indent.now (item_of item.now)) }
{
    match item {
        Item::Record(record) => {
            begin_picture(in_picture, indent, text)?;
            text.extend_from_slice(inner)?;
            draw_records::print(record, text)
        }
        Item::Layer(layer) => push_layer(alloc, indent, inner, layer, text),
    }
}

// Adds the lines of a layer.
#[cycle(text)]
fn push_layer(
    alloc: Global,
    indent: &[u8],
    inner: &[u8],
    layer: &Layer,
    text: &mut Vec<u8>,
) -> Result<(), AllocError>
    requires { inner.now ≡ deeper indent.now }
    ensures { OnOk result (text.new.items ≡ text.old.items ++ item_text false indent.now (nested layer.now.kind (items_of layer.now.items))) }
{
    text.extend_from_slice(indent)?;
    push_kind(layer.kind, text)?;
    push_items(alloc, inner, layer.items.get(), text)
}

// Adds the lines of what stands in a layer.
#[cycle(text)]
fn push_items(
    alloc: Global,
    indent: &[u8],
    items: &[Item],
    text: &mut Vec<u8>,
) -> Result<(), AllocError>
    ensures { OnOk result (text.new.items ≡ text.old.items ++ items_text false indent.now (items_of (map item_of items.now))) }
{
    let inner = deeper(alloc, indent)?;
    let mut in_picture = false;
    for item in items {
        push_item(alloc, in_picture, indent, inner.as_slice(), item, text)?;
        in_picture = matches!(item, Item::Record(_));
    }
    Ok(())
}

/// Adds the lines of a layer and of all that stands in it, each indented by two spaces a level. `depth` is the level of
/// the layer's own line, 0 for the root; it may be any number, and levels below it go on from there. After want of memory
/// `out` is as before.
pub fn print(alloc: Global, layer: &Layer, depth: u32, out: &mut Vec<u8>) -> Result<(), AllocError>
    ensures ok { OnOk result (out.new.items ≡ out.old.items ++ layer_text depth layer.now) }
    ensures err { OnErr result (out.new.items ≡ out.old.items) }
{
    let indent = vec![in alloc; b' '; 2 * depth as usize]?;
    let inner = deeper(alloc, indent.as_slice())?;
    let mut text = Vec::new(alloc);
    push_layer(alloc, indent.as_slice(), inner.as_slice(), layer, &mut text)?;
    out.extend_from_slice(text.as_slice())
}
