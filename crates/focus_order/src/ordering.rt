// The order in which detectors take the focus.
ghost use Rattle.std.specs.Prelude.{◌≡◌, map, IfOk, OnOk, OnErr};
ghost use Rattle.std.specs.BTreeSet.{keys};
ghost use Rattle.laid_cursor.specs.Opened.{opened};
ghost use Rattle.screen_form.specs.FocusOrder.{spot_at, spots_of, spots_in, put_in, focus_order_of, number_of};

use crate::focus_role::focus_role;
use fx_geom::Offset;
use laid_cursor::{LaidCursor, LaidPlace};
use plain_tree::LaidNode;
use screen_form::{FocusRole, Spot};
use std::alloc::{AllocError, Global};
use std::collections::BTreeSet;

// Where a detector stands.
fn spot_at(number: u64, at: Offset) -> Spot
    ensures { result ≡ spot_at number at }
{
    Spot {
        y: at.y,
        x: at.x,
        number,
    }
}

// Puts the spots of a node, that stands at a point of the view, and of those below it at their places.
#[cycle(gathering)]
fn gather<C: LaidCursor>(node: C, at: Offset, spots: &mut BTreeSet<Spot>) -> Result<(), AllocError>
    ensures { OnOk result (keys spots.new ≡ put_in (keys spots.old) (spots_of (C.stands node) at)) }
{
    match focus_role(node.kind(), node.frame()) {
        FocusRole::Hides => Ok(()),
        FocusRole::TakesFocus => {
            spots.insert(spot_at(node.number(), at))?;
            gather_below(node, at, spots)
        }
        FocusRole::Passes => gather_below(node, at, spots),
    }
}

// The same of those below it alone.
#[cycle(gathering)]
fn gather_below<C: LaidCursor>(
    node: C,
    at: Offset,
    spots: &mut BTreeSet<Spot>,
) -> Result<(), AllocError>
    ensures { OnOk result (keys spots.new ≡ put_in (keys spots.old) (spots_in (opened (C.stands node)).below at)) }
{
    for i in 0..node.len() {
        let Some(child) = node.child(i) else {
            continue;
        };
        gather(child.1, at.plus(child.0), spots)?;
    }
    Ok(())
}

// The numbers of spots, in their order.
fn numbers_of(alloc: Global, spots: &BTreeSet<Spot>) -> Result<Vec<u64>, AllocError>
    ensures { IfOk result (λ ns. ns.items ≡ map number_of (keys spots.now)) }
{
    let mut numbers = Vec::new(alloc);
    for spot in spots {
        numbers.push(spot.number)?;
    }
    Ok(numbers)
}

/// Replaces `out` by the numbers of the detectors with a tap that are laid out and shown, in the order of reading: from
/// above, then from the left, then by number. The tree may be kept in any way. It takes n log n steps for n nodes. After
/// want of memory `out` is as before.
pub fn order_from<C: LaidCursor>(
    alloc: Global,
    root: C,
    out: &mut Vec<u64>,
) -> Result<(), AllocError>
    ensures ok { OnOk result (out.new.items ≡ focus_order_of (C.stands root)) }
    ensures err { OnErr result (out.new.items ≡ out.old.items) }
{
    let mut spots = BTreeSet::new(alloc);
    gather(root, Offset::ZERO, &mut spots)?;
    *out = numbers_of(alloc, &spots)?;
    Ok(())
}

/// Replaces `out` by the numbers of the detectors with a tap that are laid out and shown, in the order of reading: from
/// above, then from the left, then by number. It takes n log n steps for n nodes. After want of memory `out` is as
/// before.
pub fn order(alloc: Global, root: &LaidNode, out: &mut Vec<u64>) -> Result<(), AllocError>
    ensures ok { OnOk result (out.new.items ≡ focus_order_of root.now) }
    ensures err { OnErr result (out.new.items ≡ out.old.items) }
{
    order_from(alloc, LaidPlace { node: root }, out)
}
