// What a point of a laid tree meets.
ghost use Rattle.std.specs.Prelude.{◌≡◌, ◌++◌, true, neg_ℤ, map, IfOk, OnOk, OnErr};
ghost use Rattle.fx_geom.specs.Offset.{contains, side_sum};
ghost use Rattle.plain_tree.specs.Shown.{shown_size};
ghost use Rattle.laid_cursor.specs.Opened.{opened};
ghost use Rattle.screen_form.specs.Hits.{relative_to, asked, asked_last, path_of, hits_of};
ghost use Rattle.hit_testing.specs.Taking.{if_added, is_before};

use crate::hit_role::{answer_alone, answer_of, hit_role, is_added};
use fx_geom::{OFFSET_MAX, Offset};
use laid_cursor::{LaidCursor, LaidPlace};
use plain_tree::LaidNode;
use std::alloc::{AllocError, Global};

// A place relative to another one, clamped as sums of offsets are.
fn side_from(place: i64, at: i64) -> i64
    ensures { result ≡ side_sum place (neg_ℤ at) }
{
    place.saturating_sub(at).clamp(-OFFSET_MAX, OFFSET_MAX)
}

// A point relative to a child, from the point relative to its parent and the child's offset.
fn relative_to(point: Offset, at: Offset) -> Offset
    ensures { result ≡ relative_to point at }
{
    Offset {
        x: side_from(point.x, at.x),
        y: side_from(point.y, at.y),
    }
}

// Adds a node to a path, if it is to be added.
fn add_if<C: LaidCursor>(added: bool, node: C, path: &mut Vec<C>) -> Result<(), AllocError>
    ensures { OnOk result (map C.stands path.new.items ≡ map C.stands path.old.items ++ if_added added (C.stands node)) }
{
    if added {
        path.push(node)?;
    }
    Ok(())
}

// Whether a point relative to a node lies in what it shows.
fn is_inside<C: LaidCursor>(node: C, point: Offset) -> bool
    ensures { result ≡ contains (shown_size (opened (C.stands node)).facts.frame) point }
{
    node.frame().shown_size().contains(point)
}

// Whether a point lies before what stands at a place, to the left of it or above it, or nothing stands there. Most children
// that are asked aren't hit because of it.
#[inline(always)]
fn is_before(point: Offset, place: Option<Offset>) -> bool
    ensures { result ≡ is_before point place }
{
    match place {
        Some(at) => point.x < at.x || point.y < at.y,
        None => true,
    }
}

// Asks a node at a point relative to it: whether it is hit. What is added goes to the end of the path. Most nodes that are
// asked lie beside the point: these cost no call.
#[cycle(asking)]
#[inline(always)]
fn ask<C: LaidCursor>(node: C, point: Offset, path: &mut Vec<C>) -> Result<bool, AllocError>
    ensures answer { IfOk result (λ hit. hit ≡ (asked (C.stands node) point).answer) }
    ensures added { OnOk result (map C.stands path.new.items ≡ map C.stands path.old.items ++ (asked (C.stands node) point).added) }
{
    let inside = is_inside(node, point);
    if !inside {
        return Ok(false);
    }
    ask_inside(node, point, path)
}

// The same of a node in which the point lies.
#[cycle(asking)]
#[inline(never)]
fn ask_inside<C: LaidCursor>(node: C, point: Offset, path: &mut Vec<C>) -> Result<bool, AllocError>
    ensures answer { contains (shown_size (opened (C.stands node)).facts.frame) point ≡ true → IfOk result (λ hit. hit ≡ (asked (C.stands node) point).answer) }
    ensures added { contains (shown_size (opened (C.stands node)).facts.frame) point ≡ true
        → OnOk result (map C.stands path.new.items ≡ map C.stands path.old.items ++ (asked (C.stands node) point).added) }
{
    let role = hit_role(node.kind(), node.plugged());
    match answer_alone(role, true) {
        Some(answer) => Ok(answer),
        None => {
            let below = ask_below(node, point, path)?;
            add_if(is_added(role, below), node, path)?;
            Ok(answer_of(role, below))
        }
    }
}

// Asks the nodes below one at a point relative to it, from the last to the first, until one is hit.
#[cycle(asking)]
fn ask_below<C: LaidCursor>(node: C, point: Offset, path: &mut Vec<C>) -> Result<bool, AllocError>
    ensures answer { IfOk result (λ hit. hit ≡ (asked_last (opened (C.stands node)).below point).answer) }
    ensures added { OnOk result (map C.stands path.new.items ≡ map C.stands path.old.items ++ (asked_last (opened (C.stands node)).below point).added) }
{
    for i in (0..node.len()).rev() {
        if is_before(point, node.child_offset(i)) {
            continue;
        }
        let Some(child) = node.child(i) else {
            continue;
        };
        if ask(child.1, relative_to(point, child.0), path)? {
            return Ok(true);
        }
    }
    Ok(false)
}

// How many nodes a path has room for from the start.
const PATH: usize = 20;

// The nodes that a point meets, the deepest first.
pub(crate) fn path_at<C: LaidCursor>(
    alloc: Global,
    root: C,
    at: Offset,
) -> Result<Vec<C>, AllocError>
    ensures { IfOk result (λ path. map C.stands path.items ≡ path_of (C.stands root) at) }
{
    let mut path = Vec::with_capacity(alloc, PATH)?;
    ask(root, at, &mut path)?;
    Ok(path)
}

/// Replaces `out` by the numbers of the nodes that a point of the view, in u, meets, the deepest first. The tree may be
/// kept in any way. After want of memory `out` is as before. It takes time in the laid nodes.
pub fn hit_path_from<C: LaidCursor>(
    alloc: Global,
    root: C,
    at: Offset,
    out: &mut Vec<u64>,
) -> Result<(), AllocError>
    ensures ok { OnOk result (out.new.items ≡ hits_of (C.stands root) at) }
    ensures err { OnErr result (out.new.items ≡ out.old.items) }
{
    let path = path_at(alloc, root, at)?;
    let mut numbers = Vec::new(alloc);
    for node in path.as_slice() {
        numbers.push(node.number())?;
    }
    *out = numbers;
    Ok(())
}

/// Replaces `out` by the numbers of the nodes that a point of the view, in u, meets, the deepest first. After want of
/// memory `out` is as before. It takes time in the laid nodes.
pub fn hit_path(
    alloc: Global,
    root: &LaidNode,
    at: Offset,
    out: &mut Vec<u64>,
) -> Result<(), AllocError>
    ensures ok { OnOk result (out.new.items ≡ hits_of root.now at) }
    ensures err { OnErr result (out.new.items ≡ out.old.items) }
{
    hit_path_from(alloc, LaidPlace { node: root }, at, out)
}
