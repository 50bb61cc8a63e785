// The semantics tree of a laid tree (`PipelineOwner.flushSemantics`).
ghost use Rattle.std.specs.Prelude.{◌≡◌, IfOk, OnOk};
ghost use Rattle.laid_cursor.specs.Opened.{opened};
ghost use Rattle.semantics_tree.specs.Forming.{heard, after};
ghost use Rattle.screen_form.specs.Fragment.{fragment_of, fragment_in, number_where, rect_at};
ghost use Rattle.screen_form.specs.Semantics.{semantics_of};
ghost use Rattle.semantics_tree.specs.View.{sem_of};

use crate::forming::Forming;
use crate::nodes::SemNode;
use crate::semantics_role::{SemanticsRole, semantics_role};
use fx_geom::{Offset, Rect};
use laid_cursor::{LaidCursor, LaidPlace};
use plain_tree::{Frame, LaidNode};
use std::alloc::{AllocError, Global};

// The rectangle that a node takes of the view.
fn rect_at(at: Offset, frame: Frame) -> Rect
    ensures { result ≡ rect_at at frame }
{
    Rect {
        at,
        size: frame.shown_size(),
    }
}

// A detector is known by its number.
fn number_where(acts: bool, number: u64) -> Option<u64>
    ensures { result ≡ number_where acts number }
{
    if acts { Some(number) } else { None }
}

// Hands what a node gives, that stands at a point of the view, to the semantics node above it.
#[cycle(gathering)]
fn gather<C: LaidCursor>(
    alloc: Global,
    node: C,
    at: Offset,
    above: &mut Forming,
) -> Result<(), AllocError>
    ensures { OnOk result (heard above.new ≡ after (heard above.old) (fragment_of (C.stands node) at)) }
{
    let number = node.number();
    let frame = node.frame();
    match semantics_role(node.kind(), frame) {
        SemanticsRole::Hides => Ok(()),
        SemanticsRole::Says { label, button } => {
            above.say(label, button)?;
            gather_below(alloc, node, at, above)
        }
        SemanticsRole::Forms {
            label,
            button,
            tap,
            long,
        } => {
            let tap = number_where(tap, number);
            let long = number_where(long, number);
            let mut own = Forming::new(alloc, tap, long);
            own.say(label, button)?;
            gather_below(alloc, node, at, &mut own)?;
            above.add(own.finish(number, rect_at(at, frame)))
        }
        SemanticsRole::Merges => {
            let mut own = Forming::merging(alloc);
            gather_below(alloc, node, at, &mut own)?;
            above.add(own.finish(number, rect_at(at, frame)))
        }
    }
}

// The same of those below it alone.
#[cycle(gathering)]
fn gather_below<C: LaidCursor>(
    alloc: Global,
    node: C,
    at: Offset,
    above: &mut Forming,
) -> Result<(), AllocError>
    ensures { OnOk result (heard above.new ≡ after (heard above.old) (fragment_in (opened (C.stands node)).below at)) }
{
    for i in 0..node.len() {
        let Some(child) = node.child(i) else {
            continue;
        };
        gather(alloc, child.1, at.plus(child.0), above)?;
    }
    Ok(())
}

/// The semantics tree of a laid tree, which may be kept in any way: a node for the view, whose number is 0, and below it a
/// node for each Semantics that is a container, each Detector that does a tap or a long press, and each MergeSemantics, but
/// for what is hidden. It takes time in the laid nodes and in the labels that are joined, and fails only for want of memory.
pub fn semantics_from<C: LaidCursor>(alloc: Global, root: C) -> Result<SemNode, AllocError>
    ensures { IfOk result (λ tree. sem_of tree ≡ semantics_of (C.stands root)) }
{
    let mut view = Forming::new(alloc, None, None);
    gather(alloc, root, Offset::ZERO, &mut view)?;
    Ok(view.finish(0, rect_at(Offset::ZERO, root.frame())))
}

/// The semantics tree of a laid tree: a node for the view, whose number is 0, and below it a node for each Semantics
/// that is a container, each Detector that does a tap or a long press, and each MergeSemantics, but for what is hidden.
/// It takes time in the laid nodes and in the labels that are joined, and fails only for want of memory.
pub fn semantics(alloc: Global, laid: &LaidNode) -> Result<SemNode, AllocError>
    ensures { IfOk result (λ root. sem_of root ≡ semantics_of laid.now) }
{
    semantics_from(alloc, LaidPlace { node: laid })
}
