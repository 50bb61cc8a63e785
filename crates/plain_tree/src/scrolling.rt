// A tree with the offsets that a layout gives (`ScrollPosition.correctPixels`).
ghost use Rattle.std.specs.Prelude.{◌≡◌, ℕ, IfOk, OnOk, OnErr, map};
ghost use Rattle.std.specs.Option.{option_or};
ghost use Rattle.std.specs.BTreeMap.{BTreeMap};
ghost use Rattle.std.specs.Ordering.{nat_cmp};
ghost use Rattle.plain_tree.specs.PlainNode.{nodes_of};
ghost use Rattle.plain_tree.specs.LaidView.{laids_in};
ghost use Rattle.plain_tree.specs.Offsets.{offset_at, offset_in, scrolled_by, all_scrolled_by, corrected, kept_at};

use crate::laid::{LaidChild, LaidNode};
use crate::nodes::Node;
use crate::role::render_role_of;
use std::alloc::{AllocError, Global};
use std::collections::BTreeMap;

impl Node {
    /// Takes over the offset of each Viewport that was laid out, by its number; a Viewport that wasn't keeps its own, and
    /// all else stays. It takes n steps for n nodes, each of which looks a Viewport up among those that were laid out.
    /// After want of memory the tree is as before.
    pub fn take_offsets(&mut self, alloc: Global, laid: &LaidNode) -> Result<(), AllocError>
        ensures corrected { OnOk result (self.new ≡ corrected laid.now self.old) }
        ensures refused { OnErr result (self.new ≡ self.old) }
    {
        let mut offsets = BTreeMap::new(alloc);
        keep_offsets(laid, &mut offsets)?;
        self.scroll_by(&offsets);
        Ok(())
    }

    // Scrolls each Viewport to the offset that is kept for its number.
    #[cycle(scrolling)]
    fn scroll_by(&mut self, offsets: &BTreeMap<u64, u64>)
        ensures { self.new ≡ scrolled_by (kept_at offsets.now) self.old }
    {
        if render_role_of(&self.widget.kind).is_window() {
            if let Some(offset) = offsets.get(&self.number) {
                self.scroll = *offset;
            }
        }
        scroll_all_by(self.children.as_mut_slice(), offsets);
    }
}

// The same of the nodes in a list.
#[cycle(scrolling)]
fn scroll_all_by(nodes: &mut [Node], offsets: &BTreeMap<u64, u64>)
    ensures { nodes_of nodes.new ≡ all_scrolled_by (kept_at offsets.now) (nodes_of nodes.old) }
{
    for i in 0..nodes.len() {
        nodes[i].scroll_by(offsets);
    }
}

// Keeps the offsets that a layout gives, by the numbers of the Viewports.
#[cycle(keeping)]
fn keep_offsets(laid: &LaidNode, offsets: &mut BTreeMap<u64, u64>) -> Result<(), AllocError>
    ensures { OnOk result ((wanted : ℕ) → kept_at offsets.new wanted ≡ option_or (offset_at wanted laid.now) (kept_at offsets.old wanted)) }
{
    if render_role_of(&laid.widget.kind).is_window() {
        offsets.insert(laid.number, laid.facts.scrolled)?;
    }
    keep_all_offsets(laid.children.as_slice(), offsets)
}

// The same of the laid nodes in a list.
#[cycle(keeping)]
fn keep_all_offsets(
    children: &[LaidChild],
    offsets: &mut BTreeMap<u64, u64>,
) -> Result<(), AllocError>
    ensures { OnOk result ((wanted : ℕ) → kept_at offsets.new wanted ≡ option_or (offset_in wanted (laids_in children.now)) (kept_at offsets.old wanted)) }
{
    for child in children {
        keep_offsets(&child.node, offsets)?;
    }
    Ok(())
}
