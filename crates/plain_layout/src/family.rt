// The children of a node of a plain tree, as a rule reads them.
ghost use Rattle.std.specs.Prelude.{map};
ghost use Rattle.layout_form.specs.Fits.{data_of};
ghost use Rattle.layout_form.specs.Frames.{frames_in};

use fx_geom::Size;
use kind_rules::Family;
use plain_tree::{Frame, LaidNode, ParentData, RenderNode};

/// The nodes below a node, and what is there of each.
#[derive(Clone, Copy)]
pub(crate) struct Siblings<'t> {
    pub children: &'t [RenderNode],
    pub slots: &'t [Option<LaidNode>],
}

impl<'t> Family for Siblings<'t> {
    ghost told = { λ f. map data_of f.children.now };

    ghost frames = { λ f. frames_in f.slots.now };

    fn len(&self) -> usize {
        let children = self.children;
        children.len()
    }

    fn answers(&self) -> usize {
        let slots = self.slots;
        slots.len()
    }

    fn told_at(&self, i: usize) -> &ParentData {
        let children = self.children;
        let child = &children[i];
        &child.parent_data
    }

    fn frame_at(&self, i: usize) -> Option<Frame> {
        let slots = self.slots;
        match &slots[i] {
            None => None,
            Some(laid) => Some(laid.facts.frame),
        }
    }

    fn size_at(&self, i: usize) -> Option<Size> {
        let slots = self.slots;
        match &slots[i] {
            None => None,
            Some(laid) => Some(laid.facts.frame.box_size()),
        }
    }
}
