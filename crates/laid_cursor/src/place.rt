// A laid tree that is owned, read from a place in it.
ghost use Rattle.laid_cursor.specs.Opened.{opened, places_of};
ghost use Rattle.laid_cursor.specs.Places.{places_below};

use crate::cursor::LaidCursor;
use fx_geom::Offset;
use plain_tree::{Frame, LaidNode, Notes};
use widget_model::Kind;

/// A node of a laid tree.
#[derive(Clone, Copy)]
pub struct LaidPlace<'t> {
    pub node: &'t LaidNode,
}

impl<'t> LaidCursor for LaidPlace<'t> {
    ghost stands = { λ p. p.node.now };

    ghost places = { λ p. places_of (opened p.node.now).below };

    fn number(&self) -> u64 {
        let node = self.node;
        node.number
    }

    fn kind(&self) -> &Kind {
        let node = self.node;
        &node.widget.kind
    }

    fn frame(&self) -> Frame {
        let node = self.node;
        node.facts.frame
    }

    fn notes(&self) -> Notes {
        let node = self.node;
        node.facts.notes
    }

    fn plugged(&self) -> bool {
        let node = self.node;
        node.facts.plugged
    }

    fn len(&self) -> usize {
        let node = self.node;
        node.children.as_slice().len()
    }

    fn child(&self, i: usize) -> Option<(Offset, Self)> {
        let node = self.node;
        let children = node.children.as_slice();
        if i >= children.len() {
            return None;
        }
        let child = &children[i];
        Some((child.at, LaidPlace { node: &child.node }))
    }

    fn child_offset(&self, i: usize) -> Option<Offset> {
        match self.child(i) {
            Some(child) => Some(child.0),
            None => None,
        }
    }

    ghost below = { λ p. places_below (opened p.node.now).below };
}
