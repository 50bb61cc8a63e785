// What a layout gives.
ghost use Rattle.std.specs.Prelude.{◌≡◌};
ghost use Rattle.plain_tree.specs.Shown.{box_size, is_unseen, shown_size};

use fx_geom::{Bounds, Offset, Size};
use sliver_layout::{Geometry, SliverBounds};
use std::marker::Model;
use std::rc::Rc;
use widget_model::Widget;

/// What a node was laid out in, and what it took: a box its bounds and its size, in u, a sliver its own
/// (`RenderBox.size`, `RenderSliver.geometry`).
#[derive(Clone, Copy)]
pub enum Frame {
    Boxed {
        bounds: Bounds,
        size: Size,
    },
    Sliver {
        bounds: SliverBounds,
        geometry: Geometry,
    },
}

impl Frame {
    /// The size of a box; a sliver has none.
    pub fn box_size(self) -> Size
        ensures { result ≡ box_size self }
    {
        match self {
            Frame::Boxed { bounds: _, size } => size,
            Frame::Sliver { .. } => Size::ZERO,
        }
    }

    /// Whether it is a sliver of which nothing is seen (`SliverGeometry.visible`).
    pub fn is_unseen(self) -> bool
        ensures { result ≡ is_unseen self }
    {
        match self {
            Frame::Boxed { .. } => false,
            Frame::Sliver { geometry, .. } => geometry.paint == 0,
        }
    }

    /// What is seen of a node: the size of a box; of a sliver its paint extent, by its cross extent.
    pub fn shown_size(self) -> Size
        ensures { result ≡ shown_size self }
    {
        match self {
            Frame::Boxed { bounds: _, size } => size,
            Frame::Sliver { bounds, geometry } => {
                Size::along(bounds.axis, geometry.paint, bounds.cross)
            }
        }
    }
}

/// What a layout remarks of a node: by how much its children exceed it, in u, 0 where they don't, and whether it asks
/// for all of a length that has no end.
#[derive(Clone, Copy, Default)]
pub struct Notes {
    pub overflow: u64,
    pub unbounded: bool,
}

/// What a layout gives to a node: its frame, its notes, whether a delegate of its name was plugged, and where a Viewport
/// stands scrolled, in u.
#[derive(Clone, Copy)]
pub struct Facts {
    pub frame: Frame,
    pub notes: Notes,
    pub plugged: bool,
    pub scrolled: u64,
}

/// A node as a layout leaves it: its number, its widget, of which only the kind with its members counts, what the layout
/// gave to it, and those of its children that were laid out, in order. A sliver's children outside its window weren't.
#[cycle(laid)]
#[derive(Drop)]
pub struct LaidNode {
    pub number: u64,
    pub widget: Rc<Widget>,
    pub facts: Facts,
    pub children: Vec<LaidChild>,
}

/// A node that was laid out, and how far from its parent it stands, in u.
#[cycle(laid)]
#[derive(Drop)]
pub struct LaidChild {
    pub at: Offset,
    pub node: LaidNode,
}

impl Model for LaidNode {
    ghost use Rattle.plain_tree.specs.Laid.{Laid};
    ghost use Rattle.plain_tree.specs.LaidCode.{coded_laid};

    ghost Value = { Laid };

    ghost coded = { coded_laid };

    ghost use Rattle.widget_model.specs.View.{look_in};
    ghost use Rattle.plain_tree.specs.Laid.{laid, count_of};
    ghost use Rattle.plain_tree.specs.LaidView.{laids_in};
    ghost use Rattle.plain_tree.specs.LaidLighter.{lighter};

    ghost view = { λ n. laid n.number (look_in n.widget.value.kind) n.facts (laids_in n.children.items) };

    ghost size = { count_of };

    ghost size_decreases = { λ n h. lighter n.number (look_in n.widget.value.kind) n.facts n.children.items };
}
