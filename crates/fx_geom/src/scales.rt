ghost use Rattle.std.specs.Prelude.{◌≡◌, ◌≤◌};

use crate::shapes::Size;

/// The numbers that depend on how many u a logical pixel has. Both sides of a cell are at least 1.
#[derive(Clone, Copy, Debug, PartialEq, Eq)]
pub struct Scale {
    /// The size of a text cell, in u.
    pub cell: Size,
    /// How far a pointer may move in a tap, a long press or a drag along one axis before it counts as moved, in u
    /// (`kTouchSlop`).
    pub slop: u64,
    /// The same for a drag in any direction, in u (`kPanSlop`).
    pub pan: u64,
    /// By how much the live range of a lazy list reaches past the view on each side, in u
    /// (`RenderAbstractViewport.defaultCacheExtent`).
    pub widen: u64,
    /// How many nodes a tree may have.
    pub nodes: u32,
    pub ghost cell_has_width: { 1 ≤ cell.w },
    pub ghost cell_has_height: { 1 ≤ cell.h },
}

impl Scale {
    ghost use Rattle.fx_geom.specs.Scale.{standard_scale, fine_scale};

    /// The scale of programs with 64 u per logical pixel.
    pub fn standard() -> Scale
        ensures { result ≡ standard_scale }
    {
        Scale {
            cell: Size { w: 512, h: 1024 },
            slop: 1152,
            pan: 2304,
            widen: 16000,
            nodes: 65536,
        }
    }

    /// The scale of programs with 256 u per logical pixel.
    pub fn fine() -> Scale
        ensures { result ≡ fine_scale }
    {
        Scale {
            cell: Size { w: 2048, h: 4096 },
            slop: 4608,
            pan: 9216,
            widen: 64000,
            nodes: 1048576,
        }
    }
}
