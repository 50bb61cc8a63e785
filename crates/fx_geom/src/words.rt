/// How the children of a Row or a Column stand on its main axis (`MainAxisAlignment`).
#[derive(Clone, Copy, Debug, PartialEq, Eq)]
pub enum MainAlign {
    Start,
    End,
    Center,
    Between,
    Around,
    Evenly,
}

/// How the children of a Row or a Column stand across its main axis (`CrossAxisAlignment`).
#[derive(Clone, Copy, Debug, PartialEq, Eq)]
pub enum CrossAlign {
    Start,
    End,
    Center,
    Stretch,
}

/// What bounds a Stack gives to its children that aren't positioned (`StackFit`).
#[derive(Clone, Copy, Debug, PartialEq, Eq)]
pub enum StackFit {
    Loose,
    Expand,
    Passthrough,
}

/// Where a child of a Stack stands (`Positioned`), in u: the distance of each edge from that edge of the stack, and
/// the child's own width and height, each where it is given.
#[derive(Clone, Copy, Debug, Default, PartialEq, Eq)]
pub struct Placed {
    pub left: Option<i64>,
    pub top: Option<i64>,
    pub right: Option<i64>,
    pub bottom: Option<i64>,
    pub width: Option<u64>,
    pub height: Option<u64>,
}

impl Placed {
    ghost use Rattle.std.specs.Prelude.{◌≡◌};
    ghost use Rattle.fx_geom.specs.Placed.{is_positioned};

    /// Whether an edge, a width or a height is given (`StackParentData.isPositioned`).
    pub fn is_positioned(&self) -> bool
        ensures { result ≡ is_positioned self.now }
    {
        self.left.is_some()
            || self.top.is_some()
            || self.right.is_some()
            || self.bottom.is_some()
            || self.width.is_some()
            || self.height.is_some()
    }
}
