ghost use Rattle.std.specs.Prelude.{◌*◌, ◌≤◌};

/// A cluster: its bytes, the cells that it takes, and whether it is U+0020.
#[derive(Clone, Copy)]
pub struct Piece {
    pub len: usize,
    pub cells: u64,
    pub is_space: bool,
    pub ghost few: { cells ≤ 2 * len },
}

/// A stretch of clusters: whether there is one, their bytes and their cells.
#[derive(Clone, Copy)]
pub struct Stretch {
    pub some: bool,
    pub bytes: usize,
    pub cells: u64,
    pub ghost few: { cells ≤ 2 * bytes },
}
