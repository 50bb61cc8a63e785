// What a layout remarks.

/// What is remarked of a node.
#[derive(Clone, Copy, Debug, PartialEq, Eq)]
pub enum Remark {
    /// It asks for all of a length that has no end.
    Unbounded,
    /// Its children exceed it by this, in u, which isn't 0.
    Overflow(u64),
}

/// A remark on the node with a number.
#[derive(Clone, Copy, Debug, PartialEq, Eq)]
pub struct Note {
    pub node: u64,
    pub remark: Remark,
}
