// How nodes take part in a hit test.

/// How a node takes part in a hit test (`HitTestBehavior`).
#[derive(Clone, Copy, Debug, PartialEq, Eq)]
pub enum HitRole {
    /// Pointers pass it by, with all that is below it.
    Ignores,
    /// It is hit, adds nothing and asks no child.
    Absorbs,
    /// It counts itself.
    Opaque,
    /// It is added in any case, and is hit where a child is.
    Translucent,
    /// It is hit, and added, where a child is hit.
    Defers,
}
