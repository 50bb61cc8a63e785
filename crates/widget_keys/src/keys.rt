// The key of a widget (`Key`, `LocalKey`, `GlobalKey`).

/// A widget's key. A local key is matched among siblings, a global key in the whole tree. Keys are equal
/// where they are of one kind and their values are equal; two absent keys are equal. They are ordered
/// by kind, then by value.
#[derive(Clone, Debug, PartialEq, Eq, PartialOrd, Ord, Drop)]
pub enum Key<V> {
    None,
    Local(V),
    Global(V),
}
