// What a node is to the focus.

/// What a node is to the focus.
#[derive(Clone, Copy, Debug, PartialEq, Eq)]
pub enum FocusRole {
    /// It hides itself and what is below it.
    Hides,
    /// It can have the focus.
    TakesFocus,
    /// Neither.
    Passes,
}
