// Why an action of a semantics node isn't done.
use thiserror::Error;

/// Why an action isn't done.
#[derive(Clone, Copy, Debug, PartialEq, Eq, Error)]
pub enum ActFault {
    /// The semantics tree has no such node.
    #[error("the semantics tree has no such node")]
    NoSemanticsNode,
    /// The node hasn't the action.
    #[error("the node hasn't the action")]
    NoAction,
}
