ghost use Rattle.std.specs.Prelude.{◌≡◌};

use std::alloc::AllocError;
use thiserror::Error;

/// Why a script line isn't read. Where several causes hold, it is the first of them in this order.
#[derive(Clone, Copy, Debug, PartialEq, Eq, Error)]
pub enum LineFault {
    /// The line has more than 65,536 bytes.
    #[error("the line is too long")]
    LineTooLong,
    /// The line isn't UTF-8.
    #[error("the line is no UTF-8")]
    NotUtf8,
    /// The first word is unknown, there are too many words after it or too few, or an action or a curve is
    /// unknown.
    #[error("the line is unknown")]
    UnknownLine,
    /// A number isn't an optional `-` with 1 to 19 decimal digits, lies outside its range, or a node's `#` is missing.
    #[error("a number of the line is wrong")]
    BadNumber,
    /// Want of memory.
    #[error("out of memory")]
    OutOfMemory,
}

impl From<AllocError> for LineFault {
    ghost use Rattle.script_lines.specs.declared.fault.LineFault.TheVariants.{OutOfMemory};

    ghost from_gives = { λ _ fault. fault ≡ OutOfMemory };

    fn from(_error: AllocError) -> Self {
        LineFault::OutOfMemory
    }
}
