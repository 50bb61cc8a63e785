// What stops a build.
ghost use Rattle.std.specs.Prelude.{◌≡◌};

use fx_expr::Value;
use std::alloc::{AllocError, AllocFailed};
use thiserror::Error;
use widget_keys::Key;

/// Why a frame has no tree.
#[derive(Debug, Drop, Error)]
pub enum FrameFault {
    /// Two children of one widget have this key; it is that of the first child whose key an earlier one has.
    #[error("two children of one widget have the same key")]
    RepeatedSiblingKey(Key<Value>),
    /// Two widgets of the tree have this global key.
    #[error("two widgets have the same global key")]
    RepeatedGlobalKey(Value),
    /// The tree has more nodes than the program's version allows, or is deeper than 512.
    #[error("the tree is too large")]
    TreeTooLarge,
    /// What one template gives has more than 65,536 widgets.
    #[error("the output of a template is too large")]
    OutputTooLarge,
    /// Want of memory.
    #[error("out of memory")]
    OutOfMemory,
}

impl From<AllocError> for FrameFault {
    ghost use Rattle.build_form.specs.declared.faults.FrameFault.TheVariants.{OutOfMemory};

    ghost from_gives = { λ _ fault. fault ≡ OutOfMemory };

    fn from(_error: AllocError) -> Self {
        FrameFault::OutOfMemory
    }
}

impl<T: Drop> From<AllocFailed<T>> for FrameFault {
    ghost use Rattle.build_form.specs.declared.faults.FrameFault.TheVariants.{OutOfMemory};

    ghost from_gives = { λ _ fault. fault ≡ OutOfMemory };

    fn from(_error: AllocFailed<T>) -> Self {
        FrameFault::OutOfMemory
    }
}
