// Why a build gives no widget.
use std::alloc::{AllocError, AllocFailed};
use thiserror::Error;

/// Why a build gives no widget.
#[derive(Debug, PartialEq, Eq, Drop, Error)]
pub enum BuildFault {
    /// The output has more than 65,536 widgets.
    #[error("the output is too large")]
    OutputTooLarge,
    /// Want of memory.
    #[error("out of memory")]
    OutOfMemory,
}

impl From<AllocError> for BuildFault {
    ghost use Rattle.std.specs.Prelude.{◌≡◌};
    ghost use Rattle.template_build.specs.declared.faults.BuildFault.TheVariants.{OutOfMemory};

    ghost from_gives = { λ _ s. s ≡ OutOfMemory };

    fn from(_error: AllocError) -> Self {
        BuildFault::OutOfMemory
    }
}

impl<T: Drop> From<AllocFailed<T>> for BuildFault {
    ghost use Rattle.std.specs.Prelude.{◌≡◌};
    ghost use Rattle.template_build.specs.declared.faults.BuildFault.TheVariants.{OutOfMemory};

    ghost from_gives = { λ _ s. s ≡ OutOfMemory };

    fn from(_error: AllocFailed<T>) -> Self {
        BuildFault::OutOfMemory
    }
}
