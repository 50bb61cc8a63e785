// Why a program or a template is refused, with the component that it is refused in.
ghost use Rattle.std.specs.Prelude.{◌≡◌};
ghost use Rattle.program_check.specs.Refusals.{refusal_at};

use expr_check::CheckStop;
use std::alloc::{AllocError, AllocFailed};
use thiserror::Error;

/// Why a program, or a template, is refused.
#[derive(Debug, PartialEq, Eq, Drop, Error)]
pub enum CheckFault {
    /// A rule of the check is broken, first here: the number of its [`CheckCode`](expr_check::CheckCode), and the place of the
    /// component, counted from 0, where it is broken in one.
    #[error("a rule of the check is broken")]
    Bad { code: u8, component: Option<u32> },
    /// Want of memory.
    #[error("out of memory")]
    OutOfMemory,
}

impl CheckFault {
    // The refusal for what stops a check in the component at the place, or outside components.
    pub(crate) fn at(component: Option<u32>, stop: CheckStop) -> CheckFault
        ensures { result ≡ refusal_at component stop }
    {
        match stop {
            CheckStop::Bad(code) => CheckFault::Bad {
                code: code.number(),
                component,
            },
            CheckStop::OutOfMemory => CheckFault::OutOfMemory,
        }
    }
}

impl From<AllocError> for CheckFault {
    ghost use Rattle.program_check.specs.declared.refusals.CheckFault.TheVariants.{OutOfMemory};

    ghost from_gives = { λ _ s. s ≡ OutOfMemory };

    fn from(_error: AllocError) -> Self {
        CheckFault::OutOfMemory
    }
}

impl<T: Drop> From<AllocFailed<T>> for CheckFault {
    ghost use Rattle.program_check.specs.declared.refusals.CheckFault.TheVariants.{OutOfMemory};

    ghost from_gives = { λ _ s. s ≡ OutOfMemory };

    fn from(_error: AllocFailed<T>) -> Self {
        CheckFault::OutOfMemory
    }
}
