ghost use Rattle.std.specs.Prelude.{◌≡◌};
ghost use Rattle.std.specs.Process.{exit_status};
ghost use Rattle.frame_run.specs.Status.{code_of};

use std::io::Eprint;
use std::process::{ExitCode, Termination};

/// What a run ends with.
#[derive(Clone, Copy, Debug, PartialEq, Eq)]
pub enum Status {
    /// The input was run to its end, and no script line was refused.
    AllAccepted,
    /// The input was run to its end, and some script line was refused.
    SomeRefused,
    /// The words are refused.
    BadWords,
    /// The program part is refused.
    BadProgram,
    /// A frame had a fault, which ended the run.
    FrameFault,
    /// The source had a fault.
    ReadFault,
    /// The sink had a fault.
    WriteFault,
    /// There was no memory.
    NoMemory,
    /// More bytes came than a run takes.
    TooLong,
}

impl Status {
    /// The number with which the program ends: 0 to 8, in the order above.
    pub fn code(self) -> u8
        ensures { result ≡ code_of self }
    {
        self as u8
    }
}

/// What a program ends with whose `main` returns a status: its number, and nothing is printed.
impl Termination for Status {
    fn report<R: Eprint>(self, _rt: &R) -> ExitCode
        ensures { exit_status result ≡ code_of self }
    {
        ExitCode::from(self.code())
    }
}
