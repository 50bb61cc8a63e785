// What is wrong with a program whose form is right.
ghost use Rattle.std.specs.Prelude.{◌≡◌};
ghost use Rattle.expr_check.specs.Check.{code_number};

use std::alloc::{AllocError, AllocFailed};

/// What is wrong with a name, a type or a widget of a program.
#[derive(Clone, Copy)]
pub enum CheckCode {
    /// A name is declared twice in its list.
    RepeatedName,
    /// A field, prop, loop variable, inherited name, event, slot or component isn't there.
    MissingName,
    /// A type is wrong.
    WrongType,
    /// A box stands where a sliver is wanted, or the reverse.
    WrongSort,
    /// A child isn't certain where one widget must stand, or `each` stands outside a children list.
    Uncertain,
    /// A component is used in its own body or before its declaration.
    EarlyUse,
    /// The props or slots that are given aren't those declared.
    OtherDeclared,
}

impl CheckCode {
    /// The number that stands for it where a refusal is printed.
    pub fn number(self) -> u8
        ensures { result ≡ code_number self }
    {
        match self {
            CheckCode::RepeatedName => 1,
            CheckCode::MissingName => 2,
            CheckCode::WrongType => 3,
            CheckCode::WrongSort => 4,
            CheckCode::Uncertain => 5,
            CheckCode::EarlyUse => 6,
            CheckCode::OtherDeclared => 7,
        }
    }
}

/// Why a check stops: a fault of the program, or want of memory.
#[derive(Clone, Copy)]
pub enum CheckStop {
    Bad(CheckCode),
    OutOfMemory,
}

impl From<AllocError> for CheckStop {
    ghost use Rattle.expr_check.specs.declared.fault.CheckStop.TheVariants.{OutOfMemory};

    ghost from_gives = { λ _ s. s ≡ OutOfMemory };

    fn from(_error: AllocError) -> Self {
        CheckStop::OutOfMemory
    }
}

impl<T: Drop> From<AllocFailed<T>> for CheckStop {
    ghost use Rattle.expr_check.specs.declared.fault.CheckStop.TheVariants.{OutOfMemory};

    ghost from_gives = { λ _ s. s ≡ OutOfMemory };

    fn from(_error: AllocFailed<T>) -> Self {
        CheckStop::OutOfMemory
    }
}
