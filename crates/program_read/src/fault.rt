// Where a program's form breaks a rule first.
ghost use Rattle.std.specs.Prelude.{◌≡◌, ◌∷◌, ◌++◌, string_bytes, IfOk, decimal};
ghost use Rattle.program_read.specs.declared.fault.ReadStop.TheVariants as stop;
ghost use Rattle.program_read.specs.ShapeFault.{code_number, here};
ghost use Rattle.program_read.specs.Answers.{GoesBelow, SeenWithin};

use fx_expr::Txt;
use std::alloc::{AllocError, AllocFailed, Global};

/// What is wrong with a value of a program's text.
#[derive(Clone, Copy, Debug, PartialEq, Eq)]
pub enum ShapeCode {
    /// A required member is missing.
    MissingMember,
    /// A member is unknown.
    UnknownMember,
    /// The JSON kind is another, or a word isn't one of those listed.
    WrongKind,
    /// The kind of a template is unknown.
    UnknownKind,
    /// An operator is unknown.
    UnknownOperator,
    /// A list has another number of entries.
    WrongCount,
    /// A name isn't 1 to 32 ASCII letters, digits and `_`, of which the first is no digit.
    BadName,
    /// A number isn't an integer of 64 bits with a sign.
    NotInteger,
    /// A list, a text or the list of components is too long.
    OverLimit,
    /// The version or a side of the view is out of range.
    OutOfRange,
}

impl ShapeCode {
    /// The number that stands for it where a refusal is printed.
    pub fn number(self) -> u8
        ensures { result ≡ code_number self }
    {
        match self {
            ShapeCode::MissingMember => 1,
            ShapeCode::UnknownMember => 2,
            ShapeCode::WrongKind => 3,
            ShapeCode::UnknownKind => 4,
            ShapeCode::UnknownOperator => 5,
            ShapeCode::WrongCount => 6,
            ShapeCode::BadName => 7,
            ShapeCode::NotInteger => 8,
            ShapeCode::OverLimit => 9,
            ShapeCode::OutOfRange => 10,
        }
    }
}

/// The first fault of a value: what is wrong, and at which place below the value. A place is a path of
/// member names and indices, each after `/`; the value itself has the empty one.
#[derive(Drop)]
pub struct ShapeFault {
    pub code: ShapeCode,
    pub place: Txt,
}

// The path that begins with the step and goes on with the rest.
fn path(alloc: Global, step: &str, rest: &str) -> Result<String, AllocError>
    ensures { IfOk result (λ p. string_bytes p ≡ 47 ∷ step.now ++ rest.now) }
{
    let mut path = String::from_str(alloc, "/")?;
    path.push_str(step)?;
    path.push_str(rest)?;
    Ok(path)
}

// Why a reading stops: a fault of the form, or want of memory.
#[derive(Drop)]
pub(crate) enum ReadStop {
    Shape(ShapeFault),
    OutOfMemory,
}

impl ReadStop {
    // A fault at the value at hand.
    pub(crate) fn here(alloc: Global, code: ShapeCode) -> ReadStop
        ensures { result ≡ stop.Shape (here code) }
    {
        let place = Txt::of(String::new(alloc));
        ReadStop::Shape(ShapeFault { code, place })
    }

    // The same as it is seen from the value around, where the step leads to the one at hand.
    pub(crate) fn below(self, alloc: Global, step: &str) -> ReadStop
        ensures { GoesBelow step.now self result }
    {
        match self {
            ReadStop::Shape(fault) => match path(alloc, step, fault.place.get()) {
                Ok(path) => ReadStop::Shape(ShapeFault {
                    code: fault.code,
                    place: Txt::of(path),
                }),
                Err(_) => ReadStop::OutOfMemory,
            },
            ReadStop::OutOfMemory => ReadStop::OutOfMemory,
        }
    }

    // The same where the step is the place of an entry in its list, counted from 0.
    pub(crate) fn below_entry(self, alloc: Global, index: usize) -> ReadStop
        ensures { GoesBelow (decimal index) self result }
    {
        match index.to_string(alloc) {
            Ok(step) => self.below(alloc, step.as_str()),
            Err(_) => ReadStop::OutOfMemory,
        }
    }
}

// What was read, as it is seen from the value around, where the step leads to the one at hand.
pub(crate) fn within<T: Drop>(
    alloc: Global,
    step: &str,
    read: Result<T, ReadStop>,
) -> Result<T, ReadStop>
    ensures { SeenWithin step.now read result }
{
    match read {
        Ok(value) => Ok(value),
        Err(stop) => Err(stop.below(alloc, step)),
    }
}

// The same where the step is the place of an entry in its list, counted from 0.
pub(crate) fn at_entry<T: Drop>(
    alloc: Global,
    index: usize,
    read: Result<T, ReadStop>,
) -> Result<T, ReadStop>
    ensures { SeenWithin (decimal index) read result }
{
    match read {
        Ok(value) => Ok(value),
        Err(stop) => Err(stop.below_entry(alloc, index)),
    }
}

impl From<AllocError> for ReadStop {
    ghost use Rattle.program_read.specs.declared.fault.ReadStop.TheVariants.{OutOfMemory};

    ghost from_gives = { λ _ s. s ≡ OutOfMemory };

    fn from(_error: AllocError) -> Self {
        ReadStop::OutOfMemory
    }
}

impl<T: Drop> From<AllocFailed<T>> for ReadStop {
    ghost use Rattle.program_read.specs.declared.fault.ReadStop.TheVariants.{OutOfMemory};

    ghost from_gives = { λ _ s. s ≡ OutOfMemory };

    fn from(_error: AllocFailed<T>) -> Self {
        ReadStop::OutOfMemory
    }
}
