ghost use Rattle.std.specs.Prelude.{◌≡◌, ◌++◌, IfOk, OnOk};
ghost use Rattle.frame_run.specs.Ranges.{HasRanges};
ghost use Rattle.frame_run.specs.Script.{asked_of, refused_text};

use draw_records::push_number;
use live_session::LineRefusal;
use script_lines::{Entry, LineFault, read_line};
use std::alloc::{AllocError, Global};

/// What a script line asks for.
#[derive(Drop)]
pub enum Asked {
    /// Nothing: it is empty.
    Nothing,
    /// Something to do.
    Entry(Entry),
    /// It can't be read, and is refused.
    Refused(LineRefusal),
}

/// What a line asks for, without what is dropped at its end.
pub fn read_asked(alloc: Global, line: &[u8]) -> Result<Asked, AllocError>
    ensures value { IfOk result (λ asked. asked ≡ asked_of line.now) }
    ensures range { IfOk result HasRanges }
{
    match read_line(alloc, line) {
        Ok(None) => Ok(Asked::Nothing),
        Ok(Some(entry)) => Ok(Asked::Entry(entry)),
        Err(LineFault::LineTooLong) => Ok(Asked::Refused(LineRefusal::LineTooLong)),
        Err(LineFault::NotUtf8) => Ok(Asked::Refused(LineRefusal::NotUtf8)),
        Err(LineFault::UnknownLine) => Ok(Asked::Refused(LineRefusal::UnknownLine)),
        Err(LineFault::BadNumber) => Ok(Asked::Refused(LineRefusal::BadNumber)),
        Err(LineFault::OutOfMemory) => Err(AllocError),
    }
}

/// Appends what is printed of a refused script line with this number.
#[tactic(auto, unfolding(crate::specs::Script::refused_text))]
pub fn print_refused(number: u64, refusal: LineRefusal, out: &mut Vec<u8>) -> Result<(), AllocError>
    ensures { OnOk result (out.new.items ≡ out.old.items ++ refused_text number refusal) }
{
    out.extend_from_slice(b"refused ")?;
    push_number(number, out)?;
    out.extend_from_slice(b" ")?;
    push_number(u64::from(refusal.code()), out)?;
    out.extend_from_slice(b" ")?;
    out.extend_from_slice(refusal.name().as_bytes())?;
    out.extend_from_slice(b"\n")
}
