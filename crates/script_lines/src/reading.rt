ghost use Rattle.std.specs.Prelude.{◌≡◌, ◌<◌, ◌≤◌, ◌↔◌, Err, IfOk, IfSome, length};
ghost use Rattle.std.specs.Str.{IsUtf8};
ghost use Rattle.script_lines.specs.Answers.{Gives};
ghost use Rattle.script_lines.specs.EntryReading.{entry_by, entry_of, HasEntryRanges};
ghost use Rattle.script_lines.specs.Reading.{line_command, something};
ghost use Rattle.script_lines.specs.Ranges.{IsInRange};
ghost use Rattle.script_lines.specs.Words.{words_of, rest_of};

use super::command::Command;
use super::entry::Entry;
use super::fault::LineFault;
use super::own_lines::own_entry;
use super::table::{by_count, root_line, set_line};
use super::words::cut;
use std::alloc::Global;

/// A script line has at most so many bytes, without its end and what is dropped there.
pub const LINE_MAX: usize = 65_536;

// What a line asks for.
#[tactic(auto, unfolding(crate::specs::Reading::line_command))]
fn line_command(alloc: Global, line: &str) -> Result<Command, LineFault>
    ensures value { Gives result (line_command line.now) }
    ensures range { IfOk result IsInRange }
{
    let (word, rest) = cut(line);
    match word {
        "root" => root_line(alloc, rest),
        "set" => set_line(alloc, rest),
        _ => by_count(alloc, word, rest),
    }
}

// What a line that isn't empty asks for: a command of the session, or something that the run keeps beside it.
fn line_entry(alloc: Global, line: &str) -> Result<Option<Entry>, LineFault>
    ensures value { Gives result (entry_by line.now (something (line_command line.now))) }
    ensures range { IfOk result (λ entry. IfSome entry HasEntryRanges) }
{
    match line_command(alloc, line) {
        Ok(command) => Ok(Some(Entry::Line(command))),
        Err(LineFault::UnknownLine) => Ok(Some(own_entry(alloc, line)?)),
        Err(fault) => Err(fault),
    }
}

/// Reads a script line, of which its end and what is dropped there are left out already. `None` comes exactly for an
/// empty line. Each error but want of memory comes exactly where it is the first of [`LineFault`]'s causes that holds.
pub fn read_line(alloc: Global, bytes: &[u8]) -> Result<Option<Entry>, LineFault>
    ensures value { Gives result (entry_of bytes.now) }
    ensures range { IfOk result (λ entry. IfSome entry HasEntryRanges) }

    // These two are tested before any memory is taken, so want of memory never comes in their place.
    ensures too_long { (result ≡ Err LineFault.LineTooLong) ↔ (LINE_MAX < length bytes.now) }
    ensures not_utf8 { (result ≡ Err LineFault.NotUtf8) ↔ ((length bytes.now ≤ LINE_MAX) × ¬ (IsUtf8 bytes.now)) }
{
    if bytes.len() > LINE_MAX {
        return Err(LineFault::LineTooLong);
    }
    let Ok(line) = str::from_utf8(bytes) else {
        return Err(LineFault::NotUtf8);
    };
    if line.is_empty() {
        return Ok(None);
    }
    line_entry(alloc, line)
}
