ghost use Rattle.std.specs.Prelude.{◌≡◌, ℕ, ◌+◌, ◌^◌, ◌<◌, ◌≤◌, [], ◌∷◌, ◌++◌, List, IsTrue, ◌↔◌, MatchBool, IfOk, OnOk, vec_len, length, replicate, false, ◌==◌, if◌then◌else◌};
ghost use Rattle.script_lines.specs.declared.reading.TheConstants.{LINE_MAX};

use super::script;
use super::script::Asked;
use script_lines::LINE_MAX;
use std::alloc::{AllocError, Global};

/// What is kept of a line that is still to end: its bytes without what would be dropped at its end, the number of U+0020
/// after these, and whether a U+000D stands after those. Of a longer line only so many bytes are kept that it is seen to
/// be too long.
#[derive(Drop)]
pub struct InputLine {
    kept: Vec<u8>,
    spaces: u64,
    has_return: bool,
    ghost bounded: { vec_len kept ≤ LINE_MAX + 1 },
}

impl InputLine {
    ghost use Rattle.frame_run.specs.Lines.{trimmed, is_mark};
    ghost use Rattle.frame_run.specs.Ranges.{HasRanges};
    ghost use Rattle.frame_run.specs.Script.{asked_of};
    ghost use Rattle.frame_run.specs.InputLine.{HoldsLine, IsCapped, Follows, MayDrop, MustKeep, whole_line};

    /// A line of which nothing has come.
    pub fn new(alloc: Global) -> InputLine
        ensures holds { HoldsLine result [] }
        ensures spaces { result.spaces ≡ 0 }
    {
        InputLine {
            kept: Vec::new(alloc),
            spaces: 0,
            has_return: false,
        }
    }

    /// Takes its next byte.
    pub fn push(&mut self, byte: u8) -> Result<(), AllocError>
        requires { self.old.spaces + 1 < 2 ^ 64 }
        ensures holds { (raw : List ℕ) → HoldsLine self.old raw → OnOk result (HoldsLine self.new (raw ++ byte ∷ [])) }
        ensures spaces { self.new.spaces ≤ self.old.spaces + 1 }
    {
        if self.is_full() {
            return Ok(());
        }
        if self.may_drop(byte) {
            self.hold_back(byte);
            return Ok(());
        }
        if self.is_settled() {
            return self.add(byte);
        }
        self.settle_and_add(byte)
    }

    /// Whether the line ends the program part.
    pub fn is_mark(&self) -> bool
        ensures { (raw : List ℕ) → HoldsLine self.now raw → result ≡ is_mark raw }
    {
        self.kept.as_slice() == b"%%".as_slice()
    }

    /// Whether nothing of the line is left without what is dropped at its end.
    pub fn is_blank(&self) -> bool
        ensures { (raw : List ℕ) → HoldsLine self.now raw → result ≡ (length (trimmed raw) == 0) }
    {
        self.kept.is_empty()
    }

    /// What the line asks for, where it is a script line.
    pub fn asked(&self, alloc: Global) -> Result<Asked, AllocError>
        ensures value { (raw : List ℕ) → HoldsLine self.now raw → IfOk result (λ asked. asked ≡ asked_of (trimmed raw)) }
        ensures range { IfOk result HasRanges }
    {
        script::read_asked(alloc, self.kept.as_slice())
    }

    /// Begins the next line.
    pub fn clear(&mut self)
        ensures holds { HoldsLine self.new [] }
        ensures spaces { self.new.spaces ≡ 0 }
    {
        self.kept.clear();
        self.spaces = 0;
        self.has_return = false;
    }

    // Whether so much is kept that the rest of the line doesn't matter.
    fn is_full(&self) -> bool
        ensures { MatchBool result (LINE_MAX < length self.now.kept.items) (length self.now.kept.items ≤ LINE_MAX) }
    {
        self.kept.len() > LINE_MAX
    }

    // Whether the byte would be dropped, if it were the line's last one.
    fn may_drop(&self, byte: u8) -> bool
        ensures { MatchBool result (MayDrop self.now.has_return byte) (MustKeep self.now.has_return byte) }
    {
        if self.has_return {
            return false;
        }
        match byte {
            b' ' | b'\r' => true,
            _ => false,
        }
    }

    // Counts a byte that would be dropped.
    fn hold_back(&mut self, byte: u8)
        requires spaces { self.old.spaces + 1 < 2 ^ 64 }
        requires short { length self.old.kept.items ≤ LINE_MAX }
        requires may_drop { MayDrop self.old.has_return byte }
        ensures holds { (raw : List ℕ) → HoldsLine self.old raw → HoldsLine self.new (raw ++ byte ∷ []) }
        ensures spaces { self.new.spaces ≤ self.old.spaces + 1 }
    {
        if byte == b' ' {
            self.spaces += 1;
        } else {
            self.has_return = true;
        }
    }

    // Whether no byte that would be dropped has come since those that are kept.
    fn is_settled(&self) -> bool
        ensures { IsTrue result ↔ ((self.now.spaces ≡ 0) × (self.now.has_return ≡ false)) }
    {
        self.spaces == 0 && !self.has_return
    }

    // Takes a byte after some that would have been dropped before it. A function of its own, since that is rare.
    #[inline(never)]
    fn settle_and_add(&mut self, byte: u8) -> Result<(), AllocError>
        requires short { length self.old.kept.items ≤ LINE_MAX }
        requires must_keep { MustKeep self.old.has_return byte }
        ensures holds { (raw : List ℕ) → HoldsLine self.old raw → OnOk result (HoldsLine self.new (raw ++ byte ∷ [])) }
        ensures spaces { self.new.spaces ≤ self.old.spaces + 1 }
    {
        self.settle()?;
        self.add(byte)
    }

    // Keeps what has come, since more than that comes.
    fn settle(&mut self) -> Result<(), AllocError>
        ensures kept { OnOk result (IsCapped LINE_MAX (whole_line self.old.kept.items self.old.spaces self.old.has_return) self.new.kept.items) }
        ensures spaces { self.new.spaces ≡ 0 }
        ensures has_return { OnOk result (self.new.has_return ≡ false) }
    {
        self.keep_spaces()?;
        self.keep_return()
    }

    fn keep_spaces(&mut self) -> Result<(), AllocError>
        ensures kept { OnOk result (IsCapped LINE_MAX (self.old.kept.items ++ replicate self.old.spaces 32) self.new.kept.items) }
        ensures spaces { self.new.spaces ≡ 0 }
        ensures has_return { self.new.has_return ≡ self.old.has_return }
    {
        let room = (LINE_MAX + 1 - self.kept.len()) as u64;
        let count = self.spaces.min(room) as usize;
        self.spaces = 0;
        let len = self.kept.len() + count;
        self.kept.resize(len, b' ')
    }

    fn keep_return(&mut self) -> Result<(), AllocError>
        ensures kept { OnOk result (IsCapped LINE_MAX (self.old.kept.items ++ (if self.old.has_return then 13 ∷ [] else [])) self.new.kept.items) }
        ensures spaces { self.new.spaces ≡ self.old.spaces }
        ensures has_return { OnOk result (self.new.has_return ≡ false) }
    {
        if self.has_return && !self.is_full() {
            self.kept.push(b'\r')?;
        }
        self.has_return = false;
        Ok(())
    }

    // Takes a byte after bytes that are all kept.
    fn add(&mut self, byte: u8) -> Result<(), AllocError>
        requires spaces { self.old.spaces ≡ 0 }
        requires has_return { self.old.has_return ≡ false }
        ensures holds { (raw : List ℕ) → IsCapped LINE_MAX raw self.old.kept.items → Follows raw byte → OnOk result (HoldsLine self.new (raw ++ byte ∷ [])) }
        ensures spaces { self.new.spaces ≤ self.old.spaces + 1 }
    {
        if self.is_full() {
            return Ok(());
        }
        match byte {
            b' ' => self.spaces = 1,
            b'\r' => self.has_return = true,
            _ => self.kept.push(byte)?,
        }
        Ok(())
    }
}
