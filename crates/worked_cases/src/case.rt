use super::asking::Asked;
use super::content::add_content;
use super::fault::Fault;
use super::outcome::{Counts, Failing};
use std::alloc::{AllocError, Global};

// The statuses of a run that a failing read or write ends.
const READ_FAULT: u8 = 5;

const WRITE_FAULT: u8 = 6;

/// What a run is to write and to end with.
#[derive(Drop)]
pub struct Want {
    /// The answer that stands for it; empty where it is what any other answer stands for.
    pub answer: String,
    /// The text, in whose hole an answer goes.
    pub text: Vec<u8>,
    /// The status.
    pub status: u8,
}

impl Want {
    /// An empty text, with status 0.
    pub fn new(alloc: Global, answer: &str) -> Result<Want, AllocError> {
        Ok(Want {
            answer: String::from_str(alloc, answer)?,
            text: Vec::new(alloc),
            status: 0,
        })
    }

    /// So much of the text, with another status.
    pub fn cut(&self, alloc: Global, length: usize, status: u8) -> Result<Want, AllocError> {
        let mut text = self.text.to_vec(alloc)?;
        text.truncate(length);
        Ok(Want {
            answer: String::new(alloc),
            text,
            status,
        })
    }
}

/// The end of a line of a case's input.
#[derive(Clone, Copy)]
pub struct LineEnd {
    /// How long the input is up to it.
    pub input: usize,
    /// How long the text is that stands above the line in the case.
    pub text_above: usize,
}

/// What is done to a byte of an input.
#[derive(Clone, Copy)]
pub enum Spoil {
    /// The input ends before it.
    Cut,
    /// It is another byte.
    Byte(u8),
}

impl Spoil {
    /// An input whose byte at this place is spoiled.
    pub fn spoiled(self, alloc: Global, input: &[u8], place: usize) -> Result<Vec<u8>, AllocError> {
        let mut spoiled = input.to_vec(alloc)?;
        match self {
            Spoil::Cut => spoiled.truncate(place),
            Spoil::Byte(byte) => {
                if let Some(changed) = spoiled.get_mut(place) {
                    *changed = byte;
                }
            }
        }
        Ok(spoiled)
    }
}

/// A case, or a form, which is a case with holes.
#[derive(Drop)]
pub struct Case {
    pub name: String,
    /// The words that are passed.
    pub words: Vec<String>,
    /// The sizes of pieces; none where it is run in pieces of several sizes.
    pub pieces: Vec<usize>,
    /// What fails, each in a run of its own; none where nothing fails.
    pub failing: Vec<Failing>,
    /// Whether each read fails, in a run of its own, where the text of the lines that have ended is wanted.
    pub every_read: bool,
    /// Whether each write fails, in a run of its own, where the text of the writes before it is wanted.
    pub every_write: bool,
    /// What is done to each byte of the input, in a run of its own.
    pub spoil: Option<Spoil>,
    /// How often `bars` is to be asked, in a run of its own where it is the only delegate.
    pub asked: Option<Asked>,
    /// What is to be counted in each run in which nothing fails.
    pub counted: Option<Counts>,
    /// The input, in whose hole a row's text goes.
    pub input: Vec<u8>,
    /// The ends of its lines.
    pub ends: Vec<LineEnd>,
    /// What is wanted, first of every answer and then of each that has a text of its own.
    pub wants: Vec<Want>,
}

impl Case {
    /// A case without input, which wants no text and status 0.
    pub fn new(alloc: Global, name: &str) -> Result<Case, AllocError> {
        let mut wants = Vec::new(alloc);
        wants.push(Want::new(alloc, "")?)?;
        Ok(Case {
            name: String::from_str(alloc, name)?,
            words: Vec::new(alloc),
            pieces: Vec::new(alloc),
            failing: Vec::new(alloc),
            every_read: false,
            every_write: false,
            spoil: None,
            asked: None,
            counted: None,
            input: Vec::new(alloc),
            ends: Vec::new(alloc),
            wants,
        })
    }

    /// Takes a line of the case.
    pub fn take(&mut self, alloc: Global, line: &str) -> Result<(), Fault> {
        if let Some(rest) = line.strip_prefix('<') {
            return self.add_input(alloc, rest);
        }
        if let Some(answer) = line.strip_prefix("answer ") {
            self.wants.push(Want::new(alloc, answer)?)?;
            return Ok(());
        }
        if let Some(rest) = line.strip_prefix("word") {
            let word = rest.strip_prefix(' ').unwrap_or(rest);
            self.words.push(String::from_str(alloc, word)?)?;
            return Ok(());
        }
        let want = self.wants.last_mut().ok_or(Fault::Unread)?;
        if let Some(rest) = line.strip_prefix('>') {
            return add_content(alloc, &mut want.text, rest);
        }
        if let Some(status) = line.strip_prefix("status ") {
            want.status = status.parse::<u8>()?;
            return Ok(());
        }
        self.take_setting(line)
    }

    // Takes a line of the input. What is wanted of it stands below it.
    fn add_input(&mut self, alloc: Global, rest: &str) -> Result<(), Fault> {
        let text_above = self.wants.first().ok_or(Fault::Unread)?.text.len();
        add_content(alloc, &mut self.input, rest)?;
        self.ends.push(LineEnd {
            input: self.input.len(),
            text_above,
        })?;
        Ok(())
    }

    // Takes a line that says how the case is run.
    fn take_setting(&mut self, line: &str) -> Result<(), Fault> {
        let (word, rest) = line.split_once(' ').unwrap_or((line, ""));
        match word {
            "piece" => self.pieces.push(rest.parse::<usize>()?)?,
            "read" if rest == "every" => self.every_read = true,
            "read" => self.add_reads(rest)?,
            "write" if rest == "every" => self.every_write = true,
            "write" => self.failing.push(Failing::Write(rest.parse::<u64>()?))?,
            "asked" => self.asked = Some(Asked::read(rest)?),
            "counted" => self.counted = Some(Counts::read(rest)?),
            "cut" => self.spoil = Some(Spoil::Cut),
            "spoil" => self.spoil = Some(Spoil::Byte(u8::from_str_radix(rest, 16)?)),
            _ => return Err(Fault::Unread),
        }
        Ok(())
    }

    // Takes the number of a failing read, or the first and the last of several, each failing in a run of its own.
    fn add_reads(&mut self, numbers: &str) -> Result<(), Fault> {
        let (first, last) = numbers.split_once(' ').unwrap_or((numbers, numbers));
        for number in first.parse::<u64>()?..=last.parse::<u64>()? {
            self.failing.push(Failing::Read(number))?;
        }
        Ok(())
    }

    /// What is wanted where a read fails after so many bytes: the text of the lines that end in them.
    pub fn wanted_of_read(
        &self,
        alloc: Global,
        want: &Want,
        count: usize,
    ) -> Result<Want, AllocError> {
        want.cut(alloc, self.text_of(want, count), READ_FAULT)
    }

    /// What is wanted where a write fails, of each write, where pieces of this size are read: the text of those before it.
    /// The text of the lines that end in a piece is one write.
    pub fn wanted_of_writes(
        &self,
        alloc: Global,
        want: &Want,
        size: usize,
    ) -> Result<Vec<Want>, AllocError> {
        let size = size.max(1);
        let mut wanted = Vec::new(alloc);
        let mut written = 0;
        for piece in 1..=self.input.len().div_ceil(size) {
            let length = self.text_of(want, piece.saturating_mul(size));
            if written < length {
                wanted.push(want.cut(alloc, written, WRITE_FAULT)?)?;
                written = length;
            }
        }
        Ok(wanted)
    }

    // How long the text is of the lines that end in so many bytes.
    fn text_of(&self, want: &Want, count: usize) -> usize {
        match self.ends.iter().find(|end| count < end.input) {
            Some(end) => end.text_above,
            None => want.text.len(),
        }
    }

    /// What is wanted where a row has this answer.
    pub fn wanted(&self, answer: &str) -> Option<&Want> {
        let named = self
            .wants
            .iter()
            .find(|want| want.answer.as_str() == answer);
        match named {
            Some(want) => Some(want),
            None => self.wants.first(),
        }
    }
}
