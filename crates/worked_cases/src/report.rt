use super::asking::Asked;
use super::case::{Case, Want};
use super::content::filled;
use super::fault::Fault;
use super::outcome::{Counts, Failing, Outcome, ran, ran_asking};
use std::alloc::{AllocError, Global};

// The sizes of pieces of a case that gives none: a byte, a few, and as much as a run asks for.
const PIECES: [usize; 3] = [1, 7, 4096];

/// What is told of a file's cases.
#[derive(Drop)]
pub struct Report {
    pub text: String,
    /// Whether something wasn't as wanted.
    pub wrong: bool,
    /// The number of lines that were taken.
    pub lines: u64,
    cases: u64,
    runs: u64,
}

impl Report {
    /// Nothing yet.
    pub fn new(alloc: Global) -> Report {
        Report {
            text: String::new(alloc),
            wrong: false,
            lines: 0,
            cases: 0,
            runs: 0,
        }
    }

    /// Tells that the present line isn't understood.
    pub fn tell_unread(&mut self) -> Result<(), AllocError> {
        self.wrong = true;
        let line = self.lines;
        writeln!(self.text, "WRONG: line {line} isn't understood")
    }

    /// Tells how many cases and runs there were.
    pub fn tell_counts(&mut self, name: &str) -> Result<(), AllocError> {
        let cases = self.cases;
        let runs = self.runs;
        writeln!(self.text, "{name}: {cases} cases, {runs} runs")
    }

    /// Runs a case that has no holes; where its bytes are spoiled, once for each of them.
    pub fn run_whole(&mut self, alloc: Global, case: &Case) -> Result<(), Fault> {
        let want = case.wanted("").ok_or(Fault::Unread)?;
        let input = case.input.as_slice();
        let Some(spoil) = case.spoil else {
            return self.run_case(alloc, case, input, want);
        };
        for place in 0..input.len() {
            let spoiled = spoil.spoiled(alloc, input, place)?;
            self.run_case(alloc, case, spoiled.as_slice(), want)?;
        }
        Ok(())
    }

    /// Runs a row of a form: its text stands in the hole of the form's input, and its answer says what is wanted.
    pub fn run_row(
        &mut self,
        alloc: Global,
        form: &Case,
        answer: &str,
        text: &[u8],
    ) -> Result<(), Fault> {
        let wanted = form.wanted(answer).ok_or(Fault::Unread)?;
        let input = filled(alloc, form.input.as_slice(), text)?;
        let want = Want {
            answer: String::from_str(alloc, answer)?,
            text: filled(alloc, wanted.text.as_slice(), answer.as_bytes())?,
            status: wanted.status,
        };
        self.run_case(alloc, form, input.as_slice(), &want)
    }

    // Runs a case's words over an input, in pieces of each of its sizes, and stops where a run isn't as wanted.
    fn run_case(
        &mut self,
        alloc: Global,
        case: &Case,
        input: &[u8],
        want: &Want,
    ) -> Result<(), Fault> {
        self.cases = self.cases.saturating_add(1);
        let sizes = if case.pieces.is_empty() {
            PIECES.as_slice()
        } else {
            case.pieces.as_slice()
        };
        for size in sizes {
            if !self.run_pieces(alloc, case, input, *size, want)? {
                return Ok(());
            }
        }
        match case.asked {
            Some(asked) => self.run_asking(alloc, case, input, asked, want),
            None => Ok(()),
        }
    }

    // Runs a case with the delegate that counts, and tells of it where it is asked more or less often than wanted.
    fn run_asking(
        &mut self,
        alloc: Global,
        case: &Case,
        input: &[u8],
        asked: Asked,
        want: &Want,
    ) -> Result<(), Fault> {
        let (outcome, came) = ran_asking(alloc, case, input)?;
        if self.compare(case, input.len(), Failing::Nothing, want, &outcome)? && came != asked {
            self.wrong = true;
            let line = self.lines;
            let name = case.name.as_str();
            let Asked { sizes, paints } = came;
            writeln!(
                self.text,
                "WRONG, by line {line}: {name}, where bars were asked {sizes} times for a size and {paints} times to paint"
            )?;
        }
        Ok(())
    }

    // Runs a case in pieces of one size, once for each fault that it has: whether all was as wanted.
    fn run_pieces(
        &mut self,
        alloc: Global,
        case: &Case,
        input: &[u8],
        size: usize,
        want: &Want,
    ) -> Result<bool, Fault> {
        if case.every_read && !self.run_reads(alloc, case, input, size, want)? {
            return Ok(false);
        }
        if case.every_write && !self.run_writes(alloc, case, input, size, want)? {
            return Ok(false);
        }
        if case.failing.is_empty() {
            return self.run_once(alloc, case, input, size, Failing::Nothing, want);
        }
        for failing in &case.failing {
            if !self.run_once(alloc, case, input, size, *failing, want)? {
                return Ok(false);
            }
        }
        Ok(true)
    }

    // Runs a case once for each of its reads, which fails: those that give bytes, and the one that finds their end. Then runs
    // it once where one more read would fail.
    fn run_reads(
        &mut self,
        alloc: Global,
        case: &Case,
        input: &[u8],
        size: usize,
        want: &Want,
    ) -> Result<bool, Fault> {
        let size = size.max(1);
        let count = input.len().div_ceil(size).saturating_add(1);
        for read in 0..count {
            let wanted = case.wanted_of_read(alloc, want, read.saturating_mul(size))?;
            let failing = Failing::Read(read as u64);
            if !self.run_once(alloc, case, input, size, failing, &wanted)? {
                return Ok(false);
            }
        }
        let later = Failing::Read(count as u64);
        self.run_once(alloc, case, input, size, later, want)
    }

    // Runs a case once for each of its writes, which fails, and once where one more would.
    fn run_writes(
        &mut self,
        alloc: Global,
        case: &Case,
        input: &[u8],
        size: usize,
        want: &Want,
    ) -> Result<bool, Fault> {
        let every = case.wanted_of_writes(alloc, want, size)?;
        for (write, wanted) in every.iter().enumerate() {
            let failing = Failing::Write(write as u64);
            if !self.run_once(alloc, case, input, size, failing, wanted)? {
                return Ok(false);
            }
        }
        let later = Failing::Write(every.len() as u64);
        self.run_once(alloc, case, input, size, later, want)
    }

    // Runs a case once: whether it was as wanted.
    fn run_once(
        &mut self,
        alloc: Global,
        case: &Case,
        input: &[u8],
        size: usize,
        failing: Failing,
        want: &Want,
    ) -> Result<bool, Fault> {
        let (outcome, came) = ran(alloc, case, input, size, failing)?;
        if !self.compare(case, size, failing, want, &outcome)? {
            return Ok(false);
        }
        match (case.counted, failing) {
            (Some(counted), Failing::Nothing) if counted != came => {
                self.tell_counted(case, came)?;
                Ok(false)
            }
            _ => Ok(true),
        }
    }

    // Tells what was counted, where that isn't what was wanted.
    fn tell_counted(&mut self, case: &Case, came: Counts) -> Result<(), AllocError> {
        self.wrong = true;
        let line = self.lines;
        let name = case.name.as_str();
        let Counts {
            builds,
            layouts,
            paints,
        } = came;
        writeln!(
            self.text,
            "WRONG, by line {line}: {name}, where {builds} components were built, {layouts} rules of layout run and {paints} nodes painted"
        )
    }

    // Counts a run, and tells of it where it isn't as wanted.
    fn compare(
        &mut self,
        case: &Case,
        size: usize,
        failing: Failing,
        want: &Want,
        came: &Outcome,
    ) -> Result<bool, AllocError> {
        self.runs = self.runs.saturating_add(1);
        if came.status == want.status && came.text.as_slice() == want.text.as_slice() {
            return Ok(true);
        }
        self.wrong = true;
        let line = self.lines;
        let name = case.name.as_str();
        writeln!(
            self.text,
            "WRONG, by line {line}: {name}, in pieces of {size}"
        )?;
        self.tell_failing(failing)?;
        self.tell_outcome("wanted", want.status, want.text.as_slice())?;
        self.tell_outcome("came", came.status, came.text.as_slice())?;
        Ok(false)
    }

    // Tells what failed.
    fn tell_failing(&mut self, failing: Failing) -> Result<(), AllocError> {
        match failing {
            Failing::Nothing => Ok(()),
            Failing::Read(number) => writeln!(self.text, "where read {number} fails"),
            Failing::Write(number) => writeln!(self.text, "where write {number} fails"),
        }
    }

    // Tells a status and a text.
    fn tell_outcome(&mut self, what: &str, status: u8, text: &[u8]) -> Result<(), AllocError> {
        writeln!(self.text, "{what} status {status} and")?;
        self.text
            .push_str(str::from_utf8(text).unwrap_or("(no text)"))
    }
}
