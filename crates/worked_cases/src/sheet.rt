use super::case::Case;
use super::content::joined;
use super::fault::Fault;
use super::report::Report;
use std::alloc::{AllocError, Global};
use std::mem;

/// What the lines below a heading belong to.
#[derive(Drop)]
enum Block {
    /// To nothing: no heading has come.
    Nothing,
    /// To a case.
    Case(Case),
    /// To a form.
    Form(Case),
    /// To the last table.
    Table,
    /// They are rows of the form with this number.
    Rows(usize),
}

/// What a heading begins.
#[derive(Clone, Copy)]
enum Heading {
    Case,
    Form,
    Table,
    Rows,
}

// What a line begins, and its name, where it is a heading.
fn heading_of(line: &str) -> Option<(Heading, &str)> {
    let (word, name) = line.split_once(' ')?;
    match word {
        "case" => Some((Heading::Case, name)),
        "form" => Some((Heading::Form, name)),
        "table" => Some((Heading::Table, name)),
        "in" => Some((Heading::Rows, name)),
        _ => None,
    }
}

/// A row: an answer and a text.
#[derive(Drop)]
struct Row {
    answer: String,
    text: String,
}

impl Row {
    // The row of a line, as `check 3 A | {"w":"Text","text":5}`.
    fn read(alloc: Global, line: &str) -> Result<Row, Fault> {
        let (answer, text) = line.split_once('|').ok_or(Fault::Unread)?;
        Ok(Row {
            answer: String::from_str(alloc, answer.trim_end())?,
            text: String::from_str(alloc, text.strip_prefix(' ').unwrap_or(text))?,
        })
    }
}

/// A table of rows.
#[derive(Drop)]
struct Table {
    name: String,
    rows: Vec<Row>,
}

/// What a file's lines have made so far.
#[derive(Drop)]
pub struct Sheet {
    block: Block,
    forms: Vec<Case>,
    tables: Vec<Table>,
}

impl Sheet {
    /// Nothing yet.
    pub fn new(alloc: Global) -> Sheet {
        Sheet {
            block: Block::Nothing,
            forms: Vec::new(alloc),
            tables: Vec::new(alloc),
        }
    }

    /// Takes a line. A heading ends the block before it, and a case is run at its end.
    pub fn take(&mut self, alloc: Global, line: &str, report: &mut Report) -> Result<(), Fault> {
        if line.is_empty() || line.starts_with('#') {
            return Ok(());
        }
        match heading_of(line) {
            Some((heading, name)) => {
                self.close(alloc, report)?;
                self.begin(alloc, heading, name)
            }
            None => self.take_inner(alloc, line, report),
        }
    }

    // Takes a line of the present block.
    fn take_inner(&mut self, alloc: Global, line: &str, report: &mut Report) -> Result<(), Fault> {
        match &mut self.block {
            Block::Nothing => Err(Fault::Unread),
            Block::Case(case) | Block::Form(case) => case.take(alloc, line),
            Block::Table => self.add_row(alloc, line),
            Block::Rows(form) => {
                let form = *form;
                self.run_row(alloc, form, line, report)
            }
        }
    }

    // Begins a block.
    fn begin(&mut self, alloc: Global, heading: Heading, name: &str) -> Result<(), Fault> {
        self.block = match heading {
            Heading::Case => Block::Case(Case::new(alloc, name)?),
            Heading::Form => Block::Form(Case::new(alloc, name)?),
            Heading::Table => self.new_table(alloc, name)?,
            Heading::Rows => Block::Rows(self.form_named(name).ok_or(Fault::Unread)?),
        };
        Ok(())
    }

    // A table's block, with the table at the end of the tables.
    fn new_table(&mut self, alloc: Global, name: &str) -> Result<Block, AllocError> {
        self.tables.push(Table {
            name: String::from_str(alloc, name)?,
            rows: Vec::new(alloc),
        })?;
        Ok(Block::Table)
    }

    // The number of the form with this name.
    fn form_named(&self, name: &str) -> Option<usize> {
        self.forms
            .iter()
            .position(|form| form.name.as_str() == name)
    }

    // Adds a row to the last table.
    fn add_row(&mut self, alloc: Global, line: &str) -> Result<(), Fault> {
        let row = Row::read(alloc, line)?;
        self.tables.last_mut().ok_or(Fault::Unread)?.rows.push(row)?;
        Ok(())
    }

    // Runs a row of a form; where it names a table, as `@places check 5 A`, once for each of the table's rows.
    fn run_row(
        &self,
        alloc: Global,
        form: usize,
        line: &str,
        report: &mut Report,
    ) -> Result<(), Fault> {
        let form = self.forms.get(form).ok_or(Fault::Unread)?;
        let row = Row::read(alloc, line)?;
        match row.answer.as_str().strip_prefix('@') {
            Some(named) => self.run_table(alloc, form, named, row.text.as_bytes(), report),
            None => report.run_row(alloc, form, row.answer.as_str(), row.text.as_bytes()),
        }
    }

    // Runs a row once for each row of a table: the one's text stands in the hole of the other's. A row of the table that
    // has no answer has that of this row.
    fn run_table(
        &self,
        alloc: Global,
        form: &Case,
        named: &str,
        text: &[u8],
        report: &mut Report,
    ) -> Result<(), Fault> {
        let (name, answer) = named.split_once(' ').unwrap_or((named, ""));
        let table = self.tables.iter().find(|table| table.name.as_str() == name);
        for row in &table.ok_or(Fault::Unread)?.rows {
            let piece = joined(alloc, row.text.as_bytes(), text)?;
            let answer = if row.answer.is_empty() {
                answer
            } else {
                row.answer.as_str()
            };
            report.run_row(alloc, form, answer, piece.as_slice())?;
        }
        Ok(())
    }

    /// Ends the block: runs a case, and keeps a form.
    pub fn close(&mut self, alloc: Global, report: &mut Report) -> Result<(), Fault> {
        match mem::replace(&mut self.block, Block::Nothing) {
            Block::Case(case) => report.run_whole(alloc, &case),
            Block::Form(form) => Ok(self.forms.push(form)?),
            Block::Nothing | Block::Table | Block::Rows(_) => Ok(()),
        }
    }
}
