//! The lines of a table.

use crate::answers::answer;
use std::alloc::{AllocError, Global};
use std::fmt;

/// What the lines of a table are.
#[derive(Clone, Copy, PartialEq, Eq)]
enum Part {
    /// Nothing yet.
    Before,
    /// A line of a source.
    Source,
    /// A line of a readings file.
    Readings,
    /// A line of the wanted text.
    Wanted,
}

/// The program at which a table is, with its readings, the marks and the text that is wanted, and how many texts were wanted
/// and found.
#[derive(Drop)]
pub struct Table {
    part: Part,
    source: String,
    readings: String,
    marks: u32,
    wanted: String,
    rows: u64,
    agreed: u64,
}

/// Adds a line to a text.
fn add(text: &mut String, line: &str) -> Result<(), AllocError> {
    text.push_str(line)?;
    text.push('\n')
}

/// A source and what was found of it in place of the wanted text.
fn told(alloc: Global, source: &str, found: &[u8]) -> Result<String, AllocError> {
    let mut text = format!(in alloc; "{source}comes to\n")?;
    for byte in found {
        text.push(*byte as char)?;
    }
    Ok(text)
}

impl Table {
    pub fn new(alloc: Global) -> Table {
        Table {
            part: Part::Before,
            source: String::new(alloc),
            readings: String::new(alloc),
            marks: 0,
            wanted: String::new(alloc),
            rows: 0,
            agreed: 0,
        }
    }

    /// Ends the text that is wanted, if one is: the source with what it comes to, if that is something else.
    pub fn finish(&mut self, alloc: Global) -> Result<Option<String>, AllocError> {
        if self.part != Part::Wanted {
            return Ok(None);
        }
        let found = answer(
            alloc,
            self.source.as_str(),
            self.readings.as_str(),
            self.marks,
        )?;
        self.rows = self.rows.saturating_add(1);
        if found.as_slice() != self.wanted.as_bytes() {
            return Ok(Some(told(alloc, self.source.as_str(), found.as_slice())?));
        }
        self.agreed = self.agreed.saturating_add(1);
        Ok(None)
    }

    /// Begins a program.
    fn begin(&mut self, alloc: Global) {
        self.part = Part::Source;
        self.source = String::new(alloc);
        self.readings = String::new(alloc);
    }

    /// Adds a line to what the lines are.
    fn add(&mut self, line: &str) -> Result<(), AllocError> {
        match self.part {
            Part::Before => Ok(()),
            Part::Source => add(&mut self.source, line),
            Part::Readings => add(&mut self.readings, line),
            Part::Wanted => add(&mut self.wanted, line),
        }
    }

    /// Takes a line: what the program before it comes to, if the line ends one that comes to something else than is wanted.
    pub fn take(&mut self, alloc: Global, line: &str) -> Result<Option<String>, AllocError> {
        if line.is_empty() || line.starts_with('#') {
            return Ok(None);
        }
        if line == "-- program" {
            let found = self.finish(alloc)?;
            self.begin(alloc);
            return Ok(found);
        }
        if line == "-- readings" {
            self.part = Part::Readings;
            return Ok(None);
        }
        if let Some(marks) = line.strip_prefix("-- after ") {
            let found = self.finish(alloc)?;
            self.part = Part::Wanted;
            self.marks = marks.parse::<u32>().unwrap_or(0);
            self.wanted = String::new(alloc);
            return Ok(found);
        }
        self.add(line)?;
        Ok(None)
    }
}

impl fmt::Display for Table {
    fn fmt<W: fmt::Write>(&self, f: &mut fmt::Formatter<W>) -> fmt::Result {
        write!(f, "{} of {} texts agree", self.agreed, self.rows)
    }
}
