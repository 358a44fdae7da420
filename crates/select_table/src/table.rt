//! The lines of a table.

use crate::answers::{items, outputs};
use base16::NoMemory;
use std::alloc::{AllocError, Global};
use std::fmt;

/// What stands before and behind the text of each row, the variables and what they hold at the start, and how many rows
/// there were and agreed.
#[derive(Drop)]
pub struct Table {
    before: String,
    behind: String,
    variables: String,
    data: String,
    rows: u64,
    agreed: u64,
}

/// What stands behind a word at the begin of a line and the blank after it, if the line begins with that word.
fn behind_word<'a>(line: &'a str, word: &str) -> Option<&'a str> {
    let rest = line.strip_prefix(word)?;
    if rest.is_empty() {
        return Some(rest);
    }
    rest.strip_prefix(' ')
}

impl Table {
    pub fn new(alloc: Global) -> Table {
        Table {
            before: String::new(alloc),
            behind: String::new(alloc),
            variables: String::new(alloc),
            data: String::new(alloc),
            rows: 0,
            agreed: 0,
        }
    }

    /// What a form comes to.
    fn answer(&self, alloc: Global, row: &str) -> Result<String, NoMemory> {
        if let Some(text) = row.strip_prefix("items ") {
            return items(alloc, self.variables.as_str(), text);
        }
        if let Some(text) = row.strip_prefix("whole ") {
            return outputs(alloc, self.variables.as_str(), self.data.as_str(), text);
        }
        let before = self.before.as_str();
        let behind = self.behind.as_str();
        let text = format!(in alloc; "{before}{row}{behind}")?;
        outputs(
            alloc,
            self.variables.as_str(),
            self.data.as_str(),
            text.as_str(),
        )
    }

    /// What a row comes to, if it is not what the row says.
    fn row(
        &mut self,
        alloc: Global,
        row: &str,
        wanted: &str,
    ) -> Result<Option<String>, AllocError> {
        let Ok(found) = self.answer(alloc, row) else {
            return Err(AllocError);
        };
        self.rows = self.rows.saturating_add(1);
        if found.as_str().trim() != wanted {
            return Ok(Some(found));
        }
        self.agreed = self.agreed.saturating_add(1);
        Ok(None)
    }

    /// Takes a line: what its row comes to, if it is a row that says something else.
    pub fn differs(&mut self, alloc: Global, line: &str) -> Result<Option<String>, AllocError> {
        if line.is_empty() || line.starts_with('#') {
            return Ok(None);
        }
        if let Some(text) = behind_word(line, "before") {
            self.before = text.to_string(alloc)?;
            return Ok(None);
        }
        if let Some(text) = behind_word(line, "behind") {
            self.behind = text.to_string(alloc)?;
            return Ok(None);
        }
        if let Some(text) = behind_word(line, "variables") {
            self.variables = text.to_string(alloc)?;
            return Ok(None);
        }
        if let Some(text) = behind_word(line, "data") {
            self.data = text.to_string(alloc)?;
            return Ok(None);
        }
        match line.split_once(" => ") {
            Some((row, wanted)) => self.row(alloc, row, wanted),
            None => Ok(Some(format!(in alloc; "missing: it is no row")?)),
        }
    }
}

impl fmt::Display for Table {
    fn fmt<W: fmt::Write>(&self, f: &mut fmt::Formatter<W>) -> fmt::Result {
        write!(f, "{} of {} rows agree", self.agreed, self.rows)
    }
}
