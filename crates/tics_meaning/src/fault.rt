ghost use Rattle.std.specs.Prelude.{◌≡◌, IfOk};
ghost use Rattle.tics_meaning.specs.Meant.{readings_text};

use base16::NoMemory;
use std::alloc::Global;

/// Why a readings file is refused.
#[derive(Clone, Copy, Debug, PartialEq, Eq)]
pub enum ReadingsFault {
    /// The first line, from 1, that is not in the form of a readings file; printed as W1.
    BadLine { line: u32 },
    /// It has more than 1,048,576 bytes, or no line is bad and there are more than 65,536 readings; printed as W2.
    TooLong,
}

/// The line of a readings file that has a bad line.
fn bad_line(alloc: Global, line: u32) -> Result<Vec<u8>, NoMemory>
    ensures { IfOk result (λ text. text.items ≡ readings_text (ReadingsFault.BadLine line)) }
{
    let mut text = Vec::from_slice(alloc, b"readings W1 line ")?;
    let digits = line.to_string(alloc)?;
    text.extend_from_slice(digits.as_bytes())?;
    text.push(b'\n')?;
    Ok(text)
}

impl ReadingsFault {
    /// What is printed of it.
    pub fn text(self, alloc: Global) -> Result<Vec<u8>, NoMemory>
        ensures { IfOk result (λ text. text.items ≡ readings_text self) }
    {
        match self {
            ReadingsFault::BadLine { line } => bad_line(alloc, line),
            ReadingsFault::TooLong => Ok(Vec::from_slice(alloc, b"readings W2\n")?),
        }
    }
}
