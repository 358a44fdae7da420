//! The readings of a file.

ghost use Rattle.std.specs.Prelude.{◌≡◌, ◌≤◌, length, Some, IfOk, IsErrOf};
ghost use Rattle.edge.specs.Counts.{HasRisen};
ghost use Rattle.tics_front.specs.Held.{HoldsAt};
ghost use Rattle.tics_meaning.specs.declared.fault.ReadingsFault.{ReadingsFault as AReadingsFault};
ghost use Rattle.tics_meaning.specs.Meant.{IsReadingsOf, IsReadingsRefused, most_readings_bytes};

use crate::fault::ReadingsFault;
use base16::Reading;
use edge::{FileErr, Files};
use std::alloc::Global;
use world::{TraceErr, parse_readings};

/// Most bytes of a readings file.
const READINGS_LIMIT: u32 = 1_048_576;

/// Why there are no readings.
#[derive(Clone, Copy, Debug, PartialEq, Eq)]
pub enum ReadingsErr {
    /// The read of their file answered a fault.
    Fault,
    /// The file has this fault.
    Refused(ReadingsFault),
    NoMemory,
}

/// The readings that a text of at most 1,048,576 bytes says.
#[tactic(auto, using(crate::proofs::ReadingLaws::few_lines))]
fn readings_in(alloc: Global, text: &[u8]) -> Result<Vec<Reading>, ReadingsErr>
    requires { length text.now ≤ most_readings_bytes }
    ensures ok { IfOk result (λ readings. IsReadingsOf text.now readings.items) }
    ensures refused { (fault : AReadingsFault) → IsErrOf result (ReadingsErr.Refused fault) → IsReadingsRefused text.now fault }
    ensures no_fault { IsErrOf result ReadingsErr.Fault → ⊥ }
{
    match parse_readings(alloc, text) {
        Ok(readings) => Ok(readings),
        Err(TraceErr::BadLine { line }) => Err(ReadingsErr::Refused(ReadingsFault::BadLine {
            line,
        })),
        Err(TraceErr::TooLong) => Err(ReadingsErr::Refused(ReadingsFault::TooLong)),
        Err(TraceErr::NoMemory) => Err(ReadingsErr::NoMemory),
    }
}

/// The readings that a file says, or why there are none.
pub fn read_readings<F: Files>(
    alloc: Global,
    files: &mut F,
    name: &str,
) -> Result<Vec<Reading>, ReadingsErr>
    ensures told { IfOk result (λ readings. HoldsAt (F.contents files.old) name.now (λ text. IsReadingsOf text readings.items)) }
    ensures refused { (fault : AReadingsFault) → IsErrOf result (ReadingsErr.Refused fault)
        → HoldsAt (F.contents files.old) name.now (λ text. IsReadingsRefused text fault) }
    ensures fault { IsErrOf result ReadingsErr.Fault → HasRisen (F.faults files.old) (F.faults files.new) }
    ensures named { IsErrOf result ReadingsErr.Fault → F.last files.new ≡ Some name.now }
    ensures never_falls { F.faults files.old ≤ F.faults files.new }
    ensures files { F.contents files.new ≡ F.contents files.old }
{
    let text = match files.read(alloc, name, READINGS_LIMIT) {
        Ok(text) => text,
        Err(FileErr::Failed) => return Err(ReadingsErr::Fault),
        Err(FileErr::TooBig) => return Err(ReadingsErr::Refused(ReadingsFault::TooLong)),
        Err(FileErr::NoMemory) => return Err(ReadingsErr::NoMemory),
    };
    readings_in(alloc, text.as_slice())
}
