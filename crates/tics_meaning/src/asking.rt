//! What `meaning` is asked about.

ghost use Rattle.std.specs.Prelude.{◌≡◌, ◌≤◌, IfOk, IsErrOf};
ghost use Rattle.edge.specs.Counts.{HasRisen};
ghost use Rattle.tics_front.specs.declared.fault.SourceFault.{SourceFault as ASourceFault};
ghost use Rattle.tics_meaning.specs.declared.fault.ReadingsFault.{ReadingsFault as AReadingsFault};
ghost use Rattle.tics_meaning.specs.Meant.{Refuses, IsAsked, RefusesReadings, HasNoMeaning, NamesMeaningRead};

use crate::fault::ReadingsFault;
use crate::readings::{ReadingsErr, read_readings};
use base16::Reading;
use core_tree::Typed;
use edge::Files;
use sqlite_items::Boxed;
use std::alloc::Global;
use tics_front::{ReadErr, SourceFault, read_source};

/// A program and what it reads.
#[derive(Drop)]
pub struct Asked {
    pub typed: Boxed<Typed>,
    pub readings: Vec<Reading>,
}

/// Why nothing can be asked.
#[derive(Clone, Copy, Debug, PartialEq, Eq)]
pub enum AskErr {
    /// A read answered a fault.
    Fault,
    /// The source has this fault.
    Source(SourceFault),
    /// The source is a program, and the readings have this fault.
    Readings(ReadingsFault),
    /// The source has annotations about time, whose meaning is not built yet.
    Annotated,
    NoMemory,
}

/// The program of a source file with the readings of another; the source is read and judged first.
pub fn ask<F: Files>(
    alloc: Global,
    files: &mut F,
    source: &str,
    readings: &str,
) -> Result<Asked, AskErr>
    ensures ok { IfOk result (λ asked. IsAsked (F.contents files.old) (source.now, readings.now) asked.typed asked.readings.items) }
    ensures refused { (fault : ASourceFault) → IsErrOf result (AskErr.Source fault)
        → Refuses (F.contents files.old) (source.now, readings.now) fault }
    ensures readings { (fault : AReadingsFault) → IsErrOf result (AskErr.Readings fault)
        → RefusesReadings (F.contents files.old) (source.now, readings.now) fault }
    ensures annotated { IsErrOf result AskErr.Annotated → HasNoMeaning (F.contents files.old) (source.now, readings.now) }
    ensures fault { IsErrOf result AskErr.Fault → HasRisen (F.faults files.old) (F.faults files.new) }
    ensures named { IsErrOf result AskErr.Fault
        → NamesMeaningRead (F.contents files.old) (source.now, readings.now) (F.last files.new) }
    ensures never_falls { F.faults files.old ≤ F.faults files.new }
    ensures files { F.contents files.new ≡ F.contents files.old }
{
    let source = match read_source(alloc, files, source) {
        Ok(source) => source,
        Err(ReadErr::Fault) => return Err(AskErr::Fault),
        Err(ReadErr::Refused(fault)) => return Err(AskErr::Source(fault)),
        Err(ReadErr::Annotated) => return Err(AskErr::Annotated),
        Err(ReadErr::NoMemory) => return Err(AskErr::NoMemory),
    };
    match read_readings(alloc, files, readings) {
        Ok(readings) => Ok(Asked {
            typed: source.typed,
            readings,
        }),
        Err(ReadingsErr::Fault) => Err(AskErr::Fault),
        Err(ReadingsErr::Refused(fault)) => Err(AskErr::Readings(fault)),
        Err(ReadingsErr::NoMemory) => Err(AskErr::NoMemory),
    }
}
