//! From the file of a source to its tree with types.

ghost use Rattle.std.specs.Prelude.{◌≡◌, ◌≤◌, Some, IfOk, IsErrOf};
ghost use Rattle.edge.specs.Counts.{HasRisen};
ghost use Rattle.tics_front.specs.declared.fault.SourceFault.{SourceFault as ASourceFault};
ghost use Rattle.tics_front.specs.Held.{HoldsAt};
ghost use Rattle.tics_front.specs.Source.{IsTyped, IsAnnotated, IsRefused};

use crate::fault::SourceFault;
use crate::tree::FrontErr;
use crate::typed::{Source, source_of};
use edge::{FileErr, Files};
use std::alloc::Global;

/// Most bytes of a source.
const SOURCE_LIMIT: u32 = 262_144;

/// Why there is no source.
#[derive(Clone, Copy, Debug, PartialEq, Eq)]
pub enum ReadErr {
    /// The read of its file answered a fault.
    Fault,
    /// It has this fault.
    Refused(SourceFault),
    /// It has annotations about time, which are not checked yet.
    Annotated,
    NoMemory,
}

/// The source in a file, or why there is none.
pub fn read_source<F: Files>(alloc: Global, files: &mut F, name: &str) -> Result<Source, ReadErr>
    ensures told { IfOk result (λ source. HoldsAt (F.contents files.old) name.now
        (λ text. IsTyped text source.tree source.typed)) }
    ensures refused { (fault : ASourceFault) → IsErrOf result (ReadErr.Refused fault)
        → HoldsAt (F.contents files.old) name.now (λ text. IsRefused text fault) }
    ensures annotated { IsErrOf result ReadErr.Annotated → HoldsAt (F.contents files.old) name.now IsAnnotated }
    ensures fault { IsErrOf result ReadErr.Fault → HasRisen (F.faults files.old) (F.faults files.new) }
    ensures named { IsErrOf result ReadErr.Fault → F.last files.new ≡ Some name.now }
    ensures never_falls { F.faults files.old ≤ F.faults files.new }
    ensures files { F.contents files.new ≡ F.contents files.old }
{
    let text = match files.read(alloc, name, SOURCE_LIMIT) {
        Ok(text) => text,
        Err(FileErr::Failed) => return Err(ReadErr::Fault),
        Err(FileErr::TooBig) => return Err(ReadErr::Refused(SourceFault::TooBig)),
        Err(FileErr::NoMemory) => return Err(ReadErr::NoMemory),
    };
    match source_of(alloc, text.as_slice()) {
        Ok(source) => Ok(source),
        Err(FrontErr::Refused(fault)) => Err(ReadErr::Refused(fault)),
        Err(FrontErr::Annotated) => Err(ReadErr::Annotated),
        Err(FrontErr::NoMemory) => Err(ReadErr::NoMemory),
    }
}
