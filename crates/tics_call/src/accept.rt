ghost use Rattle.std.specs.Prelude.{◌≡◌, ◌≢◌, ◌≤◌, ◌⊎◌, Some, IfOk, OnOk, IsErrOf};
ghost use Rattle.edge.specs.Counts.{HasRisen};
ghost use Rattle.tics_front.specs.declared.fault.SourceFault.{SourceFault as ASourceFault};
ghost use Rattle.tics_front.specs.Held.{HoldsAt};
ghost use Rattle.tics_front.specs.Source.{IsRefused};
ghost use Rattle.tics_meaning.specs.Meant.{Refuses};
ghost use Rattle.tics_call.specs.Form.{IsProgram, IsOfForm, IsOther};
ghost use Rattle.tics_call.specs.Outcome.{Accepts, IsUnsupported, NamesRead, plain_trace};

use crate::form::program_of;
use crate::source::Program;
use edge::{FileErr, Files};
use std::alloc::Global;
use tics_front::{ReadErr, SourceFault, read_source};

/// Most bytes of a trace.
const TRACE_LIMIT: u32 = 1_048_576;

/// The one trace that is accepted.
const PLAIN_TRACE: &[u8] = b"tics-trace 1\nrate 4000000\nperiod 4000000\ncycle 100000 0\n";

/// Why a run does not come about.
#[derive(Clone, Copy, Debug, PartialEq, Eq)]
pub enum Refusal {
    /// A read answered a fault.
    ReadFault,
    /// The source has this fault.
    Source(SourceFault),
    /// The source or the trace is in no form that is built yet.
    Unsupported,
    NoMemory,
}

/// The program of a source file.
#[tactic(auto, using(crate::proofs::HeldLaws::held_form, crate::proofs::HeldLaws::held_other, crate::proofs::HeldLaws::held_annotated))]
fn read_program<F: Files>(alloc: Global, files: &mut F, name: &str) -> Result<Program, Refusal>
    ensures form { IfOk result (λ program. IsProgram program) }
    ensures told { IfOk result (λ program. HoldsAt (F.contents files.old) name.now (λ text. IsOfForm text program)) }
    ensures refused { (fault : ASourceFault) → IsErrOf result (Refusal.Source fault)
        → HoldsAt (F.contents files.old) name.now (λ text. IsRefused text fault) }
    ensures unsupported { IsErrOf result Refusal.Unsupported → HoldsAt (F.contents files.old) name.now IsOther }
    ensures fault { IsErrOf result Refusal.ReadFault → HasRisen (F.faults files.old) (F.faults files.new) }
    ensures named { IsErrOf result Refusal.ReadFault → F.last files.new ≡ Some name.now }
    ensures never_falls { F.faults files.old ≤ F.faults files.new }
    ensures files { F.contents files.new ≡ F.contents files.old }
{
    let source = match read_source(alloc, files, name) {
        Ok(source) => source,
        Err(ReadErr::Fault) => return Err(Refusal::ReadFault),
        Err(ReadErr::Refused(fault)) => return Err(Refusal::Source(fault)),
        Err(ReadErr::Annotated) => return Err(Refusal::Unsupported),
        Err(ReadErr::NoMemory) => return Err(Refusal::NoMemory),
    };
    match program_of(alloc, source.tree.get()) {
        Ok(Some(program)) => Ok(program),
        Ok(None) => Err(Refusal::Unsupported),
        Err(_) => Err(Refusal::NoMemory),
    }
}

/// Tests that a trace file is the plain trace.
fn read_trace<F: Files>(alloc: Global, files: &mut F, name: &str) -> Result<(), Refusal>
    ensures told { OnOk result (HoldsAt (F.contents files.old) name.now (λ text. text ≡ plain_trace)) }
    ensures no_source { (fault : ASourceFault) → IsErrOf result (Refusal.Source fault) → ⊥ }
    ensures unsupported { IsErrOf result Refusal.Unsupported
        → HoldsAt (F.contents files.old) name.now (λ text. text ≢ plain_trace) }
    ensures fault { IsErrOf result Refusal.ReadFault → HasRisen (F.faults files.old) (F.faults files.new) }
    ensures named { IsErrOf result Refusal.ReadFault → F.last files.new ≡ Some name.now }
    ensures never_falls { F.faults files.old ≤ F.faults files.new }
    ensures files { F.contents files.new ≡ F.contents files.old }
{
    let text = match files.read(alloc, name, TRACE_LIMIT) {
        Ok(text) => text,
        Err(FileErr::Failed) => return Err(Refusal::ReadFault),
        Err(FileErr::TooBig) => return Err(Refusal::Unsupported),
        Err(FileErr::NoMemory) => return Err(Refusal::NoMemory),
    };
    if text.as_slice() == PLAIN_TRACE {
        Ok(())
    } else {
        Err(Refusal::Unsupported)
    }
}

/// The program of a source and a trace that are both accepted.
pub fn accept<F: Files>(
    alloc: Global,
    files: &mut F,
    source: &str,
    trace: &str,
) -> Result<Program, Refusal>
    ensures ok { IfOk result (λ program. Accepts (F.contents files.old) (source.now, trace.now) program) }
    ensures refused { (fault : ASourceFault) → IsErrOf result (Refusal.Source fault)
        → Refuses (F.contents files.old) (source.now, trace.now) fault }
    ensures unsupported { IsErrOf result Refusal.Unsupported → IsUnsupported (F.contents files.old) (source.now, trace.now) }
    ensures fault { IsErrOf result Refusal.ReadFault → HasRisen (F.faults files.old) (F.faults files.new) }
    ensures named { IsErrOf result Refusal.ReadFault
        → NamesRead (F.contents files.old) (source.now, trace.now) (F.last files.new) }
    ensures never_falls { F.faults files.old ≤ F.faults files.new }
    ensures files { F.contents files.new ≡ F.contents files.old }
{
    let program = match read_program(alloc, files, source) {
        Ok(program) => program,
        Err(refusal) => return Err(refusal),
    };
    match read_trace(alloc, files, trace) {
        Ok(()) => Ok(program),
        Err(refusal) => Err(refusal),
    }
}
