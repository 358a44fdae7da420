ghost use Rattle.std.specs.Prelude.{◌≡◌, ◌+◌, ◌*◌, ◌<◌, ◌≤◌, ◌∷◌, [], length, IfOk, OnOk, OnErr};
ghost use Rattle.tics_call.specs.Run.{history_of, sets_from, scalars_from, symbols_of};
ghost use Rattle.tics_call.specs.Form.{IsProgram};

use crate::meaning::{Variable, run};
use crate::source::Program;
use base16::{EndKind, Kind, Name, NoMemory, Scalar, Sequence, Symbols};
use std::alloc::Global;
use world::{History, Record, Shown};

/// The variables that are not 0, each by its number, in order of declaration.
fn sets(alloc: Global, variables: &[Variable]) -> Result<Vec<Shown>, NoMemory>
    requires { length variables.now ≤ 100 }
    ensures { IfOk result (λ sets. sets.items ≡ sets_from 0 variables.now) }
{
    let mut sets = Vec::new(alloc);
    let mut number = 0u32;
    for variable in variables {
        if variable.value != 0 {
            sets.push(Shown::Value {
                scalar: number,
                word: variable.value,
            })?;
        }
        number += 1;
    }
    Ok(sets)
}

/// The one commit of a run, with all its stores made.
fn commit(alloc: Global, program: &Program) -> Result<Record, NoMemory>
    requires { IsProgram program.now }
    ensures { IfOk result (λ entry. history_of program.now ≡ Record.On 1 ∷ entry ∷ Record.End EndKind.Done ∷ []) }
{
    let variables = run(alloc, program)?;
    let sets = Sequence::from_vec(sets(alloc, variables.as_slice())?);
    Ok(Record::Commit {
        number: 1,
        marks: 2 + program.stores.len() as u32,
        instrs: 0,
        pc: 0,
        sp: 0,
        words: 0,
        log: 0,
        sets,
    })
}

/// What happens when the program runs under unbroken power.
fn history(alloc: Global, program: &Program) -> Result<Sequence<Record>, NoMemory>
    requires { IsProgram program.now }
    ensures { IfOk result (λ records. records ≡ history_of program.now) }
{
    let commit = commit(alloc, program)?;
    let mut records = Sequence::new(alloc);
    records.push(Record::On { cycle: 1 })?;
    records.push(commit)?;
    records.push(Record::End {
        kind: EndKind::Done,
    })?;
    Ok(records)
}

/// Runs a program under unbroken power: an empty history becomes that of the run. Want of memory changes nothing.
pub fn play(alloc: Global, program: &Program, book: &mut History) -> Result<(), NoMemory>
    requires form { IsProgram program.now }
    ensures ok { OnOk result (book.new.records ≡ history_of program.now) }
    ensures err { OnErr result (book.new.records ≡ book.old.records) }
{
    let records = history(alloc, program)?;
    book.records = records;
    Ok(())
}

/// The symbols of a program: its globals, two bytes each from byte address 4000 (hexadecimal) on.
pub fn symbols(alloc: Global, program: &Program) -> Result<Symbols, NoMemory>
    requires { IsProgram program.now }
    ensures { IfOk result (λ symbols. symbols ≡ symbols_of program.now) }
{
    let mut scalars = Vec::new(alloc);
    let mut address = 0x4000u16;
    for name in program.names.as_slice() {
        let name = Name::new(alloc, name.bytes())?;
        scalars.push(Scalar {
            name,
            address,
            kind: Kind::Int,
            stamp: None,
        })?;
        address += 2;
    }
    Ok(Symbols {
        scalars: Sequence::from_vec(scalars),
        functions: Sequence::new(alloc),
    })
}
