//! The state in which a program starts.

ghost use Rattle.std.specs.Prelude.{◌≡◌, ◌++◌, option_copied, IfOk, OnOk};
ghost use Rattle.core_layout.specs.Laid.{IsLaid};
ghost use Rattle.c_meaning.specs.After as whole;
ghost use Rattle.c_meaning.specs.Stamps as stamped;
ghost use Rattle.c_start.specs.Starting as spec;

use base16::{Kind, NoMemory, Sequence};
use c_values::{Cell, Cells, Object, State, Value, fit};
use core_layout::{Laid, slots_of, structs_laid};
use core_tree::{Core, Global as Variable, Initial, Slot, Struct};
use std::alloc::Global;

/// What a scalar is at the start.
fn initial_value(kind: Kind, initial: Initial) -> Value
    ensures { result ≡ whole.initial_value kind initial }
{
    match initial {
        Initial::Address { global, offset } => Value::Pointer {
            object: u64::from(global),
            offset,
        },
        Initial::Int(value) => match kind {
            Kind::Pointer => Value::Null,
            Kind::Char => fit(Kind::Char, Value::Int(value)),
            Kind::Int => fit(Kind::Int, Value::Int(value)),
            Kind::UInt => fit(Kind::UInt, Value::Int(value)),
        },
    }
}

/// A scalar with its initial value, if it has one.
fn initial_cell(slot: Slot, initial: Option<&Initial>) -> Cell
    ensures { result ≡ spec.initial_cell slot (option_copied initial.entry) }
{
    let value = match initial {
        None => Value::Undefined,
        Some(initial) => initial_value(slot.kind, *initial),
    };
    Cell {
        offset: slot.offset,
        kind: slot.kind,
        value,
    }
}

/// The scalars of a variable.
#[tactic(auto, using(crate::proofs::Starts::cells_turn))]
fn initial_cells(alloc: Global, slots: &[Slot], inits: &[Initial]) -> Result<Cells, NoMemory>
    ensures { IfOk result (λ cells. cells ≡ whole.initial_cells slots.now inits.now) }
{
    let mut cells = Vec::new(alloc);
    for at in 0..slots.len() {
        cells.push(initial_cell(slots[at], inits.get(at)))?;
    }
    Ok(Cells::from_vec(cells))
}

/// The variables, in order.
#[tactic(auto, using(crate::proofs::Starts::globals_turn))]
fn initial_objects(
    alloc: Global,
    structs: &[Struct],
    known: &[Option<Laid>],
    globals: &[Variable],
) -> Result<Sequence<Object>, NoMemory>
    requires { IsLaid known.now structs.now }
    ensures { IfOk result (λ objects. objects ≡ whole.initial_objects structs.now 0 globals.now) }
{
    let mut objects = Sequence::new(alloc);
    let mut number: u64 = 0;
    for global in globals {
        let slots = slots_of(alloc, structs, known, &global.ty)?;
        let cells = initial_cells(alloc, slots.as_slice(), global.init.as_slice())?;
        objects.push(Object { number, cells })?;
        number += 1;
    }
    Ok(objects)
}

/// Adds so many stamps that are not set.
#[tactic(auto, using(crate::proofs::Starts::none_end))]
fn push_none(stamps: &mut Sequence<Option<u32>>, count: usize) -> Result<(), NoMemory>
    ensures { OnOk result (stamps.new ≡ stamps.old ++ whole.no_stamps count) }
{
    for _stamp in 0..count {
        stamps.push(None)?;
    }
    Ok(())
}

/// How many stamps a variable has.
fn stamps_of(
    alloc: Global,
    structs: &[Struct],
    known: &[Option<Laid>],
    global: &Variable,
) -> Result<usize, NoMemory>
    requires { IsLaid known.now structs.now }
    ensures { IfOk result (λ count. count ≡ stamped.stamps_of structs.now global.now) }
{
    match global.lifetime {
        None => Ok(0),
        Some(_) => {
            let slots = slots_of(alloc, structs, known, &global.ty)?;
            Ok(slots.len())
        }
    }
}

/// The stamps, none of which is set.
#[tactic(auto, using(crate::proofs::Starts::stamps_turn))]
fn initial_stamps(
    alloc: Global,
    structs: &[Struct],
    known: &[Option<Laid>],
    globals: &[Variable],
) -> Result<Sequence<Option<u32>>, NoMemory>
    requires { IsLaid known.now structs.now }
    ensures { IfOk result (λ stamps. stamps ≡ whole.initial_stamps structs.now globals.now) }
{
    let mut stamps = Sequence::new(alloc);
    for global in globals {
        let count = stamps_of(alloc, structs, known, global)?;
        push_none(&mut stamps, count)?;
    }
    Ok(stamps)
}

/// The state in which a program starts: each variable has its initial values, no stamp is set, and no call is made.
///
/// # Errors
/// `NoMemory` if memory runs out.
#[tactic(auto, unfolding(c_meaning::specs::After::start))]
pub fn start(alloc: Global, core: &Core) -> Result<State, NoMemory>
    ensures { IfOk result (λ state. state ≡ whole.start core.now) }
{
    let structs = core.structs.as_slice();
    let known = structs_laid(alloc, structs)?;
    let globals = initial_objects(alloc, structs, known.as_slice(), core.globals.as_slice())?;
    let stamps = initial_stamps(alloc, structs, known.as_slice(), core.globals.as_slice())?;
    Ok(State {
        globals,
        calls: Sequence::new(alloc),
        stamps,
        outputs: Sequence::new(alloc),
        block: None,
        marks: 0,
    })
}
