//! The state in which a form starts.

ghost use Rattle.std.specs.Prelude.{◌≡◌, ◌++◌, option_copied, IfOk, OnOk};
ghost use Rattle.ir.specs.Machine as spec;
ghost use Rattle.ir_run.specs.Starting as starting;

use base16::{NoMemory, Sequence};
use c_values::{Cell, Cells, Object, State, Value};
use core_tree::Slot;
use ir::{Ir, IrGlobal};
use ir_steps::stamps_of;
use std::alloc::Global;

/// A scalar with its initial value, if it has one.
fn initial_cell(slot: Slot, initial: Option<&Value>) -> Cell
    ensures { result ≡ starting.initial_cell slot (option_copied initial.entry) }
{
    let value = match initial {
        None => Value::Undefined,
        Some(value) => *value,
    };
    Cell {
        offset: slot.offset,
        kind: slot.kind,
        value,
    }
}

/// The scalars of a variable.
#[tactic(auto, using(crate::proofs::Starts::cells_turn))]
fn initial_cells(alloc: Global, slots: &[Slot], inits: &[Value]) -> Result<Cells, NoMemory>
    ensures { IfOk result (λ cells. cells ≡ spec.initial_cells slots.now inits.now) }
{
    let mut cells = Vec::new(alloc);
    for at in 0..slots.len() {
        cells.push(initial_cell(slots[at], inits.get(at)))?;
    }
    Ok(Cells::from_vec(cells))
}

/// The variables, in order.
#[tactic(auto, using(crate::proofs::Starts::globals_turn))]
fn initial_objects(alloc: Global, globals: &[IrGlobal]) -> Result<Sequence<Object>, NoMemory>
    ensures { IfOk result (λ objects. objects ≡ spec.initial_objects 0 globals.now) }
{
    let mut objects = Sequence::new(alloc);
    let mut number: u64 = 0;
    for global in globals {
        let cells = initial_cells(alloc, global.scalars.as_slice(), global.init.as_slice())?;
        objects.push(Object { number, cells })?;
        number += 1;
    }
    Ok(objects)
}

/// Adds so many stamps that are not set.
#[tactic(auto, using(crate::proofs::Starts::none_end))]
fn push_none(stamps: &mut Sequence<Option<u32>>, count: usize) -> Result<(), NoMemory>
    ensures { OnOk result (stamps.new ≡ stamps.old ++ spec.no_stamps count) }
{
    for _stamp in 0..count {
        stamps.push(None)?;
    }
    Ok(())
}

/// The stamps, none of which is set.
#[tactic(auto, using(crate::proofs::Starts::stamps_turn))]
fn initial_stamps(alloc: Global, globals: &[IrGlobal]) -> Result<Sequence<Option<u32>>, NoMemory>
    ensures { IfOk result (λ stamps. stamps ≡ spec.initial_stamps globals.now) }
{
    let mut stamps = Sequence::new(alloc);
    for global in globals {
        push_none(&mut stamps, stamps_of(global))?;
    }
    Ok(stamps)
}

/// The state in which a form starts: each variable has its initial values, no stamp is set, and no call is made.
#[tactic(auto, unfolding(ir::specs::Machine::start))]
pub fn start(alloc: Global, ir: &Ir) -> Result<State, NoMemory>
    ensures { IfOk result (λ state. state ≡ spec.start ir.now) }
{
    let globals = initial_objects(alloc, ir.globals.as_slice())?;
    let stamps = initial_stamps(alloc, ir.globals.as_slice())?;
    Ok(State {
        globals,
        calls: Sequence::new(alloc),
        stamps,
        outputs: Sequence::new(alloc),
        block: None,
        marks: 0,
    })
}
