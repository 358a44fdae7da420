//! What programs come to by their images, on the machine with unbroken power.

ghost use Rattle.ideal430.specs.Loaded.{IsLoadable};

use base16::board::OUTPUTS;
use base16::{Image, Kind, Reading, Scalar};
use c_meaning::CState;
use c_values::{Object, State, Value, word_of};
use codegen::{GenErr, emit_code};
use core_tree::Core;
use ideal430::{IdealEnd, IdealState, ideal_run};
use ir::Ir;
use std::alloc::{AllocError, Global};

/// How often the number of instructions is doubled that a run gets, from 64 on.
const DOUBLINGS: u32 = 22;

/// The word at an address.
fn word_at(machine: &IdealState, address: u16) -> u16 {
    match machine.words.as_slice().get(usize::from(address / 2)) {
        None => 0,
        Some(word) => *word,
    }
}

/// What a scalar holds.
fn held(machine: &IdealState, scalar: &Scalar) -> u16 {
    let word = word_at(machine, scalar.address);
    if !matches!(scalar.kind, Kind::Char) {
        word
    } else if scalar.address % 2 == 0 {
        word % 256
    } else {
        word / 256
    }
}

/// The address of a variable, by the number of its object: that of its first scalar.
fn address_of(objects: &[Object], scalars: &[Scalar], number: u64) -> Option<u16> {
    let mut first: usize = 0;
    for object in objects {
        if object.number == number {
            return Some(scalars.get(first)?.address);
        }
        first = first.saturating_add(object.cells.as_slice().len());
    }
    None
}

/// How a value stands in a scalar; of what is not defined, and of a pointer to a local, nothing is said.
fn code_of(objects: &[Object], scalars: &[Scalar], value: Value) -> Option<u16> {
    match value {
        Value::Int(number) => Some(word_of(number)),
        Value::Pointer { object, offset } => {
            Some(address_of(objects, scalars, object)?.wrapping_add(offset))
        }
        Value::Null => Some(0),
        Value::Undefined => None,
    }
}

/// Whether a scalar holds a value.
fn holds(
    machine: &IdealState,
    objects: &[Object],
    scalars: &[Scalar],
    at: usize,
    value: Value,
) -> bool {
    let Some(scalar) = scalars.get(at) else {
        return false;
    };
    match code_of(objects, scalars, value) {
        None => true,
        Some(code) => held(machine, scalar) == code,
    }
}

/// Whether the variables hold the values of a state.
fn variables_agree(machine: &IdealState, scalars: &[Scalar], state: &State) -> bool {
    let objects = state.globals.as_slice();
    let mut at: usize = 0;
    for object in objects {
        for cell in object.cells.as_slice() {
            if !holds(machine, objects, scalars, at, cell.value) {
                return false;
            }
            at = at.saturating_add(1);
        }
    }
    at == scalars.len()
}

/// Whether the outputs are those of a state.
fn outputs_agree(machine: &IdealState, state: &State) -> bool {
    let outputs = state.outputs.as_slice();
    if usize::from(word_at(machine, OUTPUTS)) != outputs.len() {
        return false;
    }
    let mut address = OUTPUTS;
    for output in outputs {
        address = address.wrapping_add(2);
        if word_at(machine, address) != *output {
            return false;
        }
    }
    true
}

/// Whether a machine is in a state, after as many marks.
fn agrees(machine: &IdealState, image: &Image, state: &State) -> bool {
    machine.services == state.marks
        && variables_agree(machine, image.symbols.scalars.as_slice(), state)
        && outputs_agree(machine, state)
}

/// Whether a machine stands where a program does, of whose undefined states nothing is said.
fn stands_at(machine: &IdealState, image: &Image, wanted: &CState) -> bool {
    match wanted {
        CState::Live { state } => {
            matches!(machine.end, IdealEnd::Running) && agrees(machine, image, state)
        }
        CState::Ended { kind, state } => {
            machine.end == IdealEnd::Ended(*kind) && agrees(machine, image, state)
        }
        CState::NeedsReading => matches!(machine.end, IdealEnd::NeedsReading),
        CState::Undefined { .. } => true,
    }
}

/// Where a run stands just behind its mark of this number, which it makes as one of the instructions from `low` to `high`.
fn behind_mark(
    alloc: Global,
    image: &Image,
    readings: &[Reading],
    marks: u32,
    low: u32,
    high: u32,
) -> Result<IdealState, AllocError>
    requires { IsLoadable image.now.code image.now.globals }
{
    let mut low = low;
    let mut high = high;
    for _halving in 0..32 {
        if low >= high {
            break;
        }
        let middle = low + (high - low) / 2;
        let Ok(machine) = ideal_run(alloc, image, readings, middle) else {
            return Err(AllocError);
        };
        if machine.services >= marks {
            high = middle;
        } else {
            low = middle + 1;
        }
    }
    match ideal_run(alloc, image, readings, high) {
        Ok(machine) => Ok(machine),
        Err(_) => Err(AllocError),
    }
}

/// Where a run stands just behind its mark of this number, or where it stopped earlier; none where it takes too long.
fn machine_after(
    alloc: Global,
    image: &Image,
    readings: &[Reading],
    marks: u32,
) -> Result<Option<IdealState>, AllocError>
    requires { IsLoadable image.now.code image.now.globals }
{
    let mut low: u32 = 0;
    let mut high: u32 = 64;
    for _doubling in 0..DOUBLINGS {
        let Ok(machine) = ideal_run(alloc, image, readings, high) else {
            return Err(AllocError);
        };
        if machine.services >= marks {
            return Ok(Some(behind_mark(alloc, image, readings, marks, low, high)?));
        }
        if !matches!(machine.end, IdealEnd::Running) {
            return Ok(Some(machine));
        }
        low = high;
        high = high.saturating_mul(2);
    }
    Ok(None)
}

/// Whether the image of a program stands where the program does after so many marks. A program that is refused has none.
pub fn comes_to(
    alloc: Global,
    core: &Core,
    ir: &Ir,
    readings: &[Reading],
    marks: u32,
    wanted: &CState,
) -> Result<bool, AllocError> {
    match emit_code(alloc, core, ir) {
        Ok(image) => match machine_after(alloc, &image, readings, marks)? {
            None => Ok(false),
            Some(machine) => Ok(stands_at(&machine, &image, wanted)),
        },
        Err(GenErr::NoMemory) => Err(AllocError),
        Err(_) => Ok(true),
    }
}
