//! The numbers of stamps: the timed scalars are counted in order of declaration and address.

ghost use Rattle.std.specs.Prelude.{◌≡◌, ◌+◌, IfOk};
ghost use Rattle.core_layout.specs.Laid.{IsLaid};
ghost use Rattle.c_meaning.specs.Stamps as spec;

use base16::NoMemory;
use c_run::Timed;
use c_values::Location;
use core_layout::{Laid, slots_of, structs_laid};
use core_tree::{Core, Global as Variable, Slot, Struct};
use std::alloc::Global;

/// Which of some scalars stands at an offset, or their number.
#[tactic(auto, using(crate::proofs::Counting::place_turn, crate::proofs::Counting::place_end))]
fn place_in(offset: u32, slots: &[Slot]) -> usize
    ensures { result ≡ spec.place_in offset slots.now }
{
    for (at, slot) in slots.iter().enumerate() {
        if u32::from(slot.offset) == offset {
            return at;
        }
    }
    slots.len()
}

/// A number of stamps behind others; more than a word of 32 bits counts have no place in any memory.
fn behind(before: u32, more: usize) -> Result<u32, NoMemory>
    ensures { IfOk result (λ sum. sum ≡ before + more) }
{
    if more > 0xFFFF {
        return Err(NoMemory);
    }
    before.checked_add(more as u32).ok_or(NoMemory)
}

/// How many stamps a variable has.
fn stamps_of(
    alloc: Global,
    _structs: &[Struct],
    known: &[Option<Laid>],
    variable: &Variable,
) -> Result<usize, NoMemory>
    requires { IsLaid known.now _structs.now }
    ensures { IfOk result (λ stamps. stamps ≡ spec.stamps_of _structs.now variable.now) }
{
    if variable.lifetime.is_none() {
        return Ok(0);
    }
    let slots = slots_of(alloc, _structs, known, &variable.ty)?;
    Ok(slots.as_slice().len())
}

/// The timed scalar at an offset of a variable.
#[tactic(auto, using(crate::proofs::Counting::timed_here, crate::proofs::Counting::timed_later, crate::proofs::Counting::timed_end))]
fn timed_in(
    alloc: Global,
    _structs: &[Struct],
    known: &[Option<Laid>],
    variables: &[Variable],
    number: u64,
    offset: u32,
) -> Result<Timed, NoMemory>
    requires { IsLaid known.now _structs.now }
    ensures { IfOk result (λ timed. timed ≡ spec.timed_in _structs.now 0 variables.now number offset) }
{
    let mut before: u32 = 0;
    for (at, variable) in variables.iter().enumerate() {
        if at as u64 == number {
            let slots = slots_of(alloc, _structs, known, &variable.ty)?;
            return Ok(Timed {
                stamp: behind(before, place_in(offset, slots.as_slice()))?,
                lifetime: variable.lifetime.unwrap_or(0),
            });
        }
        before = behind(before, stamps_of(alloc, _structs, known, variable)?)?;
    }
    Ok(Timed {
        stamp: before,
        lifetime: 0,
    })
}

/// The timed scalar at a place.
pub fn timed_at(alloc: Global, core: &Core, place: Location) -> Result<Timed, NoMemory>
    ensures { IfOk result (λ timed. timed ≡ spec.timed_at core.now place) }
{
    let Some(number) = place.object else {
        return Ok(Timed {
            stamp: 0,
            lifetime: 0,
        });
    };
    let structs = core.structs.as_slice();
    let known = structs_laid(alloc, structs)?;
    timed_in(
        alloc,
        structs,
        known.as_slice(),
        core.globals.as_slice(),
        number,
        place.offset,
    )
}
