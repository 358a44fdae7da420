//! The numbers of stamps: the timed scalars are counted in order of declaration and address.

ghost use Rattle.std.specs.Prelude.{◌≡◌, ◌+◌, IfOk};
ghost use Rattle.ir.specs.Machine as spec;

use base16::NoMemory;
use core_tree::Slot;
use ir::IrGlobal;

/// Which of some scalars stands at an offset, or their number.
#[tactic(auto, using(crate::proofs::Counting::place_turn, crate::proofs::Counting::place_end))]
fn place_in(offset: u32, slots: &[Slot]) -> usize
    ensures { result ≡ spec.place_in offset slots.now }
{
    for (at, slot) in slots.iter().enumerate() {
        if u32::from(slot.offset) == offset {
            return at;
        }
    }
    slots.len()
}

/// A number of stamps behind others; more than a word of 32 bits counts have no place in any memory.
fn later(before: u32, more: usize) -> Result<u32, NoMemory>
    ensures { IfOk result (λ sum. sum ≡ before + more) }
{
    if more > 0xFFFF {
        return Err(NoMemory);
    }
    before.checked_add(more as u32).ok_or(NoMemory)
}

/// How many stamps a variable has.
pub fn stamps_of(variable: &IrGlobal) -> usize
    ensures { result ≡ spec.stamps_of variable.now }
{
    match variable.lifetime {
        None => 0,
        Some(_) => variable.scalars.len(),
    }
}

/// The stamp of the scalar at an offset of a variable.
#[tactic(auto, using(crate::proofs::Counting::stamp_here, crate::proofs::Counting::stamp_later, crate::proofs::Counting::stamp_end))]
pub fn stamp_in(variables: &[IrGlobal], number: u32, offset: u32) -> Result<u32, NoMemory>
    ensures { IfOk result (λ stamp. stamp ≡ spec.stamp_in 0 variables.now number offset) }
{
    let mut before: u32 = 0;
    for (at, variable) in variables.iter().enumerate() {
        if at as u64 == u64::from(number) {
            return later(before, place_in(offset, variable.scalars.as_slice()));
        }
        before = later(before, stamps_of(variable))?;
    }
    Ok(0)
}
