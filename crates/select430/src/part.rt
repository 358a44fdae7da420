use isa430::{Cond, Instr};
use rt430::Helper;

/// A part of the code of a step: an instruction, or what names a step, a function, a helper routine or a check table.
#[derive(Clone, Copy)]
pub enum Part {
    Do(Instr),
    /// An instruction that is not made where the condition holds.
    DoUnless(Cond, Instr),
    /// On at a step of the same function.
    Go(u32),
    /// The same, but not where the condition holds.
    GoUnless(Cond, u32),
    /// The call of a function.
    Enters(u16),
    /// The call of a helper routine.
    Helps(Helper),
    /// A register gets the address of a check table: its number, and the register.
    Names(u32, u8),
}
