//! One step of the 16-bit core: registers and memory after one instruction (MSP430 user's guide, 16-bit CPU).
#![tactic(auto)]

mod arithmetic;
mod change;
mod instruction;
mod laws;
mod machine;
mod memory;
mod operand;
mod plain;
mod registers;
mod status;

pub use laws::{gates_only_refuse, steps_change_their_bytes, steps_depend_on_uses};
pub use machine::{Ready, Stepped, execute, fetch, step};
pub use memory::{Denied, Memory};
pub use plain::PlainMemory;
