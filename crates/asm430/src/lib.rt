//! The assembler of the 16-bit MSP430 core, and the printed listing of a program.
#![tactic(auto)]

mod assembler;
mod faults;
mod item;
mod places;
mod printed;

pub use assembler::assemble;
pub use item::{AsmErr, Item};
pub use printed::{code_is_read_in_one_way, listing};
