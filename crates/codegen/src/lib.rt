//! The code of a whole program: its items, its image, and that the machine with unbroken power follows the program on it.
#![tactic(auto)]

mod adding;
mod data;
mod errors;
mod generation;
mod items;
mod labels;
mod laws;
mod refusals;
mod routines;
mod sums;
mod symbols;
mod tables;
mod words;

pub use errors::GenErr;
pub use generation::emit_code;
pub use laws::images_simulate_their_programs;
