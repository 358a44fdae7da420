//! How the run of a program begins: the state in which it starts, and what a call needs to know of its function.
#![tactic(auto)]

mod entering;
mod frames;
mod names;
mod starting;

pub use entering::{enter, set_params};
pub use frames::Program;
pub use names::{is_main, kinds, main_of, result_of};
pub use starting::start;
