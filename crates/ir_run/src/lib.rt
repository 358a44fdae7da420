//! The run of a three-address form: its state after a number of marks, on a list of readings.
#![tactic(auto)]

mod calls;
mod entering;
mod starting;
mod whole;

pub use whole::ir_run;
