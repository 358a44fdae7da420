//! The interpreter: what a program means, run with unbroken power on a list of readings.
#![tactic(auto)]

mod calls;
mod whole;

pub use whole::meaning;
