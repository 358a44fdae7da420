//! Rules for running code that stands in memory: what a run reads and writes, one rule for each way in which a step
//! ends, and what routines do (MSP430 user's guide, 16-bit CPU).
#![tactic(auto)]

mod laws;
mod running;

pub use laws::{code_is_placed, run_is_steps, runs_compose, runs_depend_on_uses};
pub use running::run;
