//! Assembled items as code that stands in memory: the step from what the assembler promises to the rules for running code.
#![tactic(auto)]

mod laws;

pub use laws::assembled_code_is_placed;
