//! The checkpoint: registers, state words and the working segment go into the slot that is not the current one, and then
//! the gate names that slot.
#![tactic(auto)]

mod committing;

pub use committing::commit;
