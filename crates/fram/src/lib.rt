//! The board's memory: 32,768 words that outlive a power failure.
#![tactic(auto)]

mod memory;

pub use memory::Fram;
