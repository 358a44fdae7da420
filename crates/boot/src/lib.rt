//! The boot: the undo log is rolled back, the working segment and the registers come from the current slot.
#![tactic(auto)]

mod booting;

pub use booting::boot;
