//! Initialisers (C99 6.7.8): the stores of a local, and what a file-scope variable begins with.
#![tactic(auto)]

mod constants;
mod lists;
mod objects;
mod scalars;
mod storing;
mod values;

pub use constants::{FoundAddress, address, initial_value};
pub use objects::{begun, stored};
