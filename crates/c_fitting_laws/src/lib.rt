//! Laws on what a source has that its text gives: the tree that a text spells fits, where it calls only what it defines.
#![tactic(auto)]

mod laws;

pub use laws::{calls_fit, lexed_in_range, source_fits, spelled_fits, text_fits};
