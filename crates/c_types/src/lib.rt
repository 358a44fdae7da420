//! What a whole source is by the rules of the language: its typed tree, or the first fault (C99 6.9).
#![tactic(auto)]

mod program;
mod walk;

pub use program::check;
