//! How a compiled program comes onto the board: all words of its memory are set, for a start at the program's first word.
#![tactic(auto)]

mod loading;

pub use loading::load;
