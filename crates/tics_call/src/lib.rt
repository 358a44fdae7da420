//! The program as one call, over files, a sink, the board's memory and a history.
#![tactic(auto)]

mod accept;
mod command;
mod form;
mod meaning;
mod outcome;
mod parts;
mod player;
mod print;
mod source;
mod top;

pub use outcome::NO_MEMORY;
pub use top::tics;
