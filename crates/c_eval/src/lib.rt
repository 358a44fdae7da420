//! The interpreter of expressions: what an expression and a place of a program do to a run, as its meaning says. The
//! calls of functions are handed to it.
#![tactic(auto)]

mod asked;
mod eval;
mod pointers;
mod update;

pub use asked::{at, given, tested};
pub use eval::Body;
