//! Runs of C programs as far as they have gone, and what a program does to them, one action each: what the meaning of
//! the tree and the run of the three-address form are both made of.
#![tactic(auto)]

mod block;
mod fresh;
mod halt;
mod put;
mod run;
mod timed;

pub use fresh::{fresh_object, fresh_objects};
pub use halt::Halt;
pub use run::Run;
pub use timed::Timed;
