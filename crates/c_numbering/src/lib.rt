//! The numbers of the nodes of a program: in the order of the text from 0, a node before its parts.
#![tactic(auto)]

mod expressions;
mod program;
mod statements;

pub use program::numbered;
