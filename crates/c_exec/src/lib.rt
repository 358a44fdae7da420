//! The interpreter of statements: what the statements of a body do to a run, as their meaning says.
#![tactic(auto)]

mod exec;
mod groups;
mod parts;
mod text;
mod time;

pub use exec::{stmt, stmts};
