//! The three-address form of a program, made as its definition says.
#![tactic(auto)]

mod cases;
mod choices;
mod emit;
mod expressions;
mod few;
mod functions;
mod initialisers;
mod kinds;
mod laying;
mod locals;
mod openings;
mod parts;
mod sizes;
mod statements;
mod stmt_parts;
mod stmt_sizes;
mod variables;
mod whole;

pub use whole::generate;
