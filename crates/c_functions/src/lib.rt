//! Functions and prototypes (C99 6.7.5.3 and 6.9.1).
#![tactic(auto)]

mod bodies;
mod functions;
mod heads;
mod names;
mod parameters;
mod rules;

pub use functions::function;
