//! What stands at file scope beside functions: structs and variables (C99 6.7.2.1 and 6.9.2).
#![tactic(auto)]

mod names;
mod structs;
mod variables;

pub use names::has_twice;
pub use structs::{Fields, structure, structure_with};
pub use variables::{globals, struct_globals};
