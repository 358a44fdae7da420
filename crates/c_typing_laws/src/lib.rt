//! Laws on checked expressions: what the rows of nodes answer is lawful where their operands are.
#![tactic(auto)]

mod laws;

pub use laws::{
    assigned_is_lawful, binary_is_lawful, conditional_is_lawful, converted_is_lawful,
    expressions_are_lawful, updated_is_lawful,
};
