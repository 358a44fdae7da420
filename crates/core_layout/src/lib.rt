//! Where the variables of a program stand: the layouts of types, and the scalars of the variables with their names.
#![tactic(auto)]

mod laws;
mod layouts;
mod names;
#[cfg(test)]
mod tests;
mod texts;
mod variables;

pub use laws::{
    frames_lie_apart, scalars_are_aligned, scalars_fit, scalars_rise, sizes_are_even,
    stamps_lie_behind, variables_lie_apart,
};
pub use layouts::{Laid, slots_of, small_type_laid, structs_laid};
pub use variables::scalars;
