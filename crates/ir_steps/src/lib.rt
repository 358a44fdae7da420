//! The steps of a three-address form that stay in their function: what each does to a run and its temporaries.
#![tactic(auto)]

mod asked;
mod doing;
mod memory;
mod places;
mod services;
mod stamps;
mod temporaries;
mod values;

pub use asked::{STUCK, behind, given};
pub use stamps::stamps_of;
pub use temporaries::{at_depth, operand_of, top_value};
pub use values::Made;
