//! Values, objects and states of C programs and the operators on values: what every meaning of a program speaks of.
#![tactic(auto)]

mod cells;
mod comparisons;
mod extent;
mod find;
mod operators;
mod pointers;
mod state;
mod value;
mod values;

pub use cells::Cells;
pub use comparisons::{compared, difference};
pub use find::{accessed, kind_at, object_of};
pub use operators::{as_type, binary, number, truth, unary, word_of};
pub use pointers::{address, element, member_at, moved, pointed, pointer_sum, sum_of};
pub use state::{Call, Object, Saved, State};
pub use value::{Cell, Location, Value};
pub use values::{
    all_present, converted, fit, fitted, integer, numbered, operated, operated_one, present,
    right_type, storable, truth_of, zero_of,
};
