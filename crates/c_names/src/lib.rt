//! Names, constants, calls, the names of types, `sizeof` and casts, or the least rule that is broken.
#![tactic(auto)]

mod arguments;
mod builtins;
mod calls;
mod lines;
mod names;
mod sizes;
mod typenames;

pub use calls::called;
pub use names::{character, named, number};
pub use sizes::{array_size, as_size, cast, count_of, size_of_named, size_of_operand};
pub use typenames::{arrays, base_type, has_const, pointed};
