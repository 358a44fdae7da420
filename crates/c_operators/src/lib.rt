//! What operators make of values (C99 6.5.3.3, 6.5.5 to 6.5.15 and 6.5.17 in this profile), or the least rule that is
//! broken.
#![tactic(auto)]

mod arithmetic;
mod branches;
mod logic;
mod pointers;

pub use arithmetic::{binary, unary};
pub use branches::conditional;
pub use logic::{both, either, sequence};
