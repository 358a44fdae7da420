//! What checked expressions are made with: nodes without a number, what an operand is as a value, conversions, and what
//! tags, members and types stand for where names are declared.
#![tactic(auto)]

mod nodes;
mod scopes;
mod types;
mod values;

pub use nodes::{broken, placed, typed};
pub use scopes::{FoundMember, find_member, is_const_member, tag_of};
pub use types::{is_complete, is_marked, is_sized};
pub use values::{converted, null, to_int, value};
