//! The parser: which tree a list of tokens spells.
#![tactic(auto)]

mod externals;
mod functions;
mod laws;
mod whole;

pub use c_parse_expr::{ParseErr, parse_expression};
pub use laws::one_tree_for_each_list;
pub use whole::parse;
