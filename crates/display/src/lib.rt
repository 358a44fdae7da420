//! What a commit shows: the scalars, stamps and outputs that differ from those at the last commit.
#![tactic(auto)]

mod index;
mod log;
mod sets;

pub use index::ScalarIndex;
pub use sets::{MOST_SETS, sets_since};
