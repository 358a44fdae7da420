//! What statements are, or the first fault in them (C99 6.8).
#![tactic(auto)]

mod declarations;
mod statements;

pub use declarations::locals;
pub use statements::{compound, statement};
