//! Stores that a power failure undoes: the old word goes into the undo log before the new one is written.
#![tactic(auto)]

mod rolling;
mod storing;

pub use rolling::rollback;
pub use storing::{put, room, store};
