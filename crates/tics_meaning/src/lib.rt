//! What a program means on the readings of a file: its state behind the most marks, as text.
#![tactic(auto)]

mod asking;
mod fault;
mod readings;
mod telling;

pub use asking::{AskErr, Asked, ask};
pub use fault::ReadingsFault;
pub use telling::text_of;
