//! The file of a source: its tree with types, or why it is refused.
#![tactic(auto)]

mod fault;
mod reading;
mod tree;
mod typed;

pub use fault::SourceFault;
pub use reading::{ReadErr, read_source};
pub use typed::Source;
