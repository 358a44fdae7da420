//! Places: what an index, a member, `*` and `&` are, and stores, or the least rule that is broken.
#![tactic(auto)]

mod index;
mod members;
mod pointers;
mod stores;
mod updates;

pub use index::indexed;
pub use members::{arrow, member};
pub use pointers::{address, deref};
pub use stores::assigned;
pub use updates::{operand_type, stepped, updated};
