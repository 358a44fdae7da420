//! The instructions of each step of the three-address form, as items for the assembler, and the labels that they use.
#![tactic(auto)]

mod computing;
mod frames;
mod instrs;
mod laws;
mod operands;
mod part;
mod selection;
mod steps;
mod timing;

pub use laws::{items_keep_to_their_step, labels_differ, steps_stand_at_their_labels};
pub use part::Part;
pub use selection::select;
