//! The printed text of a state of a program.
#![tactic(auto)]

mod node_lines;
mod places;
mod printing;

pub use node_lines::line_of;
pub use printing::state_text;
