//! The printed report of a history.
#![tactic(auto)]

mod lines;

pub use lines::report_lines;
