//! The helper routines of compiled code: arithmetic that the 16-bit core has no instruction for.
#![tactic(auto)]

mod words;

pub use words::{Helper, routine};
