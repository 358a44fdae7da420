//! Checking a whole source, as definitions: from the surface tree to the typed tree, or the first fault.
#![tactic(auto)]

mod draft;

pub use draft::{Draft, Parameter};
