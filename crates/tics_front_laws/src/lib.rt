//! Laws on the sources that are programs: what the rules of the language accept is lawful, and meets only the rules of undefined
//! behaviour.
#![tactic(auto)]

mod laws;

pub use laws::{programs_are_lawful, programs_meet_only_the_rules};
