//! Laws on numbering: what is lawful before its nodes are numbered is lawful behind it, and its numbers count from 0.
#![tactic(auto)]

mod laws;

pub use laws::{
    expressions_count, expressions_stay_lawful, numbered_is_lawful, programs_count,
    statements_count, statements_stay_lawful,
};
