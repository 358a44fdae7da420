//! Which stamp a timed scalar of a program has, and its lifetime.
#![tactic(auto)]

mod stamps;

pub use stamps::timed_at;
