//! The walk of expressions: what each stands for, or the first fault in it (C99 6.5).
#![tactic(auto)]

mod array_sizes;
mod expressions;
mod leaves;
mod lists;
mod operators;
mod places;

pub use array_sizes::sizes;
pub use expressions::{means, valued};
