//! The rules of typed expressions: which are constant, and the tables of types.
#![tactic(auto)]

mod constants;
mod tables;

pub use constants::{constant, value};
pub use tables::{
    balanced, branches, casts, computed_in, converts, is_comparison, is_equality, is_integer,
    is_order, is_scalar, is_shift, is_value, promoted, result_in, right_in, takes, takes_one,
    takes_with_zero, takes_zero,
};
