//! What statements have beside other statements: their expressions, and the labels of a `switch` (C99 6.8).
#![tactic(auto)]

mod expressions;
mod labels;

pub use expressions::{
    any_of, expr_stmt, maybe_test, maybe_value, result_of, return_stmt, statement_at, switched,
    test_of,
};
pub use labels::{extend, labels_of};
