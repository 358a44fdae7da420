//! The surface tree: what a source says, rule by rule of the grammar, with the lines of its nodes.
#![tactic(auto)]

mod declarations;
mod expression;
mod extent;
mod measure_declarations;
mod measure_expression;
mod measure_statements;
mod measure_unit;
mod qualified;
mod statements;
mod unit;

pub use declarations::{Declaration, Declr, Duration, Init, Initial, TimeUnit};
pub use expression::{Expr, ExprKind, Typename};
pub use measure_unit::{expr_height, height, nodes};
pub use qualified::{Base, Qual, Sign, Spec};
pub use statements::{BlockItem, Compound, First, Group, Label, Statement, StatementKind, Tname};
pub use unit::{External, Function, Member, Param, Params, Struct, Tree};
