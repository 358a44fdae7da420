//! The typed tree of a program: what is left of a source once it is checked.
#![tactic(auto)]

mod expressions;
mod extent;
mod kinds;
mod measure;
mod measure_expressions;
mod measure_statements;
mod program;
mod rows;
mod sizes;
mod statements;
mod totals;
mod types;
mod whole_types;

pub use expressions::{Expr, ExprKind, Place, PlaceKind};
pub use kinds::{int_type_of, is_pointer, kind_of, target_of};
pub use program::{Core, Function, Global, Initial, Typed};
pub use sizes::{offset_of, size_of};
pub use statements::{Group, Init, Stmt, StmtKind};
pub use totals::{code_cost, frame_bytes, height_of, nodes};
pub use types::{Member, Slot, Struct, Ty};
pub use whole_types::{copy_type, same_type};
