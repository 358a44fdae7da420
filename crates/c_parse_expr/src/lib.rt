//! Types and expressions: which of them a list of tokens begins with (C99 6.5, 6.7.2 and 6.7.6). Declarations, statements and
//! whole sources are read above.
#![tactic(auto)]

mod cursor;
mod error;
mod grammar;
mod tables;
mod types;
mod wanted;
mod whole;

pub use cursor::Cursor;
pub use error::ParseErr;
pub use grammar::{read_bounds, read_expr, type_next};
pub use tables::rank;
pub use types::{read_spec, read_stars};
pub use wanted::{Wanted, fits};
pub use whole::parse_expression;
