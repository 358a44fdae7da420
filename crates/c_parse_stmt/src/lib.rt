//! Declarations and statements: which of them a list of tokens begins with (C99 6.7 and 6.8). Types and expressions are
//! read below, whole sources above.
#![tactic(auto)]

mod compounds;
mod declarations;
mod simple_statements;
mod statement_parts;
mod statements;

pub use declarations::{read_declaration, read_declaration_rest, read_duration, read_inits};
pub use statement_parts::unclosed;
pub use statements::read_compound;
