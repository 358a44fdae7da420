//! What a source calls and defines: the names of the functions that it defines, the first call of one that it does not
//! define, and whether it has annotations about time.
#![tactic(auto)]

mod annotations;
mod declarations;
mod expressions;
mod names;
mod search;
mod source;
mod statements;

pub use annotations::has_annotations;
pub use names::{is_builtin, is_one_of};
pub use source::{definitions, first_undefined};
