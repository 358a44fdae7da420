use base16::Name;
use c_typing::Env;
use core_tree::{Function, Global, Ty};
use sqlite_items::Items;

/// A parameter of a function: its name where it has one, its type, and whether it is const.
#[derive(Drop)]
pub struct Parameter {
    pub name: Option<Name>,
    pub ty: Ty,
    pub readonly: bool,
}

/// What a source has declared at file scope up to a point of the text.
#[derive(Drop)]
pub struct Draft {
    pub env: Env,
    /// The variables, each with the number of functions that are defined before it.
    pub globals: Items<Global>,
    /// The functions that are defined.
    pub functions: Items<Function>,
}
