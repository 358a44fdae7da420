use core_tree::{Expr, Place};
use sqlite_items::Boxed;

/// The functions that every source has.
#[derive(Clone, Copy, Debug, PartialEq, Eq)]
pub enum Builtin {
    Sense,
    Emit,
    Checkpoint,
}

/// What an expression stands for before it is used.
#[derive(Drop)]
pub enum Operand {
    /// A value, of type `void` too.
    Value(Boxed<Expr>),
    /// A place, and whether it is const.
    Place { place: Boxed<Place>, readonly: bool },
    /// A function, by its place among those declared.
    Function { place: u16 },
    Builtin(Builtin),
}
