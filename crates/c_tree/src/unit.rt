use crate::declarations::{Declaration, Declr, Duration, Init};
use crate::expression::Expr;
use crate::qualified::{Qual, Spec};
use crate::statements::Compound;
use base16::Name;
use sqlite_items::Items;

/// Members of one base type (C99 6.7.2.1).
#[derive(Drop)]
pub struct Member {
    pub spec: Spec,
    pub declrs: Items<Declr>,
}

/// A struct with its tag, and the line of its first token (C99 6.7.2.1).
#[derive(Drop)]
pub struct Struct {
    pub name: Name,
    pub members: Items<Member>,
    pub line: u32,
}

/// A parameter: its base, the qualifiers of each `*`, its name, the first pair of brackets with the size that may
/// stand in it, and the sizes in the others (C99 6.7.5.3).
#[derive(Drop)]
pub struct Param {
    pub spec: Spec,
    pub stars: Items<Items<Qual>>,
    pub name: Option<Name>,
    pub first_bound: Option<Option<Expr>>,
    pub bounds: Items<Expr>,
}

/// What stands in the parentheses of a function (C99 6.7.5.3).
#[derive(Drop)]
pub enum Params {
    /// `()`, or `(void)`.
    Void { is_written: bool },
    List(Items<Param>),
}

/// A function, or a prototype where it has no body, and the line of its first token (C99 6.9.1). The qualifiers
/// are those of each `*` before the name.
#[derive(Drop)]
pub struct Function {
    pub spec: Spec,
    pub stars: Items<Items<Qual>>,
    pub name: Name,
    pub params: Params,
    pub body: Option<Compound>,
    pub line: u32,
}

/// A part of a source outside functions (C99 6.9).
#[derive(Drop)]
pub enum External {
    /// A struct, and the objects of its type that are declared with it.
    Struct {
        defined: Struct,
        inits: Items<Init>,
    },
    Function {
        is_static: bool,
        function: Function,
    },
    /// A declaration, and the lifetime of `@expires_after`.
    Declaration {
        is_static: bool,
        lifetime: Option<Duration>,
        declaration: Declaration,
    },
}

/// A whole source (C99 6.9).
#[derive(Drop)]
pub struct Tree {
    pub externals: Items<External>,
}
