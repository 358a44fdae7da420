use crate::expression::Expr;
use crate::qualified::{Qual, Spec};
use base16::Name;
use sqlite_items::Items;

/// The word after the number of a duration: `ms`, `s` or `min`.
#[derive(Clone, Copy, Debug, PartialEq, Eq)]
pub enum TimeUnit {
    Milliseconds,
    Seconds,
    Minutes,
}

/// A number and its unit of time. The value is at most 65,535; whether it is written in decimal, and whether it
/// has a `u`.
#[derive(Clone, Copy, Debug, PartialEq, Eq)]
pub struct Duration {
    pub value: u32,
    pub decimal: bool,
    pub unsigned: bool,
    pub unit: TimeUnit,
}

/// A declarator: the qualifiers of each `*`, the name, and the sizes of arrays (C99 6.7.5).
#[derive(Drop)]
pub struct Declr {
    pub stars: Items<Items<Qual>>,
    pub name: Name,
    pub bounds: Items<Expr>,
}

/// What stands after the `=` of a declarator (C99 6.7.8).
#[derive(Drop)]
pub enum Initial {
    Assign(Expr),
    /// A brace list, whether a comma stands after its last item, and the line of its `{`.
    List {
        items: Items<Initial>,
        last_comma: bool,
        line: u32,
    },
}

/// A declarator, with or without an initialiser, and the line of its first token.
#[derive(Drop)]
pub struct Init {
    pub declr: Declr,
    pub initial: Option<Initial>,
    pub line: u32,
}

/// A declaration of objects of one base type (C99 6.7).
#[derive(Drop)]
pub struct Declaration {
    pub spec: Spec,
    pub inits: Items<Init>,
}
