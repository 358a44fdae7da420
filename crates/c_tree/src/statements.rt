use crate::declarations::{Declaration, Duration};
use crate::expression::Expr;
use base16::Name;
use sqlite_items::{Boxed, Items};

/// A name in `@expires`, with the index of an array's element.
#[derive(Drop)]
pub struct Tname {
    pub name: Name,
    pub index: Option<Expr>,
}

/// A label in a `switch` (C99 6.8.1).
#[derive(Drop)]
pub enum Label {
    Case(Expr),
    Default,
}

/// What stands before the first `;` of a `for`; that of a declaration is its own.
#[derive(Drop)]
pub enum First {
    Expr(Option<Expr>),
    Declaration(Declaration),
}

/// A statement and the line of its first token (C99 6.8).
#[cycle(statement)]
#[derive(Drop)]
pub struct Statement {
    pub kind: StatementKind,
    pub line: u32,
}

/// What a statement is.
#[cycle(statement)]
#[derive(Drop)]
pub enum StatementKind {
    Compound(Compound),
    /// An expression and `;`, or `;` alone.
    Expr(Option<Expr>),
    If {
        test: Expr,
        yes: Boxed<Statement>,
        no: Option<Boxed<Statement>>,
    },
    While {
        test: Expr,
        body: Boxed<Statement>,
    },
    Do {
        body: Boxed<Statement>,
        test: Expr,
    },
    For {
        first: First,
        test: Option<Expr>,
        step: Option<Expr>,
        body: Boxed<Statement>,
    },
    Switch {
        on: Expr,
        groups: Items<Group>,
    },
    Break,
    Continue,
    Return(Option<Expr>),
    /// `place @= value ;`
    Stamped {
        place: Expr,
        value: Expr,
    },
    /// `@timely ( place , limit ) yes else no`
    Timely {
        place: Expr,
        limit: Duration,
        yes: Boxed<Statement>,
        no: Option<Boxed<Statement>>,
    },
    /// `@expires ( names ) body catch caught`
    Expires {
        names: Items<Tname>,
        body: Compound,
        caught: Compound,
    },
}

/// Declarations and statements in braces (C99 6.8.2).
#[cycle(statement)]
#[derive(Drop)]
pub struct Compound {
    pub items: Items<BlockItem>,
}

/// A part of a compound (C99 6.8.2).
#[cycle(statement)]
#[derive(Drop)]
pub enum BlockItem {
    Declaration(Declaration),
    Statement(Statement),
}

/// Labels of a `switch` and the statements below them.
#[cycle(statement)]
#[derive(Drop)]
pub struct Group {
    pub labels: Items<Label>,
    pub statements: Items<Statement>,
}
