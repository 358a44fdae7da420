use crate::expressions::{Expr, Place};
use sqlite_items::{Boxed, Items};

/// A statement.
#[cycle(stmt)]
#[derive(Drop)]
pub struct Stmt {
    pub kind: StmtKind,
    pub node: u32,
    pub line: u32,
}

/// What a statement is.
#[cycle(stmt)]
#[derive(Drop)]
pub enum StmtKind {
    Expr(Expr),
    Block(Items<Stmt>),
    If {
        test: Expr,
        yes: Boxed<Stmt>,
        no: Option<Boxed<Stmt>>,
    },
    While {
        test: Expr,
        body: Boxed<Stmt>,
    },
    Do {
        body: Boxed<Stmt>,
        test: Expr,
    },
    For {
        first: Option<Boxed<Stmt>>,
        test: Option<Expr>,
        step: Option<Expr>,
        body: Boxed<Stmt>,
    },
    Switch {
        on: Expr,
        groups: Items<Group>,
    },
    Break,
    Continue,
    Return(Option<Expr>),
    /// A stamped assignment.
    Stamped {
        place: Place,
        value: Expr,
    },
    /// A test of a stamp's age, in milliseconds.
    Timely {
        place: Place,
        limit: u64,
        yes: Boxed<Stmt>,
        no: Option<Boxed<Stmt>>,
    },
    /// A block that is undone where a named scalar expires.
    Expires {
        names: Items<Place>,
        body: Items<Stmt>,
        catch: Items<Stmt>,
    },
    /// A declaration of one local is reached.
    Declare {
        local: u32,
        init: Items<Init>,
    },
}

/// Labels of a `switch`, of which one without a number is `default`, and the statements below them.
#[cycle(stmt)]
#[derive(Drop)]
pub struct Group {
    pub labels: Items<Option<i64>>,
    pub body: Items<Stmt>,
}

/// A store that an initialiser makes, at an offset in the local; without a value it stores zero.
#[derive(Drop)]
pub struct Init {
    pub offset: u16,
    pub value: Option<Expr>,
    pub marked: bool,
}
