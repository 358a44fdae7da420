use crate::qualified::{Qual, Spec};
use base16::{BinaryOp, Name, UnaryOp};
use sqlite_items::{Boxed, Items};

/// An expression and the line of its first token (C99 6.5).
#[cycle(expr)]
#[derive(Drop)]
pub struct Expr {
    pub kind: ExprKind,
    pub line: u32,
}

/// What an expression is. One that is a single part of a rule is that part, and parentheses stay.
#[cycle(expr)]
#[derive(Drop)]
pub enum ExprKind {
    Name(Name),
    /// The value is at most 65,535; whether it is written in decimal, and whether it has a `u`.
    Number {
        value: u32,
        decimal: bool,
        unsigned: bool,
    },
    /// A character constant by its byte.
    Char(u8),
    /// `( of )`
    Paren(Boxed<Expr>),
    /// `of [ at ]`
    Index {
        of: Boxed<Expr>,
        at: Boxed<Expr>,
    },
    /// `callee ( arguments )`
    Call {
        callee: Boxed<Expr>,
        arguments: Items<Expr>,
    },
    /// `of . name`
    Member {
        of: Boxed<Expr>,
        name: Name,
    },
    /// `of -> name`
    Arrow {
        of: Boxed<Expr>,
        name: Name,
    },
    /// `of ++`
    PostIncrement(Boxed<Expr>),
    /// `of --`
    PostDecrement(Boxed<Expr>),
    /// `++ of`
    PreIncrement(Boxed<Expr>),
    /// `-- of`
    PreDecrement(Boxed<Expr>),
    /// `& of`
    AddressOf(Boxed<Expr>),
    /// `* of`
    Deref(Boxed<Expr>),
    /// `+ of`, `- of`, `~ of` or `! of`
    Unary {
        op: UnaryOp,
        of: Boxed<Expr>,
    },
    /// `sizeof of`
    SizeofExpr(Boxed<Expr>),
    /// `sizeof ( of )`, of a type
    SizeofType(Boxed<Typename>),
    /// `( to ) of`
    Cast {
        to: Boxed<Typename>,
        of: Boxed<Expr>,
    },
    /// `left op right` (C99 6.5.5 to 6.5.12)
    Binary {
        left: Boxed<Expr>,
        op: BinaryOp,
        right: Boxed<Expr>,
    },
    /// `left && right`
    And {
        left: Boxed<Expr>,
        right: Boxed<Expr>,
    },
    /// `left || right`
    Or {
        left: Boxed<Expr>,
        right: Boxed<Expr>,
    },
    /// `test ? yes : no`
    Conditional {
        test: Boxed<Expr>,
        yes: Boxed<Expr>,
        no: Boxed<Expr>,
    },
    /// `place = value`, or with an operator `place op= value`
    Assign {
        place: Boxed<Expr>,
        op: Option<BinaryOp>,
        value: Boxed<Expr>,
    },
    /// `left , right`
    Comma {
        left: Boxed<Expr>,
        right: Boxed<Expr>,
    },
}

/// The name of a type: a base, the qualifiers of each `*`, and the sizes of arrays (C99 6.7.6).
#[cycle(expr)]
#[derive(Drop)]
pub struct Typename {
    pub spec: Spec,
    pub stars: Items<Items<Qual>>,
    pub bounds: Items<Expr>,
}
