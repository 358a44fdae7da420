//! The operators by their tokens (C99 6.5.3 to 6.5.17).

ghost use Rattle.std.specs.Prelude.{◌≡◌, None, MatchOption};
ghost use Rattle.c_parse_expr.specs.Ranks as ranks;
ghost use Rattle.c_parse_expr.specs.Reading as spec;
ghost use Rattle.c_parse_expr.specs.Operators.{joint_of, right_of, prefix_of, operand_of};
ghost use Rattle.c_parse_expr.specs.Tables.{joint, mark_joint, prefix as prefix_spec};

use base16::{BinaryOp, UnaryOp};
use c_lex::{Mark, TokenKind};
use c_tree::{Expr, ExprKind};

/// What stands between two operands.
#[derive(Clone, Copy)]
pub enum Infix {
    Comma,
    Or,
    And,
    Binary(BinaryOp),
    Assign(Option<BinaryOp>),
}

/// What stands before an operand.
#[derive(Clone, Copy)]
pub enum Before {
    Increment,
    Decrement,
    Address,
    Deref,
    Unary(UnaryOp),
}

/// How tightly a binary operator binds.
pub fn level(op: BinaryOp) -> u8
    ensures { result ≡ ranks.level op }
{
    match op {
        BinaryOp::Or => 6,
        BinaryOp::Xor => 7,
        BinaryOp::And => 8,
        BinaryOp::Equal | BinaryOp::NotEqual => 9,
        BinaryOp::Less | BinaryOp::Greater | BinaryOp::LessEq | BinaryOp::GreaterEq => 10,
        BinaryOp::Shl | BinaryOp::Shr => 11,
        BinaryOp::Add | BinaryOp::Sub => 12,
        BinaryOp::Mul | BinaryOp::Div | BinaryOp::Rem => 13,
    }
}

/// How tightly an expression binds.
#[tactic(auto, unfolding(crate::specs::Ranks::rank_of))]
pub fn rank(expr: &Expr) -> u8
    ensures { result ≡ ranks.rank expr.now }
{
    match &expr.kind {
        ExprKind::Comma { .. } => 1,
        ExprKind::Assign { .. } => 2,
        ExprKind::Conditional { .. } => 3,
        ExprKind::Or { .. } => 4,
        ExprKind::And { .. } => 5,
        ExprKind::Binary { op, .. } => level(*op),
        ExprKind::Cast { .. } => 14,
        ExprKind::PreIncrement(_)
        | ExprKind::PreDecrement(_)
        | ExprKind::AddressOf(_)
        | ExprKind::Deref(_)
        | ExprKind::Unary { .. }
        | ExprKind::SizeofExpr(_)
        | ExprKind::SizeofType(_) => 15,
        ExprKind::Index { .. }
        | ExprKind::Call { .. }
        | ExprKind::Member { .. }
        | ExprKind::Arrow { .. }
        | ExprKind::PostIncrement(_)
        | ExprKind::PostDecrement(_) => 16,
        _ => 17,
    }
}

fn mark_infix(mark: Mark) -> Option<Infix>
    ensures { MatchOption result (mark_joint mark ≡ None) (λ x. mark_joint mark ≡ joint_of x) }
{
    Some(match mark {
        Mark::Comma => Infix::Comma,
        Mark::OrOr => Infix::Or,
        Mark::AndAnd => Infix::And,
        Mark::Bar => Infix::Binary(BinaryOp::Or),
        Mark::Caret => Infix::Binary(BinaryOp::Xor),
        Mark::Ampersand => Infix::Binary(BinaryOp::And),
        Mark::EqualEqual => Infix::Binary(BinaryOp::Equal),
        Mark::NotEqual => Infix::Binary(BinaryOp::NotEqual),
        Mark::Less => Infix::Binary(BinaryOp::Less),
        Mark::Greater => Infix::Binary(BinaryOp::Greater),
        Mark::LessEqual => Infix::Binary(BinaryOp::LessEq),
        Mark::GreaterEqual => Infix::Binary(BinaryOp::GreaterEq),
        Mark::ShiftLeft => Infix::Binary(BinaryOp::Shl),
        Mark::ShiftRight => Infix::Binary(BinaryOp::Shr),
        Mark::Plus => Infix::Binary(BinaryOp::Add),
        Mark::Minus => Infix::Binary(BinaryOp::Sub),
        Mark::Star => Infix::Binary(BinaryOp::Mul),
        Mark::Slash => Infix::Binary(BinaryOp::Div),
        Mark::Percent => Infix::Binary(BinaryOp::Rem),
        Mark::Assign => Infix::Assign(None),
        Mark::StarAssign => Infix::Assign(Some(BinaryOp::Mul)),
        Mark::SlashAssign => Infix::Assign(Some(BinaryOp::Div)),
        Mark::PercentAssign => Infix::Assign(Some(BinaryOp::Rem)),
        Mark::PlusAssign => Infix::Assign(Some(BinaryOp::Add)),
        Mark::MinusAssign => Infix::Assign(Some(BinaryOp::Sub)),
        Mark::ShiftLeftAssign => Infix::Assign(Some(BinaryOp::Shl)),
        Mark::ShiftRightAssign => Infix::Assign(Some(BinaryOp::Shr)),
        Mark::AmpersandAssign => Infix::Assign(Some(BinaryOp::And)),
        Mark::CaretAssign => Infix::Assign(Some(BinaryOp::Xor)),
        Mark::BarAssign => Infix::Assign(Some(BinaryOp::Or)),
        _ => return None,
    })
}

/// What a token is between two operands.
pub fn infix_of(kind: &TokenKind) -> Option<Infix>
    ensures { MatchOption result (joint kind.now ≡ None) (λ x. joint kind.now ≡ joint_of x) }
{
    match kind {
        TokenKind::Mark(mark) => mark_infix(*mark),
        _ => None,
    }
}

/// How tightly the right operand has to bind.
pub fn right(op: Infix) -> u8
    ensures { result ≡ right_of op }
{
    match op {
        Infix::Comma | Infix::Assign(_) => 2,
        Infix::Or => 5,
        Infix::And => 6,
        Infix::Binary(binary) => level(binary) + 1,
    }
}

/// What a token is before an operand.
pub fn before_of(kind: &TokenKind) -> Option<Before>
    ensures { MatchOption result (prefix_spec kind.now ≡ None) (λ x. prefix_spec kind.now ≡ prefix_of x) }
{
    match kind {
        TokenKind::Mark(Mark::PlusPlus) => Some(Before::Increment),
        TokenKind::Mark(Mark::MinusMinus) => Some(Before::Decrement),
        TokenKind::Mark(Mark::Ampersand) => Some(Before::Address),
        TokenKind::Mark(Mark::Star) => Some(Before::Deref),
        TokenKind::Mark(Mark::Plus) => Some(Before::Unary(UnaryOp::Plus)),
        TokenKind::Mark(Mark::Minus) => Some(Before::Unary(UnaryOp::Minus)),
        TokenKind::Mark(Mark::Tilde) => Some(Before::Unary(UnaryOp::Complement)),
        TokenKind::Mark(Mark::Exclamation) => Some(Before::Unary(UnaryOp::Not)),
        _ => None,
    }
}

/// How tightly the operand has to bind.
pub fn operand(op: Before) -> u8
    ensures { result ≡ operand_of op }
{
    match op {
        Before::Increment | Before::Decrement => 15,
        Before::Address | Before::Deref | Before::Unary(_) => 14,
    }
}

/// How tightly a token binds what stands before it; 0 if it does not go on with that.
pub fn reach(kind: &TokenKind) -> u8
    ensures { result ≡ spec.reach_of kind.now }
{
    match kind {
        TokenKind::Mark(mark) => match mark {
            Mark::Comma => 1,
            Mark::Assign
            | Mark::StarAssign
            | Mark::SlashAssign
            | Mark::PercentAssign
            | Mark::PlusAssign
            | Mark::MinusAssign
            | Mark::ShiftLeftAssign
            | Mark::ShiftRightAssign
            | Mark::AmpersandAssign
            | Mark::CaretAssign
            | Mark::BarAssign => 2,
            Mark::Question => 3,
            Mark::OrOr => 4,
            Mark::AndAnd => 5,
            Mark::Bar => 6,
            Mark::Caret => 7,
            Mark::Ampersand => 8,
            Mark::EqualEqual | Mark::NotEqual => 9,
            Mark::Less | Mark::Greater | Mark::LessEqual | Mark::GreaterEqual => 10,
            Mark::ShiftLeft | Mark::ShiftRight => 11,
            Mark::Plus | Mark::Minus => 12,
            Mark::Star | Mark::Slash | Mark::Percent => 13,
            Mark::LeftParen
            | Mark::LeftBracket
            | Mark::Dot
            | Mark::Arrow
            | Mark::PlusPlus
            | Mark::MinusMinus => 16,
            _ => 0,
        },
        _ => 0,
    }
}

/// How tightly what stands before a token has to bind.
pub fn need(kind: &TokenKind) -> u8
    ensures { result ≡ spec.need_of kind.now }
{
    match kind {
        TokenKind::Mark(mark) => match mark {
            Mark::Assign
            | Mark::StarAssign
            | Mark::SlashAssign
            | Mark::PercentAssign
            | Mark::PlusAssign
            | Mark::MinusAssign
            | Mark::ShiftLeftAssign
            | Mark::ShiftRightAssign
            | Mark::AmpersandAssign
            | Mark::CaretAssign
            | Mark::BarAssign => 3,
            Mark::Question => 4,
            _ => reach(kind),
        },
        _ => 0,
    }
}
