ghost use Rattle.std.specs.Prelude.{◌≡◌, ◌+◌, ◌*◌};
ghost use Rattle.core_tree.specs.Costs as spec;

use base16::{BinaryOp, IntType, UnaryOp};

// The rows of the cost table that depend on more than the kind of a node, in bytes of code.

/// A constant.
pub const CONSTANT_ROW: u64 = 12;

/// The sum of a pointer and an integer, a difference of pointers, an index.
pub const POINTER_ROW: u64 = 28;

/// A unary operator.
pub fn unary_row(op: UnaryOp) -> u64
    ensures { result ≡ spec.unary_row op }
{
    match op {
        UnaryOp::Plus => 0,
        UnaryOp::Minus | UnaryOp::Complement => 16,
        UnaryOp::Not => 24,
    }
}

/// A binary operator.
pub fn binary_row(op: BinaryOp) -> u64
    ensures { result ≡ spec.binary_row op }
{
    match op {
        BinaryOp::Add | BinaryOp::Sub | BinaryOp::And | BinaryOp::Xor | BinaryOp::Or => 20,
        BinaryOp::Less
        | BinaryOp::Greater
        | BinaryOp::LessEq
        | BinaryOp::GreaterEq
        | BinaryOp::Equal
        | BinaryOp::NotEqual => 32,
        BinaryOp::Mul | BinaryOp::Div | BinaryOp::Rem | BinaryOp::Shl | BinaryOp::Shr => 24,
    }
}

/// A store that is a mark, or none.
pub fn store_row(marked: bool) -> u64
    ensures { result ≡ spec.store_row marked }
{
    if marked { 28 } else { 16 }
}

/// An update with its operator and its store.
pub fn update_row(op: BinaryOp, at: Option<IntType>, marked: bool) -> u64
    ensures { result ≡ spec.update_row op at marked }
{
    let operator = match at {
        None => POINTER_ROW,
        Some(_) => binary_row(op),
    };
    24 + store_row(marked) + operator
}

/// A loop, in the text of an `@expires` block or not.
pub fn loop_row(inside: bool) -> u64
    ensures { result ≡ spec.loop_row inside }
{
    if inside { 72 } else { 56 }
}

/// So many bytes, and so many more for each of some things; they stand still at 2^64 - 1.
pub fn row_with(row: u64, more: u64, count: usize) -> u64
    ensures { result ≡ spec.capped_cost (row + more * count) }
{
    more.saturating_mul(count as u64).saturating_add(row)
}
