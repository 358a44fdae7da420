//! The typing rules as tables: what converts to what, which operands an operator takes, and of which type the whole is
//! (C99 6.3.1, 6.5 and 6.8 in this profile).

ghost use Rattle.std.specs.Prelude.{◌≡◌};
ghost use Rattle.core_tree.specs.Rules as spec;

use base16::{BinaryOp, IntType, UnaryOp};
use core_tree::{Ty, same_type};

/// Promotion (C99 6.3.1.1): a `char` becomes an `int`.
pub fn promoted(of: IntType) -> IntType
    ensures { result ≡ spec.promoted of }
{
    match of {
        IntType::Char | IntType::Int => IntType::Int,
        IntType::UInt => IntType::UInt,
    }
}

/// Balance (C99 6.3.1.8): an `int` with an `unsigned int` becomes an `unsigned int`.
pub fn balanced(left: IntType, right: IntType) -> IntType
    ensures { result ≡ spec.balanced left right }
{
    match (left, right) {
        (IntType::UInt, _) | (_, IntType::UInt) => IntType::UInt,
        _ => IntType::Int,
    }
}

/// Whether a number is a value of an integer type.
pub fn is_value(of: IntType, number: i64) -> bool
    ensures { result ≡ spec.is_value of number }
{
    match of {
        IntType::Char => 0 <= number && number <= 255,
        IntType::Int => -32768 <= number && number <= 32767,
        IntType::UInt => 0 <= number && number <= 65535,
    }
}

/// What a `switch` takes.
#[tactic(auto, unfolding(core_tree::specs::Rules::is_integer))]
pub fn is_integer(ty: &Ty) -> bool
    ensures { result ≡ spec.is_integer ty.now }
{
    matches!(ty, Ty::Num(_))
}

/// What `!`, `&&`, `||`, a test and the first part of `?:` take: an integer or a pointer.
#[tactic(auto, unfolding(core_tree::specs::Rules::is_scalar))]
pub fn is_scalar(ty: &Ty) -> bool
    ensures { result ≡ spec.is_scalar ty.now }
{
    matches!(ty, Ty::Num(_) | Ty::Pointer { .. })
}

/// As by assignment, by an argument and by `return`: any integer to any integer type; a pointer to a pointer to the same
/// type, which may add const and never drops it.
#[tactic(auto, unfolding(core_tree::specs::Rules::converts))]
pub fn converts(from: &Ty, to: &Ty) -> bool
    ensures { result ≡ spec.converts from.now to.now }
{
    match (from, to) {
        (Ty::Num(_), Ty::Num(_)) => true,
        (
            Ty::Pointer {
                to: from,
                readonly: was_readonly,
            },
            Ty::Pointer { to, readonly },
        ) => same_type(to.get(), from.get()) && (*readonly || !*was_readonly),
        _ => false,
    }
}

/// Whether a constant 0 converts to a type: to any pointer.
#[tactic(auto, unfolding(core_tree::specs::Rules::takes_zero))]
pub fn takes_zero(to: &Ty) -> bool
    ensures { result ≡ spec.takes_zero to.now }
{
    matches!(to, Ty::Pointer { .. })
}

/// A cast goes from integer to integer.
#[tactic(auto, unfolding(core_tree::specs::Rules::casts))]
pub fn casts(from: &Ty, to: &Ty) -> bool
    ensures { result ≡ spec.casts from.now to.now }
{
    matches!((from, to), (Ty::Num(_), Ty::Num(_)))
}

/// `<`, `>`, `<=` and `>=`.
pub fn is_order(op: BinaryOp) -> bool
    ensures { result ≡ spec.is_order op }
{
    matches!(
        op,
        BinaryOp::Less | BinaryOp::Greater | BinaryOp::LessEq | BinaryOp::GreaterEq
    )
}

/// `==` and `!=`.
pub fn is_equality(op: BinaryOp) -> bool
    ensures { result ≡ spec.is_equality op }
{
    matches!(op, BinaryOp::Equal | BinaryOp::NotEqual)
}

/// An order or an equality.
pub fn is_comparison(op: BinaryOp) -> bool
    ensures { result ≡ spec.is_comparison op }
{
    is_order(op) || is_equality(op)
}

/// `<<` and `>>`.
pub fn is_shift(op: BinaryOp) -> bool
    ensures { result ≡ spec.is_shift op }
{
    matches!(op, BinaryOp::Shl | BinaryOp::Shr)
}

/// `-` and comparisons take two pointers to one type.
fn takes_pointers(op: BinaryOp) -> bool
    ensures { result ≡ spec.takes_pointers op }
{
    match op {
        BinaryOp::Sub => true,
        _ => is_comparison(op),
    }
}

/// Whether a binary operator takes operands of two types: every one takes two integers, `+` and `-` a pointer and an
/// integer, `+` an integer and a pointer, `-` and comparisons two pointers to one type.
#[tactic(auto, unfolding(core_tree::specs::Rules::takes))]
pub fn takes(op: BinaryOp, left: &Ty, right: &Ty) -> bool
    ensures { result ≡ spec.takes op left.now right.now }
{
    match (left, right) {
        (Ty::Num(_), Ty::Num(_)) => true,
        (Ty::Pointer { .. }, Ty::Num(_)) => matches!(op, BinaryOp::Add | BinaryOp::Sub),
        (Ty::Num(_), Ty::Pointer { .. }) => matches!(op, BinaryOp::Add),
        (Ty::Pointer { to, .. }, Ty::Pointer { to: other, .. }) => {
            same_type(to.get(), other.get()) && takes_pointers(op)
        }
        _ => false,
    }
}

/// Whether a binary operator takes a type and a constant 0: `==` and `!=` a pointer.
#[tactic(auto, unfolding(core_tree::specs::Rules::takes_with_zero))]
pub fn takes_with_zero(op: BinaryOp, ty: &Ty) -> bool
    ensures { result ≡ spec.takes_with_zero op ty.now }
{
    is_equality(op) && takes_zero(ty)
}

/// Whether a unary operator takes a type: `+`, `-` and `~` an integer, `!` any scalar.
pub fn takes_one(op: UnaryOp, ty: &Ty) -> bool
    ensures { result ≡ spec.takes_one op ty.now }
{
    match op {
        UnaryOp::Not => is_scalar(ty),
        UnaryOp::Plus | UnaryOp::Minus | UnaryOp::Complement => is_integer(ty),
    }
}

/// The type in which an operator on integers computes: a shift in that of its promoted left side, the others in that of
/// both sides balanced.
pub fn computed_in(op: BinaryOp, left: IntType, right: IntType) -> IntType
    ensures { result ≡ spec.computed_in op left right }
{
    match op {
        BinaryOp::Shl | BinaryOp::Shr => promoted(left),
        _ => balanced(left, right),
    }
}

/// The type to which the right side is converted before.
pub fn right_in(op: BinaryOp, left: IntType, right: IntType) -> IntType
    ensures { result ≡ spec.right_in op left right }
{
    match op {
        BinaryOp::Shl | BinaryOp::Shr => promoted(right),
        _ => balanced(left, right),
    }
}

/// The type of the result of an operator that computes in a type: `int` of a comparison.
pub fn result_in(op: BinaryOp, at: IntType) -> IntType
    ensures { result ≡ spec.result_in op at }
{
    match op {
        BinaryOp::Less
        | BinaryOp::Greater
        | BinaryOp::LessEq
        | BinaryOp::GreaterEq
        | BinaryOp::Equal
        | BinaryOp::NotEqual => IntType::Int,
        _ => at,
    }
}

/// Whether the branches of `?:` may be of two types, neither being a constant 0 for a pointer: both integers, or pointers
/// to one type.
#[tactic(auto, unfolding(core_tree::specs::Rules::branches))]
pub fn branches(one: &Ty, other: &Ty) -> bool
    ensures { result ≡ spec.branches one.now other.now }
{
    match (one, other) {
        (Ty::Num(_), Ty::Num(_)) => true,
        (Ty::Pointer { to, .. }, Ty::Pointer { to: other, .. }) => same_type(to.get(), other.get()),
        _ => false,
    }
}
