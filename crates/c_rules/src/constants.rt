//! Constant expressions (C99 6.6 in this profile).

ghost use Rattle.std.specs.Prelude.{◌≡◌, ◌≤ℤ◌, IfSome, pos, negsuc};
ghost use Rattle.core_tree.specs.declared.types.Ty.{out-Ty};
ghost use Rattle.c_rules.specs.Constants as spec;

use base16::{BinaryOp, IntType, UnaryOp};
use c_values::{as_type, binary, number, right_type, truth, unary, word_of};
use core_tree::{Expr, ExprKind, Ty, int_type_of};

/// A part of an expression: its integer type, and what is known of it. That is none where it is made of more than
/// constants, and else its value or the first rule that its evaluation breaks.
#[derive(Clone, Copy)]
struct Part {
    at: IntType,
    known: Option<Result<i64, u8>>,
}

/// A number of an integer type.
fn literal(value: i64, ty: &Ty) -> Option<Result<i64, u8>>
    ensures { result ≡ spec.literal value (out-Ty ty.now) }
{
    match ty {
        Ty::Num(_) => Some(Ok(value)),
        _ => None,
    }
}

/// A cast to a type.
fn cast_to(of: Option<Result<i64, u8>>, ty: &Ty) -> Option<Result<i64, u8>>
    ensures { result ≡ spec.cast_to of (out-Ty ty.now) }
{
    match (of, ty) {
        (Some(Ok(value)), Ty::Num(to)) => Some(Ok(as_type(*to, value))),
        (_, Ty::Num(_)) => of,
        _ => None,
    }
}

fn unary_of(op: UnaryOp, of: Part) -> Option<Result<i64, u8>>
    ensures { result ≡ spec.unary_of op of }
{
    match of.known {
        Some(Ok(value)) => Some(unary(op, of.at, number(of.at, value))),
        known => known,
    }
}

fn binary_of(op: BinaryOp, at: IntType, left: Part, right: Part) -> Option<Result<i64, u8>>
    ensures { result ≡ spec.binary_of op at left right }
{
    match (left.known, right.known) {
        (None, _) | (_, None) => None,
        (Some(Err(rule)), _) | (_, Some(Err(rule))) => Some(Err(rule)),
        (Some(Ok(a)), Some(Ok(b))) => Some(binary(
            op,
            at,
            number(at, a),
            number(right_type(op, at, right.at), b),
        )),
    }
}

/// 1 where a part is not zero and 0 where it is.
fn truth_of(part: Part) -> Option<Result<i64, u8>>
    ensures { result ≡ spec.truth_of part }
{
    match part.known {
        Some(Ok(value)) => Some(Ok(truth(number(part.at, value) != 0))),
        known => known,
    }
}

/// `&&`: where the left part is zero, the right one is not evaluated.
fn and_of(left: Part, right: Part) -> Option<Result<i64, u8>>
    ensures { result ≡ spec.and_of left right }
{
    match (truth_of(left), right.known) {
        (None, _) | (_, None) => None,
        (Some(Ok(0)), _) => Some(Ok(0)),
        (Some(Ok(_)), _) => truth_of(right),
        (Some(Err(rule)), _) => Some(Err(rule)),
    }
}

/// `||`: where the left part is not zero, the right one is not evaluated.
fn or_of(left: Part, right: Part) -> Option<Result<i64, u8>>
    ensures { result ≡ spec.or_of left right }
{
    match (truth_of(left), right.known) {
        (None, _) | (_, None) => None,
        (Some(Ok(0)), _) => truth_of(right),
        (Some(Ok(_)), _) => Some(Ok(1)),
        (Some(Err(rule)), _) => Some(Err(rule)),
    }
}

/// `?:`: the part that is not chosen is not evaluated.
fn chosen_of(test: Part, yes: Part, no: Part) -> Option<Result<i64, u8>>
    ensures { result ≡ spec.chosen_of test yes no }
{
    match (truth_of(test), yes.known, no.known) {
        (None, _, _) | (_, None, _) | (_, _, None) => None,
        (Some(Ok(0)), _, _) => no.known,
        (Some(Ok(_)), _, _) => yes.known,
        (Some(Err(rule)), _, _) => Some(Err(rule)),
    }
}

/// An expression as a part of another.
#[tactic(auto, unfolding(crate::specs::Constants::part_of))]
fn part_of(expr: &Expr) -> Part
    ensures { result ≡ spec.part_of expr.now }
{
    let known = match &expr.kind {
        ExprKind::Constant(value) => literal(*value, &expr.ty),
        ExprKind::Convert(of) => cast_to(part_of(of.get()).known, &expr.ty),
        ExprKind::Unary { op, of } => unary_of(*op, part_of(of.get())),
        ExprKind::Binary {
            op,
            at,
            left,
            right,
        } => binary_of(*op, *at, part_of(left.get()), part_of(right.get())),
        ExprKind::And { left, right } => and_of(part_of(left.get()), part_of(right.get())),
        ExprKind::Or { left, right } => or_of(part_of(left.get()), part_of(right.get())),
        ExprKind::Conditional { test, yes, no } => {
            chosen_of(part_of(test.get()), part_of(yes.get()), part_of(no.get()))
        }
        _ => None,
    };
    Part {
        at: int_type_of(&expr.ty),
        known,
    }
}

/// The value of a constant expression, a number of its type; none where the expression is not constant.
#[tactic(auto, unfolding(crate::specs::Constants::value))]
pub fn value(expr: &Expr) -> Option<i64>
    ensures value { result ≡ spec.value expr.now }
    ensures range { IfSome result (λ v. (negsuc 32767 ≤ℤ v) × (v ≤ℤ pos 65535)) }
{
    let part = part_of(expr);
    match part.known {
        Some(Ok(value)) => Some(number(part.at, value)),
        _ => None,
    }
}

/// The word of the value of a constant expression; none where the expression is not constant.
pub fn constant(expr: &Expr) -> Option<u16>
    ensures { result ≡ spec.constant expr.now }
{
    match value(expr) {
        Some(value) => Some(word_of(value)),
        None => None,
    }
}
