//! `+ - ~ !` and binary operators.

ghost use Rattle.std.specs.Prelude.{◌≡◌, IfOk};
ghost use Rattle.core_tree.specs.declared.types.Ty.{out-Ty};
ghost use Rattle.c_typing.specs.Outcome.{Answers, at};
ghost use Rattle.c_typing.specs.Operators as spec;

use crate::pointers::{integer_pointer, pointer_integer, pointers};
use base16::{BinaryOp, IntType, NoMemory, UnaryOp};
use c_conversions::{broken, to_int, typed};
use c_rules::{computed_in, promoted, result_in, right_in, takes_one};
use c_typing::{Env, Rule, Stop};
use core_tree::{Expr, ExprKind, Ty, int_type_of, same_type};
use sqlite_items::Boxed;
use std::alloc::Global;

/// `+`, `-` or `~` of an integer, in its promoted type.
fn arithmetic(
    alloc: Global,
    op: UnaryOp,
    line: u32,
    of: IntType,
    operand: Boxed<Expr>,
) -> Result<Boxed<Expr>, NoMemory>
    ensures { IfOk result (λ made. made ≡ spec.arithmetic op line of operand) }
{
    let at = promoted(of);
    let of = to_int(alloc, of, at, operand)?;
    typed(alloc, line, Ty::Num(at), ExprKind::Unary { op, of })
}

/// A unary operator on what it takes; `!` converts nothing.
fn unary_of(
    alloc: Global,
    op: UnaryOp,
    line: u32,
    operand: Boxed<Expr>,
) -> Result<Boxed<Expr>, NoMemory>
    ensures { IfOk result (λ made. made ≡ spec.unary_of op line operand) }
{
    match op {
        UnaryOp::Not => typed(
            alloc,
            line,
            Ty::Num(IntType::Int),
            ExprKind::Unary { op, of: operand },
        ),
        UnaryOp::Plus | UnaryOp::Minus | UnaryOp::Complement => {
            let of = int_type_of(&operand.get().ty);
            arithmetic(alloc, op, line, of, operand)
        }
    }
}

/// A unary operator (C99 6.5.3.3) on a value: E3 where it does not take the value or there is none.
#[tactic(auto, unfolding(c_typing::specs::Operators::unary))]
pub fn unary(
    alloc: Global,
    op: UnaryOp,
    line: u32,
    operand: Option<Boxed<Expr>>,
) -> Result<Boxed<Expr>, Stop>
    ensures { Answers (at line (spec.unary op line operand)) result }
{
    let Some(operand) = operand else {
        return Err(broken(Rule::WrongType, line));
    };
    if !takes_one(op, &operand.get().ty) {
        return Err(broken(Rule::WrongType, line));
    }
    Ok(unary_of(alloc, op, line, operand)?)
}

/// A binary operator on integers of two types, each converted to the type that it computes with.
#[tactic(auto, unfolding(c_typing::specs::Operators::integers))]
fn integers(
    alloc: Global,
    op: BinaryOp,
    line: u32,
    x: IntType,
    left: Boxed<Expr>,
    y: IntType,
    right: Boxed<Expr>,
) -> Result<Boxed<Expr>, NoMemory>
    ensures { IfOk result (λ made. made ≡ spec.integers op line x left y right) }
{
    let at = computed_in(op, x, y);
    let left = to_int(alloc, x, at, left)?;
    let right = to_int(alloc, y, right_in(op, x, y), right)?;
    let ty = Ty::Num(result_in(op, at));
    typed(
        alloc,
        line,
        ty,
        ExprKind::Binary {
            op,
            at,
            left,
            right,
        },
    )
}

/// A binary operator on two values, by their types.
#[tactic(auto, unfolding(core_tree::specs::Layout::target_of))]
fn joined(
    alloc: Global,
    env: &Env,
    op: BinaryOp,
    line: u32,
    left: Boxed<Expr>,
    right: Boxed<Expr>,
) -> Result<Boxed<Expr>, Stop>
    ensures { Answers (at line (spec.joined env.now op line (out-Ty left.ty) left (out-Ty right.ty) right)) result }
{
    match (&left.get().ty, &right.get().ty) {
        (Ty::Num(x), Ty::Num(y)) => {
            let x = *x;
            let y = *y;
            Ok(integers(alloc, op, line, x, left, y, right)?)
        }
        (Ty::Pointer { .. }, Ty::Num(_)) => pointer_integer(alloc, env, op, line, left, right),
        (Ty::Num(_), Ty::Pointer { .. }) => integer_pointer(alloc, env, op, line, left, right),
        (Ty::Pointer { to, .. }, Ty::Pointer { to: other, .. }) => {
            if !same_type(to.get(), other.get()) {
                return Err(broken(Rule::WrongType, line));
            }
            pointers(alloc, env, op, line, left, right)
        }
        _ => Err(broken(Rule::WrongType, line)),
    }
}

/// A binary operator (C99 6.5.5 to 6.5.12) on two values: E3 where it does not take them or one is missing, E6 where it
/// computes with a pointer to a type that is not complete.
#[tactic(auto, unfolding(c_typing::specs::Operators::binary))]
pub fn binary(
    alloc: Global,
    env: &Env,
    op: BinaryOp,
    line: u32,
    left: Option<Boxed<Expr>>,
    right: Option<Boxed<Expr>>,
) -> Result<Boxed<Expr>, Stop>
    ensures { Answers (at line (spec.binary env.now op line left right)) result }
{
    let (Some(left), Some(right)) = (left, right) else {
        return Err(broken(Rule::WrongType, line));
    };
    joined(alloc, env, op, line, left, right)
}
