//! Binary operators of which one side is a pointer, or both are.

ghost use Rattle.std.specs.Prelude.{◌≡◌, IfOk};
ghost use Rattle.core_tree.specs.Layout.{target_of as target};
ghost use Rattle.core_tree.specs.Rules as rules_of;
ghost use Rattle.c_typing.specs.Outcome.{Answers, at};
ghost use Rattle.c_typing.specs.Operators as spec;

use base16::{BinaryOp, IntType, NoMemory};
use c_conversions::{broken, is_complete, null, typed};
use c_rules::{is_comparison, is_equality};
use c_typing::{Env, Rule, Stop};
use core_tree::{Expr, ExprKind, Ty, copy_type, target_of};
use sqlite_items::Boxed;
use std::alloc::Global;

/// Whether an operator takes a pointer and an integer.
fn takes_pointer_integer(op: BinaryOp) -> bool
    ensures { result ≡ rules_of.takes_pointer_integer op }
{
    matches!(op, BinaryOp::Add | BinaryOp::Sub)
}

/// Whether an operator takes an integer and a pointer.
fn takes_integer_pointer(op: BinaryOp) -> bool
    ensures { result ≡ rules_of.takes_integer_pointer op }
{
    matches!(op, BinaryOp::Add)
}

/// Whether an operator is `-`.
fn is_minus(op: BinaryOp) -> bool
    ensures { result ≡ spec.is_minus op }
{
    matches!(op, BinaryOp::Sub)
}

/// A comparison of pointers.
fn compared(
    alloc: Global,
    op: BinaryOp,
    line: u32,
    left: Boxed<Expr>,
    right: Boxed<Expr>,
) -> Result<Boxed<Expr>, NoMemory>
    ensures { IfOk result (λ made. made ≡ spec.compared op line left right) }
{
    typed(
        alloc,
        line,
        Ty::Num(IntType::Int),
        ExprKind::ComparePointers { op, left, right },
    )
}

/// A pointer with an integer behind it.
#[tactic(auto, unfolding(c_typing::specs::Operators::pointer_integer))]
pub fn pointer_integer(
    alloc: Global,
    env: &Env,
    op: BinaryOp,
    line: u32,
    left: Boxed<Expr>,
    right: Boxed<Expr>,
) -> Result<Boxed<Expr>, Stop>
    ensures { Answers (at line (spec.pointer_integer env.now op line (target left.ty) left right)) result }
{
    if takes_pointer_integer(op) {
        if !is_complete(env, target_of(&left.get().ty)) {
            return Err(broken(Rule::Incomplete, line));
        }
        let minus = is_minus(op);
        let ty = copy_type(alloc, &left.get().ty)?;
        let sum = ExprKind::PointerPlus { minus, left, right };
        return Ok(typed(alloc, line, ty, sum)?);
    }
    if !is_equality(op) {
        return Err(broken(Rule::WrongType, line));
    }
    let Some(right) = null(alloc, &left.get().ty, right.get())? else {
        return Err(broken(Rule::WrongType, line));
    };
    Ok(compared(alloc, op, line, left, right)?)
}

/// An integer with a pointer behind it.
#[tactic(auto, unfolding(c_typing::specs::Operators::integer_pointer))]
pub fn integer_pointer(
    alloc: Global,
    env: &Env,
    op: BinaryOp,
    line: u32,
    left: Boxed<Expr>,
    right: Boxed<Expr>,
) -> Result<Boxed<Expr>, Stop>
    ensures { Answers (at line (spec.integer_pointer env.now op line (target right.ty) left right)) result }
{
    if takes_integer_pointer(op) {
        if !is_complete(env, target_of(&right.get().ty)) {
            return Err(broken(Rule::Incomplete, line));
        }
        let minus = false;
        let ty = copy_type(alloc, &right.get().ty)?;
        let sum = ExprKind::PointerPlus { minus, left, right };
        return Ok(typed(alloc, line, ty, sum)?);
    }
    if !is_equality(op) {
        return Err(broken(Rule::WrongType, line));
    }
    let Some(left) = null(alloc, &right.get().ty, left.get())? else {
        return Err(broken(Rule::WrongType, line));
    };
    Ok(compared(alloc, op, line, left, right)?)
}

/// Two pointers to one type.
#[tactic(auto, unfolding(c_typing::specs::Operators::pointers))]
pub fn pointers(
    alloc: Global,
    env: &Env,
    op: BinaryOp,
    line: u32,
    left: Boxed<Expr>,
    right: Boxed<Expr>,
) -> Result<Boxed<Expr>, Stop>
    ensures { Answers (at line (spec.pointers env.now op line (target left.ty) left right)) result }
{
    if is_comparison(op) {
        return Ok(compared(alloc, op, line, left, right)?);
    }
    if !is_minus(op) {
        return Err(broken(Rule::WrongType, line));
    }
    if !is_complete(env, target_of(&left.get().ty)) {
        return Err(broken(Rule::Incomplete, line));
    }
    let ty = Ty::Num(IntType::Int);
    Ok(typed(alloc, line, ty, ExprKind::Difference { left, right })?)
}
