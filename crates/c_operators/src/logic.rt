//! `&&`, `||` and the comma.

ghost use Rattle.std.specs.Prelude.{◌≡◌};
ghost use Rattle.core_tree.specs.declared.expressions.ExprKind.TheVariants as k;
ghost use Rattle.c_typing.specs.Outcome.{Answers, at};
ghost use Rattle.c_typing.specs.Operators as spec;

use base16::IntType;
use c_conversions::{broken, typed};
use c_rules::is_scalar;
use c_typing::{Rule, Stop};
use core_tree::{Expr, ExprKind, Ty, copy_type};
use sqlite_items::Boxed;
use std::alloc::Global;

/// `&&` of two values (C99 6.5.13): E3 where one is no integer or pointer or is missing.
#[tactic(auto, unfolding(c_typing::specs::Operators::logical))]
pub fn both(
    alloc: Global,
    line: u32,
    left: Option<Boxed<Expr>>,
    right: Option<Boxed<Expr>>,
) -> Result<Boxed<Expr>, Stop>
    ensures { Answers (at line (spec.logical k.And line left right)) result }
{
    let (Some(left), Some(right)) = (left, right) else {
        return Err(broken(Rule::WrongType, line));
    };
    if !is_scalar(&left.get().ty) || !is_scalar(&right.get().ty) {
        return Err(broken(Rule::WrongType, line));
    }
    let ty = Ty::Num(IntType::Int);
    Ok(typed(alloc, line, ty, ExprKind::And { left, right })?)
}

/// `||` of two values (C99 6.5.14): E3 where one is no integer or pointer or is missing.
#[tactic(auto, unfolding(c_typing::specs::Operators::logical))]
pub fn either(
    alloc: Global,
    line: u32,
    left: Option<Boxed<Expr>>,
    right: Option<Boxed<Expr>>,
) -> Result<Boxed<Expr>, Stop>
    ensures { Answers (at line (spec.logical k.Or line left right)) result }
{
    let (Some(left), Some(right)) = (left, right) else {
        return Err(broken(Rule::WrongType, line));
    };
    if !is_scalar(&left.get().ty) || !is_scalar(&right.get().ty) {
        return Err(broken(Rule::WrongType, line));
    }
    let ty = Ty::Num(IntType::Int);
    Ok(typed(alloc, line, ty, ExprKind::Or { left, right })?)
}

/// The comma (C99 6.5.17): its left side may be `void`, its right side is an integer or a pointer, and else E3.
#[tactic(auto, unfolding(c_typing::specs::Operators::sequence))]
pub fn sequence(
    alloc: Global,
    line: u32,
    left: Option<Boxed<Expr>>,
    right: Option<Boxed<Expr>>,
) -> Result<Boxed<Expr>, Stop>
    ensures { Answers (at line (spec.sequence line left right)) result }
{
    let (Some(left), Some(right)) = (left, right) else {
        return Err(broken(Rule::WrongType, line));
    };
    if !is_scalar(&right.get().ty) {
        return Err(broken(Rule::WrongType, line));
    }
    let ty = copy_type(alloc, &right.get().ty)?;
    Ok(typed(alloc, line, ty, ExprKind::Comma { left, right })?)
}
