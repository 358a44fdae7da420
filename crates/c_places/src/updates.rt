//! `op=`, `++` and `--` (C99 6.5.2.4, 6.5.3.1 and 6.5.16.2).

ghost use Rattle.std.specs.Prelude.{◌≡◌, IfOk};
ghost use Rattle.std.specs.Option.{option_copied};
ghost use Rattle.core_tree.specs.declared.types.Ty.{out-Ty};
ghost use Rattle.c_typing.specs.Outcome.{Answers, at};
ghost use Rattle.c_typing.specs.Places as spec;
ghost use Rattle.c_typing.specs.Scopes as scopes;
ghost use Rattle.c_typing.specs.Values as values;
ghost use Rattle.core_tree.specs.declared.expressions.ExprKind.TheVariants as k;

use crate::pointers::no_place;
use base16::{BinaryOp, IntType, NoMemory};
use c_conversions::{broken, is_complete, is_marked, to_int, typed};
use c_rules::{balanced, computed_in, is_comparison, is_scalar, right_in};
use c_typing::{Env, Operand, Rule, Stop};
use core_tree::{Expr, ExprKind, Place, Ty, copy_type};
use sqlite_items::Boxed;
use std::alloc::Global;

/// Whether an update takes these types: two integers, or with `+` and `-` a pointer and an integer.
#[tactic(auto, unfolding(c_typing::specs::Places::updates))]
fn updates(op: BinaryOp, own: &Ty, by: &Ty) -> bool
    ensures { result ≡ spec.updates op own.now by.now }
{
    match (own, by) {
        (Ty::Num(_), Ty::Num(_)) => !is_comparison(op),
        (Ty::Pointer { .. }, Ty::Num(_)) => matches!(op, BinaryOp::Add | BinaryOp::Sub),
        _ => false,
    }
}

/// The update of a place by a value that has the type in which it computes.
fn made_update(
    alloc: Global,
    env: &Env,
    op: BinaryOp,
    at: Option<IntType>,
    line: u32,
    old: bool,
    place: Boxed<Place>,
    value: Boxed<Expr>,
) -> Result<Boxed<Expr>, NoMemory>
    ensures { IfOk result (λ made.
        made ≡ values.typed line place.ty (k.Update op at place value old (scopes.is_marked env.now place))) }
{
    let ty = copy_type(alloc, &place.get().ty)?;
    let marked = is_marked(env, place.get());
    let kind = ExprKind::Update {
        op,
        at,
        place,
        value,
        old,
        marked,
    };
    typed(alloc, line, ty, kind)
}

/// The update of an integer place. The value is converted to the type in which the operator computes.
fn integer_update(
    alloc: Global,
    env: &Env,
    op: BinaryOp,
    line: u32,
    old: bool,
    place: Boxed<Place>,
    own: IntType,
    by: IntType,
    value: Boxed<Expr>,
) -> Result<Boxed<Expr>, NoMemory>
    ensures { IfOk result (λ made. made ≡ spec.integer_update env.now op line old place own by value) }
{
    let at = computed_in(op, own, by);
    let value = to_int(alloc, by, right_in(op, own, by), value)?;
    made_update(alloc, env, op, Some(at), line, old, place, value)
}

/// The update of a place by a value, once their types are taken.
fn updated_by(
    alloc: Global,
    env: &Env,
    op: BinaryOp,
    line: u32,
    old: bool,
    place: Boxed<Place>,
    readonly: bool,
    value: Boxed<Expr>,
) -> Result<Boxed<Expr>, Stop>
    ensures { Answers
        (at line (spec.updated_by env.now op line old place readonly (out-Ty place.ty) (out-Ty value.ty) value)) result }
{
    match (&place.get().ty, &value.get().ty) {
        (Ty::Num(own), Ty::Num(by)) => {
            if readonly {
                return Err(broken(Rule::ConstWrite, line));
            }
            let own = *own;
            let by = *by;
            Ok(integer_update(alloc, env, op, line, old, place, own, by, value)?)
        }
        (Ty::Pointer { to, .. }, Ty::Num(_)) => {
            if !is_complete(env, to.get()) {
                return Err(broken(Rule::Incomplete, line));
            }
            if readonly {
                return Err(broken(Rule::ConstWrite, line));
            }
            Ok(made_update(alloc, env, op, None, line, old, place, value)?)
        }
        _ => Err(broken(Rule::WrongType, line)),
    }
}

/// The update of a place by a value.
fn update_place(
    alloc: Global,
    env: &Env,
    op: BinaryOp,
    line: u32,
    old: bool,
    place: Boxed<Place>,
    readonly: bool,
    value: Boxed<Expr>,
) -> Result<Boxed<Expr>, Stop>
    ensures { Answers (at line (spec.update_place env.now op line old place readonly (out-Ty place.ty) value)) result }
{
    match &place.get().ty {
        Ty::Array { .. } => Err(broken(no_place(is_scalar(&value.get().ty)), line)),
        ty => {
            if !updates(op, ty, &value.get().ty) {
                return Err(broken(Rule::WrongType, line));
            }
            updated_by(alloc, env, op, line, old, place, readonly, value)
        }
    }
}

/// `to op= by`; `old` where the old value is the result.
#[tactic(auto, unfolding(c_typing::specs::Places::updated))]
pub fn updated(
    alloc: Global,
    env: &Env,
    op: BinaryOp,
    line: u32,
    old: bool,
    to: Operand,
    by: Option<Boxed<Expr>>,
) -> Result<Boxed<Expr>, Stop>
    ensures { Answers (at line (spec.updated env.now op line old to by)) result }
{
    let Some(by) = by else {
        return Err(broken(Rule::WrongType, line));
    };
    match to {
        Operand::Place { place, readonly } => {
            update_place(alloc, env, op, line, old, place, readonly, by)
        }
        Operand::Value(value) => {
            let fits = updates(op, &value.get().ty, &by.get().ty);
            Err(broken(no_place(fits), line))
        }
        _ => Err(broken(Rule::WrongType, line)),
    }
}

/// The type of a value or a place.
pub fn operand_type<'a>(operand: &'a Operand) -> Option<&'a Ty>
    ensures { option_copied result ≡ spec.operand_type operand.now }
{
    match operand {
        Operand::Value(value) => Some(&value.get().ty),
        Operand::Place { place, .. } => Some(&place.get().ty),
        _ => None,
    }
}

/// The 1 of `++` and `--`: a constant of the type in which the sum is computed.
fn one_for(alloc: Global, line: u32, ty: Option<&Ty>) -> Result<Option<Boxed<Expr>>, NoMemory>
    ensures { IfOk result (λ made. made ≡ spec.one_for line (option_copied ty.entry)) }
{
    let Some(ty) = ty else {
        return Ok(None);
    };
    let own = match ty {
        Ty::Num(own) => balanced(*own, IntType::Int),
        _ => IntType::Int,
    };
    Ok(Some(typed(alloc, line, Ty::Num(own), ExprKind::Constant(1))?))
}

/// `++` and `--` by their operator; `old` where they stand behind their place.
#[tactic(auto, unfolding(c_typing::specs::Places::stepped))]
pub fn stepped(
    alloc: Global,
    env: &Env,
    op: BinaryOp,
    line: u32,
    old: bool,
    to: Operand,
) -> Result<Boxed<Expr>, Stop>
    ensures { Answers (at line (spec.stepped env.now op line old to)) result }
{
    let one = one_for(alloc, line, operand_type(&to))?;
    updated(alloc, env, op, line, old, to, one)
}
