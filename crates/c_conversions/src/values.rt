//! What an operand is as a value, and conversions (C99 6.3).

ghost use Rattle.std.specs.Prelude.{◌≡◌, IfOk};
ghost use Rattle.core_tree.specs.declared.types.Ty.{out-Ty};
ghost use Rattle.c_typing.specs.Values as spec;

use crate::nodes::typed;
use base16::{IntType, NoMemory};
use c_rules::{converts, value as constant_value};
use c_typing::Operand;
use core_tree::{Expr, ExprKind, Place, Ty, copy_type};
use sqlite_items::Boxed;
use std::alloc::Global;

/// The value in a place.
fn read_of(alloc: Global, place: Boxed<Place>) -> Result<Boxed<Expr>, NoMemory>
    ensures { IfOk result (λ made. made ≡ spec.read_of place) }
{
    let line = place.get().line;
    let ty = copy_type(alloc, &place.get().ty)?;
    typed(alloc, line, ty, ExprKind::Read(place))
}

/// An array as a pointer to its first element.
fn decay_of(
    alloc: Global,
    place: Boxed<Place>,
    of: Ty,
    readonly: bool,
) -> Result<Boxed<Expr>, NoMemory>
    ensures { IfOk result (λ made. made ≡ spec.decay_of place of readonly) }
{
    let line = place.get().line;
    let to = Boxed::new(alloc, of)?;
    typed(
        alloc,
        line,
        Ty::Pointer { to, readonly },
        ExprKind::Address(place),
    )
}

/// What a place is as a value: a scalar is read, an array is a pointer, a struct has none.
fn value_in(
    alloc: Global,
    place: Boxed<Place>,
    readonly: bool,
) -> Result<Option<Boxed<Expr>>, NoMemory>
    ensures { IfOk result (λ made. made ≡ spec.value_by place readonly (out-Ty place.ty)) }
{
    match &place.get().ty {
        Ty::Num(_) | Ty::Pointer { .. } => Ok(Some(read_of(alloc, place)?)),
        Ty::Array { of, .. } => {
            let of = copy_type(alloc, of.get())?;
            Ok(Some(decay_of(alloc, place, of, readonly)?))
        }
        Ty::Void | Ty::Struct(_) => Ok(None),
    }
}

/// The value of an operand (C99 6.3.2.1); a struct and a function have none.
#[tactic(auto, unfolding(c_typing::specs::Values::value))]
pub fn value(alloc: Global, operand: Operand) -> Result<Option<Boxed<Expr>>, NoMemory>
    ensures { IfOk result (λ made. made ≡ spec.value operand) }
{
    match operand {
        Operand::Value(expr) => Ok(Some(expr)),
        Operand::Place { place, readonly } => value_in(alloc, place, readonly),
        Operand::Function { .. } | Operand::Builtin(_) => Ok(None),
    }
}

/// An expression of one integer type in another (C99 6.3.1.3); it stays as it is where they are one.
#[tactic(auto, unfolding(c_typing::specs::Values::to_int))]
pub fn to_int(
    alloc: Global,
    from: IntType,
    to: IntType,
    expr: Boxed<Expr>,
) -> Result<Boxed<Expr>, NoMemory>
    ensures { IfOk result (λ made. made ≡ spec.to_int from to expr) }
{
    if from == to {
        return Ok(expr);
    }
    let line = expr.get().line;
    typed(alloc, line, Ty::Num(to), ExprKind::Convert(expr))
}

/// The null pointer of a pointer type, where an expression is a constant 0 (C99 6.3.2.3).
#[tactic(auto, unfolding(c_typing::specs::Values::null))]
pub fn null(alloc: Global, ty: &Ty, expr: &Expr) -> Result<Option<Boxed<Expr>>, NoMemory>
    ensures { IfOk result (λ made. made ≡ spec.null ty.now expr.now) }
{
    match constant_value(expr) {
        Some(0) => {
            let ty = copy_type(alloc, ty)?;
            Ok(Some(typed(alloc, expr.line, ty, ExprKind::Constant(0))?))
        }
        _ => Ok(None),
    }
}

/// A pointer in a pointer type that differs at most in const.
fn repointed(
    alloc: Global,
    ty: &Ty,
    readonly: bool,
    was_readonly: bool,
    expr: Boxed<Expr>,
) -> Result<Boxed<Expr>, NoMemory>
    ensures { IfOk result (λ made. made ≡ spec.repointed ty.now readonly was_readonly expr) }
{
    if readonly == was_readonly {
        return Ok(expr);
    }
    let line = expr.get().line;
    let ty = copy_type(alloc, ty)?;
    typed(alloc, line, ty, ExprKind::Convert(expr))
}

/// An expression in a type, as if by assignment (C99 6.5.16.1); none where it does not convert.
#[tactic(auto, unfolding(c_typing::specs::Values::converted))]
pub fn converted(alloc: Global, ty: &Ty, expr: Boxed<Expr>) -> Result<Option<Boxed<Expr>>, NoMemory>
    ensures { IfOk result (λ made. made ≡ spec.converted ty.now expr) }
{
    match (ty, &expr.get().ty) {
        (Ty::Num(to), Ty::Num(from)) => {
            let from = *from;
            Ok(Some(to_int(alloc, from, *to, expr)?))
        }
        (
            Ty::Pointer { readonly, .. },
            Ty::Pointer {
                readonly: was_readonly,
                ..
            },
        ) => {
            let was_readonly = *was_readonly;
            if !converts(&expr.get().ty, ty) {
                return Ok(None);
            }
            Ok(Some(repointed(alloc, ty, *readonly, was_readonly, expr)?))
        }
        (Ty::Pointer { .. }, Ty::Num(_)) => null(alloc, ty, expr.get()),
        _ => Ok(None),
    }
}
