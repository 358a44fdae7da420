//! An index (C99 6.5.2.1).

ghost use Rattle.std.specs.Prelude.{◌≡◌, IfOk};
ghost use Rattle.core_tree.specs.declared.types.Ty.{out-Ty};
ghost use Rattle.c_typing.specs.Outcome.{Answers, at};
ghost use Rattle.c_typing.specs.Places as spec;

use c_conversions::{broken, is_complete, placed, value};
use c_rules::is_integer;
use c_typing::{Env, Operand, Rule, Stop};
use core_tree::{Expr, Place, PlaceKind, Ty, copy_type};
use sqlite_items::Boxed;
use std::alloc::Global;

/// What the sum of a pointer and an integer points to, by a copy of its type.
fn pointed_at(
    alloc: Global,
    env: &Env,
    line: u32,
    to: Boxed<Ty>,
    readonly: bool,
    left: Boxed<Expr>,
    right: Boxed<Expr>,
) -> Result<Operand, Stop>
    ensures { Answers (at line (spec.pointed_at env.now line to readonly left right)) result }
{
    if !is_complete(env, to.get()) {
        return Err(broken(Rule::Incomplete, line));
    }
    let kind = PlaceKind::At { left, right };
    let place = placed(alloc, line, to.into_inner(), kind)?;
    Ok(Operand::Place { place, readonly })
}

/// What the sum of a pointer and an integer, in either order, points to.
fn at_sum(
    alloc: Global,
    env: &Env,
    line: u32,
    left: Boxed<Expr>,
    right: Boxed<Expr>,
) -> Result<Operand, Stop>
    ensures { Answers (at line (spec.at_by env.now line (out-Ty left.ty) left (out-Ty right.ty) right)) result }
{
    match (&left.get().ty, &right.get().ty) {
        (Ty::Pointer { to, readonly }, Ty::Num(_)) => {
            let readonly = *readonly;
            let to = Boxed::new(alloc, copy_type(alloc, to.get())?)?;
            pointed_at(alloc, env, line, to, readonly, left, right)
        }
        (Ty::Num(_), Ty::Pointer { to, readonly }) => {
            let readonly = *readonly;
            let to = Boxed::new(alloc, copy_type(alloc, to.get())?)?;
            pointed_at(alloc, env, line, to, readonly, left, right)
        }
        _ => Err(broken(Rule::WrongType, line)),
    }
}

/// An index of what is no array.
#[tactic(auto, unfolding(c_typing::specs::Places::at_values))]
fn at_values(
    alloc: Global,
    env: &Env,
    line: u32,
    left: Option<Boxed<Expr>>,
    right: Option<Boxed<Expr>>,
) -> Result<Operand, Stop>
    ensures { Answers (at line (spec.at_values env.now line left right)) result }
{
    let (Some(left), Some(right)) = (left, right) else {
        return Err(broken(Rule::WrongType, line));
    };
    at_sum(alloc, env, line, left, right)
}

/// An element of an array that is a place, by a copy of the element's type.
#[tactic(auto, unfolding(c_typing::specs::Places::element))]
fn element(
    alloc: Global,
    line: u32,
    place: Boxed<Place>,
    readonly: bool,
    of: Boxed<Ty>,
    index: Option<Boxed<Expr>>,
) -> Result<Operand, Stop>
    ensures { Answers (at line (spec.element line place readonly of index)) result }
{
    let Some(index) = index else {
        return Err(broken(Rule::WrongType, line));
    };
    if !is_integer(&index.get().ty) {
        return Err(broken(Rule::WrongType, line));
    }
    let kind = PlaceKind::Element { of: place, index };
    let place = placed(alloc, line, of.into_inner(), kind)?;
    Ok(Operand::Place { place, readonly })
}

/// An index of a place.
fn indexed_place(
    alloc: Global,
    env: &Env,
    line: u32,
    place: Boxed<Place>,
    readonly: bool,
    index: Option<Boxed<Expr>>,
) -> Result<Operand, Stop>
    ensures { Answers (at line (spec.indexed_by env.now line place readonly (out-Ty place.ty) index)) result }
{
    match &place.get().ty {
        Ty::Array { of, .. } => {
            let of = Boxed::new(alloc, copy_type(alloc, of.get())?)?;
            element(alloc, line, place, readonly, of, index)
        }
        _ => {
            let of = value(alloc, Operand::Place { place, readonly })?;
            at_values(alloc, env, line, of, index)
        }
    }
}

/// `of [ index ]`
#[tactic(auto, unfolding(c_typing::specs::Places::indexed, c_typing::specs::Places::at_values, c_typing::specs::Values::value))]
pub fn indexed(
    alloc: Global,
    env: &Env,
    line: u32,
    of: Operand,
    index: Option<Boxed<Expr>>,
) -> Result<Operand, Stop>
    ensures { Answers (at line (spec.indexed env.now line of index)) result }
{
    match of {
        Operand::Place { place, readonly } => {
            indexed_place(alloc, env, line, place, readonly, index)
        }
        Operand::Value(value) => at_values(alloc, env, line, Some(value), index),
        Operand::Function { .. } | Operand::Builtin(_) => Err(broken(Rule::WrongType, line)),
    }
}
