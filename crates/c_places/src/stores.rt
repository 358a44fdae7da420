//! `=` (C99 6.5.16.1).

ghost use Rattle.std.specs.Prelude.{◌≡◌, Err, IfOk};
ghost use Rattle.core_tree.specs.declared.types.Ty.{out-Ty};
ghost use Rattle.c_typing.specs.Outcome.{Answers, at};
ghost use Rattle.c_typing.specs.Places as spec;
ghost use Rattle.c_typing.specs.Scopes as scopes;
ghost use Rattle.c_typing.specs.Values as values;
ghost use Rattle.core_tree.specs.declared.expressions.ExprKind.TheVariants as k;

use crate::pointers::no_place;
use base16::NoMemory;
use c_conversions::{broken, converted, is_marked, typed};
use c_rules::is_scalar;
use c_typing::{Env, Operand, Rule, Stop};
use core_tree::{Expr, ExprKind, Place, Ty, copy_type};
use sqlite_items::Boxed;
use std::alloc::Global;

/// The store of a value that has the type of its place.
fn made_store(
    alloc: Global,
    env: &Env,
    line: u32,
    place: Boxed<Place>,
    value: Boxed<Expr>,
) -> Result<Boxed<Expr>, NoMemory>
    ensures { IfOk result (λ made. made ≡ values.typed line place.ty (k.Assign place value (scopes.is_marked env.now place))) }
{
    let ty = copy_type(alloc, &place.get().ty)?;
    let marked = is_marked(env, place.get());
    let kind = ExprKind::Assign {
        place,
        value,
        marked,
    };
    typed(alloc, line, ty, kind)
}

/// The store of a value that was converted to the type of its place, if it converts.
fn stored(
    alloc: Global,
    env: &Env,
    line: u32,
    place: Boxed<Place>,
    readonly: bool,
    value: Option<Boxed<Expr>>,
) -> Result<Boxed<Expr>, Stop>
    ensures { Answers (at line (spec.stored env.now line place readonly value)) result }
{
    match value {
        Some(value) => {
            if readonly {
                return Err(broken(Rule::ConstWrite, line));
            }
            Ok(made_store(alloc, env, line, place, value)?)
        }
        None => Err(broken(Rule::WrongType, line)),
    }
}

/// A store to a place.
fn assigned_place(
    alloc: Global,
    env: &Env,
    line: u32,
    place: Boxed<Place>,
    readonly: bool,
    from: Boxed<Expr>,
) -> Result<Boxed<Expr>, Stop>
    ensures { Answers (at line (spec.assigned_by env.now line place readonly (out-Ty place.ty) from)) result }
{
    match &place.get().ty {
        Ty::Array { .. } => Err(broken(no_place(is_scalar(&from.get().ty)), line)),
        ty => {
            let value = converted(alloc, ty, from)?;
            stored(alloc, env, line, place, readonly, value)
        }
    }
}

/// What a store to a value breaks.
fn no_place_for(alloc: Global, line: u32, to: &Ty, from: Boxed<Expr>) -> Result<Boxed<Expr>, Stop>
    ensures { Answers (at line (Err (spec.no_place (spec.is_there (values.converted to.now from))))) result }
{
    let value = converted(alloc, to, from)?;
    Err(broken(no_place(value.is_some()), line))
}

/// `to = from`
#[tactic(auto, unfolding(c_typing::specs::Places::assigned))]
pub fn assigned(
    alloc: Global,
    env: &Env,
    line: u32,
    to: Operand,
    from: Option<Boxed<Expr>>,
) -> Result<Boxed<Expr>, Stop>
    ensures { Answers (at line (spec.assigned env.now line to from)) result }
{
    let Some(from) = from else {
        return Err(broken(Rule::WrongType, line));
    };
    match to {
        Operand::Place { place, readonly } => {
            assigned_place(alloc, env, line, place, readonly, from)
        }
        Operand::Value(value) => no_place_for(alloc, line, &value.get().ty, from),
        _ => Err(broken(Rule::WrongType, line)),
    }
}
