//! `*` and `&` (C99 6.5.3.2).

ghost use Rattle.std.specs.Prelude.{◌≡◌};
ghost use Rattle.core_tree.specs.declared.types.Ty.{out-Ty};
ghost use Rattle.c_typing.specs.Outcome.{Answers, at};
ghost use Rattle.c_typing.specs.Places as spec;

use c_conversions::{broken, placed, typed};
use c_rules::is_scalar;
use c_typing::{Operand, Rule, Stop};
use core_tree::{Expr, ExprKind, Place, PlaceKind, Ty, copy_type};
use sqlite_items::Boxed;
use std::alloc::Global;

/// What a value breaks where a place should be: `void` is outside the rules, any other value is no place.
pub fn no_place(fits: bool) -> Rule
    ensures { result ≡ spec.no_place fits }
{
    if fits {
        Rule::NotPlace
    } else {
        Rule::WrongType
    }
}

/// What an expression points to.
fn deref_of(alloc: Global, line: u32, pointer: Boxed<Expr>) -> Result<Operand, Stop>
    ensures { Answers (at line (spec.deref_by line pointer (out-Ty pointer.ty))) result }
{
    match &pointer.get().ty {
        Ty::Pointer { to, readonly } => {
            let readonly = *readonly;
            let to = copy_type(alloc, to.get())?;
            let place = placed(alloc, line, to, PlaceKind::Deref(pointer))?;
            Ok(Operand::Place { place, readonly })
        }
        _ => Err(broken(Rule::WrongType, line)),
    }
}

/// `* pointer`
#[tactic(auto, unfolding(c_typing::specs::Places::deref))]
pub fn deref(alloc: Global, line: u32, pointer: Option<Boxed<Expr>>) -> Result<Operand, Stop>
    ensures { Answers (at line (spec.deref line pointer)) result }
{
    let Some(pointer) = pointer else {
        return Err(broken(Rule::WrongType, line));
    };
    deref_of(alloc, line, pointer)
}

/// The address of a place.
fn address_of(
    alloc: Global,
    line: u32,
    place: Boxed<Place>,
    readonly: bool,
) -> Result<Boxed<Expr>, Stop>
    ensures { Answers (at line (spec.address_by line place readonly (out-Ty place.ty))) result }
{
    match &place.get().ty {
        Ty::Array { .. } => Err(broken(Rule::WrongType, line)),
        ty => {
            let to = Boxed::new(alloc, copy_type(alloc, ty)?)?;
            let ty = Ty::Pointer { to, readonly };
            Ok(typed(alloc, line, ty, ExprKind::Address(place))?)
        }
    }
}

/// `& of`
#[tactic(auto, unfolding(c_typing::specs::Places::address))]
pub fn address(alloc: Global, line: u32, of: Operand) -> Result<Boxed<Expr>, Stop>
    ensures { Answers (at line (spec.address line of)) result }
{
    match of {
        Operand::Place { place, readonly } => address_of(alloc, line, place, readonly),
        Operand::Value(value) => Err(broken(no_place(is_scalar(&value.get().ty)), line)),
        _ => Err(broken(Rule::WrongType, line)),
    }
}
