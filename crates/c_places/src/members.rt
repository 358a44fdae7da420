//! Members (C99 6.5.2.3).

ghost use Rattle.std.specs.Prelude.{◌≡◌};
ghost use Rattle.core_tree.specs.declared.types.Ty.{out-Ty};
ghost use Rattle.c_conversions.specs.Members.{as_found};
ghost use Rattle.c_typing.specs.Outcome.{Answers, at};
ghost use Rattle.c_typing.specs.Places as spec;

use base16::Name;
use c_conversions::{FoundMember, broken, find_member, is_const_member, placed};
use c_typing::{Env, Operand, Rule, Stop};
use core_tree::{Expr, Place, PlaceKind, Ty, copy_type};
use sqlite_items::Boxed;
use std::alloc::Global;

/// A member of a struct that is a place, if there is one: const where the struct or the member is.
fn found_member(
    alloc: Global,
    env: &Env,
    line: u32,
    place: Boxed<Place>,
    readonly: bool,
    tag: u16,
    found: Option<FoundMember>,
) -> Result<Operand, Stop>
    ensures { Answers (at line (spec.member_by env.now line place readonly tag (as_found found))) result }
{
    let Some(FoundMember { number, ty }) = found else {
        return Err(broken(Rule::Unknown, line));
    };
    let readonly = readonly || is_const_member(env, tag, number);
    let kind = PlaceKind::Member {
        of: place,
        tag,
        member: number,
    };
    let place = placed(alloc, line, ty, kind)?;
    Ok(Operand::Place { place, readonly })
}

/// A member of a place.
fn member_in(
    alloc: Global,
    env: &Env,
    line: u32,
    name: &Name,
    place: Boxed<Place>,
    readonly: bool,
) -> Result<Operand, Stop>
    ensures { Answers (at line (spec.member_in env.now line name.now place readonly (out-Ty place.ty))) result }
{
    match &place.get().ty {
        Ty::Struct(tag) => {
            let tag = *tag;
            let found = find_member(alloc, env, tag, name)?;
            found_member(alloc, env, line, place, readonly, tag, found)
        }
        _ => Err(broken(Rule::WrongType, line)),
    }
}

/// `of . name`
#[tactic(auto, unfolding(c_typing::specs::Places::member))]
pub fn member(
    alloc: Global,
    env: &Env,
    line: u32,
    name: &Name,
    of: Operand,
) -> Result<Operand, Stop>
    ensures { Answers (at line (spec.member env.now line name.now of)) result }
{
    match of {
        Operand::Place { place, readonly } => member_in(alloc, env, line, name, place, readonly),
        _ => Err(broken(Rule::WrongType, line)),
    }
}

/// A member of what an expression points to.
fn arrow_from(
    alloc: Global,
    env: &Env,
    line: u32,
    name: &Name,
    pointer: Boxed<Expr>,
) -> Result<Operand, Stop>
    ensures { Answers (at line (spec.arrow_by env.now line name.now pointer (out-Ty pointer.ty))) result }
{
    match &pointer.get().ty {
        Ty::Pointer { to, readonly } => {
            let readonly = *readonly;
            let to = copy_type(alloc, to.get())?;
            let place = placed(alloc, line, to, PlaceKind::Deref(pointer))?;
            member_in(alloc, env, line, name, place, readonly)
        }
        _ => Err(broken(Rule::WrongType, line)),
    }
}

/// `pointer -> name`
#[tactic(auto, unfolding(c_typing::specs::Places::arrow))]
pub fn arrow(
    alloc: Global,
    env: &Env,
    line: u32,
    name: &Name,
    pointer: Option<Boxed<Expr>>,
) -> Result<Operand, Stop>
    ensures { Answers (at line (spec.arrow env.now line name.now pointer)) result }
{
    let Some(pointer) = pointer else {
        return Err(broken(Rule::WrongType, line));
    };
    arrow_from(alloc, env, line, name, pointer)
}
