//! The types that names of types stand for (C99 6.7.6).

ghost use Rattle.std.specs.Prelude.{◌≡◌, IfOk};
ghost use Rattle.c_typing.specs.Outcome.{Answers, at};
ghost use Rattle.c_typing.specs.TypeNames as spec;
ghost use Rattle.c_typing.specs.Scopes as scopes;

use base16::{IntType, Name, NoMemory, Sequence};
use c_conversions::{broken, tag_of};
use c_tree::{Base, Qual, Sign, Spec};
use c_typing::{Env, Rule, Stop};
use core_tree::Ty;
use sqlite_items::{Boxed, Items};
use std::alloc::Global;

/// The type of a tag.
fn struct_type(env: &Env, line: u32, tag: &Name) -> Result<Ty, Stop>
    ensures { Answers (at line (spec.struct_type (scopes.tag_of env.now tag.now))) result }
{
    match tag_of(env, tag)? {
        Some(tag) => Ok(Ty::Struct(tag)),
        None => Err(broken(Rule::Unknown, line)),
    }
}

/// The type of a base.
#[tactic(auto, unfolding(c_typing::specs::TypeNames::base_type))]
pub fn base_type(env: &Env, line: u32, base: &Base) -> Result<Ty, Stop>
    ensures { Answers (at line (spec.base_type env.now base.now)) result }
{
    match base {
        Base::Void => Ok(Ty::Void),
        Base::Char | Base::UnsignedChar => Ok(Ty::Num(IntType::Char)),
        Base::Struct(tag) => struct_type(env, line, tag),
        Base::Int { .. } | Base::Signed => Ok(Ty::Num(IntType::Int)),
        Base::Unsigned { .. } => Ok(Ty::Num(IntType::UInt)),
        Base::Short {
            sign: Some(Sign::Unsigned),
            ..
        } => Ok(Ty::Num(IntType::UInt)),
        Base::Short { .. } => Ok(Ty::Num(IntType::Int)),
    }
}

/// Whether `const` is among qualifiers.
#[tactic(auto, using(crate::proofs::TypeTurns::const_turn, crate::proofs::TypeTurns::const_here, crate::proofs::TypeTurns::const_nowhere))]
pub fn has_const(quals: &[Qual]) -> bool
    ensures { result ≡ spec.has_const quals.now }
{
    for qual in quals {
        match qual {
            Qual::Const => return true,
            Qual::Volatile => {}
        }
    }
    false
}

/// A type and whether what has it is const, behind these stars: a pointer for each, with the qualifiers behind it.
#[tactic(auto, using(crate::proofs::TypeTurns::pointed_turn, crate::proofs::TypeTurns::pointed_end))]
pub fn pointed(
    alloc: Global,
    ty: Ty,
    readonly: bool,
    stars: &[Items<Qual>],
) -> Result<(Ty, bool), NoMemory>
    ensures { IfOk result (λ made.
        spec.pointed (record { ty = ty; readonly = readonly }) stars.now ≡ record { ty = made.0; readonly = made.1 }) }
{
    let mut made = ty;
    let mut constant = readonly;
    for quals in stars {
        let to = Boxed::new(alloc, made)?;
        made = Ty::Pointer {
            to,
            readonly: constant,
        };
        constant = has_const(quals.as_slice());
    }
    Ok((made, constant))
}

/// An array for each size, the first one outermost.
#[tactic(auto, using(crate::proofs::TypeTurns::arrays_last))]
pub fn arrays(alloc: Global, ty: Ty, counts: Sequence<u16>) -> Result<Ty, NoMemory>
    ensures { IfOk result (λ made. made ≡ spec.arrays ty counts) }
{
    let mut made = ty;
    let mut counts = counts;
    while let Some(count) = counts.pop() {
        let of = Boxed::new(alloc, made)?;
        made = Ty::Array { of, count };
    }
    Ok(made)
}

/// The type of a base, its stars and the sizes behind.
pub fn type_named(
    alloc: Global,
    env: &Env,
    line: u32,
    base: &Spec,
    stars: &[Items<Qual>],
    counts: Sequence<u16>,
) -> Result<Ty, Stop>
    ensures { Answers (at line (spec.type_named env.now (record { spec = base.now; stars = stars.now }) counts)) result }
{
    let ty = base_type(env, line, &base.base)?;
    let readonly = has_const(base.before.as_slice()) || has_const(base.after.as_slice());
    let (ty, _) = pointed(alloc, ty, readonly, stars)?;
    Ok(arrays(alloc, ty, counts)?)
}
