//! The types of declarators, and the rules of objects (C99 6.7.5).

ghost use Rattle.std.specs.Prelude.{◌≡◌, IfOk};
ghost use Rattle.c_typing.specs.Outcome.{at};
ghost use Rattle.c_checking.specs.Declarators as spec;
ghost use Rattle.c_declarators.specs.Shapes as shape;

use base16::NoMemory;
use c_conversions::{converted, is_sized};
use c_exprs::sizes;
use c_names::{arrays, base_type, has_const, pointed};
use c_tree::{Expr as Source, Qual, Spec};
use c_typing::{Env, Rule, Stop};
use core_tree::{Expr, Ty, size_of};
use sqlite_items::{Boxed, Items};
use std::alloc::Global;

/// A type, and whether what has it is const.
#[derive(Drop)]
pub struct ObjectType {
    pub ty: Ty,
    pub readonly: bool,
}

/// A value in a type, as if by assignment; none where it does not convert.
pub fn converted_value(
    alloc: Global,
    ty: &Ty,
    value: Option<Boxed<Expr>>,
) -> Result<Option<Boxed<Expr>>, NoMemory>
    ensures { IfOk result (λ made. made ≡ spec.converted_value ty.now value) }
{
    match value {
        None => Ok(None),
        Some(value) => converted(alloc, ty, value),
    }
}

/// The type that a declaration begins with; a tag that is not known is told at a line.
pub fn base_of(env: &Env, line: u32, sp: &Spec) -> Result<ObjectType, Stop>
    ensures { shape.HasType (at line (spec.base_of env.now sp.now)) result }
{
    let ty = base_type(env, line, &sp.base)?;
    Ok(ObjectType {
        ty,
        readonly: has_const(sp.before.as_slice()) || has_const(sp.after.as_slice()),
    })
}

/// The type that stars and sizes make of another. The sizes are judged at their own lines.
#[tactic(auto, using(crate::proofs::Sizes::sizes_are))]
pub fn shaped(
    alloc: Global,
    env: &Env,
    base: ObjectType,
    stars: &[Items<Qual>],
    bounds: &[Source],
) -> Result<ObjectType, Stop>
    ensures { shape.HasType (shape.shaped env.now (shape.qualified base) stars.now bounds.now) result }
{
    let counts = sizes(alloc, env, bounds)?;
    let (ty, readonly) = pointed(alloc, base.ty, base.readonly, stars)?;
    Ok(ObjectType {
        ty: arrays(alloc, ty, counts)?,
        readonly,
    })
}

/// The type of a declarator. A tag that is not known is told at a line, before the sizes, each at its own.
pub fn declared_type(
    alloc: Global,
    env: &Env,
    line: u32,
    sp: &Spec,
    stars: &[Items<Qual>],
    bounds: &[Source],
) -> Result<ObjectType, Stop>
    ensures { shape.HasType (spec.declared_type env.now line (spec.base_of env.now sp.now) stars.now bounds.now) result }
{
    let base = base_of(env, line, sp)?;
    shaped(alloc, env, base, stars, bounds)
}

/// The rule that an object of a type breaks.
pub fn object_rule(env: &Env, ty: &Ty) -> Option<Rule>
    ensures { result ≡ spec.object_rule env.now ty.now }
{
    if !is_sized(env, ty) {
        return Some(Rule::Incomplete);
    }
    if size_of(env.structs.as_slice(), ty) > 16_383 {
        return Some(Rule::TooBig);
    }
    None
}
