//! The parameters of a function (C99 6.7.5.3).

ghost use Rattle.std.specs.Prelude.{◌≡◌, IfOk, OnOk};
ghost use Rattle.c_typing.specs.Outcome.{Answers};
ghost use Rattle.c_typing.specs.TypeNames as types;
ghost use Rattle.c_declarators.specs.Shapes as shape;
ghost use Rattle.c_checking.specs.Declarators as declarators;
ghost use Rattle.c_checking.specs.Functions as spec;
ghost use Rattle.c_checking.specs.Walk.{Walks};
ghost use Rattle.c_functions.specs.Heads as heads;

use base16::{Name, NoMemory};
use c_checking::Parameter;
use c_declarators::{ObjectType, base_of, declare_local, shaped};
use c_exprs::valued;
use c_names::array_size;
use c_rules::value as constant_value;
use c_tree::{Expr as Source, Param, Params};
use c_typing::{Env, Stop};
use core_tree::{Expr, Ty};
use sqlite_items::{Boxed, Items};
use std::alloc::Global;

/// The value of a constant.
fn constant_of(value: &Option<Boxed<Expr>>) -> Option<i64>
    ensures { result ≡ types.constant_of value.now }
{
    match value {
        Some(expr) => constant_value(expr.get()),
        None => None,
    }
}

/// The number that an expression says where the size of an array stands.
fn size(alloc: Global, env: &Env, bound: &Source) -> Result<u16, Stop>
    ensures { Answers (declarators.size env.now bound.now) result }
{
    let value = valued(alloc, env, bound)?;
    array_size(bound.line, constant_of(&value))
}

/// The number of elements that stands in the first pair of brackets.
fn first_count(
    alloc: Global,
    env: &Env,
    first: &Option<Option<Source>>,
) -> Result<Option<u16>, Stop>
    ensures { Answers (heads.first_count env.now first.now) result }
{
    match first {
        Some(Some(bound)) => Ok(Some(size(alloc, env, bound)?)),
        Some(None) => Ok(None),
        None => Ok(None),
    }
}

/// A parameter that is written as an array is a pointer to its element.
fn turned(
    alloc: Global,
    first: &Option<Option<Source>>,
    ty: ObjectType,
) -> Result<ObjectType, NoMemory>
    ensures { IfOk result (λ made. shape.qualified made ≡ heads.turned first.now (shape.qualified ty)) }
{
    match first {
        None => Ok(ty),
        Some(_) => Ok(ObjectType {
            ty: Ty::Pointer {
                to: Boxed::new(alloc, ty.ty)?,
                readonly: ty.readonly,
            },
            readonly: false,
        }),
    }
}

/// A copy of a name, where there is one.
fn copied_name(alloc: Global, name: &Option<Name>) -> Result<Option<Name>, NoMemory>
    ensures { IfOk result (λ made. made ≡ name.now) }
{
    match name {
        Some(name) => Ok(Some(Name::new(alloc, name.bytes())?)),
        None => Ok(None),
    }
}

/// A parameter. A tag that is not known is told at the line of the function.
#[tactic(auto, using(crate::proofs::ParameterLaws::parameter_is, crate::proofs::ParameterLaws::base_breaks, crate::proofs::ParameterLaws::first_breaks, crate::proofs::ParameterLaws::shape_breaks))]
fn parameter(alloc: Global, env: &Env, line: u32, source: &Param) -> Result<Parameter, Stop>
    ensures { Answers (spec.parameter env.now line source.now) result }
{
    let base = base_of(env, line, &source.spec)?;
    first_count(alloc, env, &source.first_bound)?;
    let name = copied_name(alloc, &source.name)?;
    let ty = shaped(
        alloc,
        env,
        base,
        source.stars.as_slice(),
        source.bounds.as_slice(),
    )?;
    let ty = turned(alloc, &source.first_bound, ty)?;
    Ok(Parameter {
        name,
        ty: ty.ty,
        readonly: ty.readonly,
    })
}

/// A parameter that has a name is a local.
fn enter_parameter(alloc: Global, env: &mut Env, parameter: &Parameter) -> Result<(), NoMemory>
    ensures { OnOk result (env.new ≡ spec.enter_parameter parameter.now env.old) }
{
    let Some(name) = &parameter.name else {
        return Ok(());
    };
    match declare_local(alloc, env, name, &parameter.ty, parameter.readonly) {
        Ok(_) => Ok(()),
        Err(_) => Err(NoMemory),
    }
}

/// All parameters are locals.
#[tactic(auto, using(crate::proofs::Turns::enter_turn, crate::proofs::Turns::enter_end))]
pub fn enter_parameters(
    alloc: Global,
    env: &mut Env,
    parameters: &[Parameter],
) -> Result<(), NoMemory>
    ensures { OnOk result (env.new ≡ spec.enter_parameters parameters.now env.old) }
{
    for parameter in parameters {
        enter_parameter(alloc, env, parameter)?;
    }
    Ok(())
}

/// Parameters, each in scope behind itself.
#[tactic(auto, using(crate::proofs::ParameterLaws::nothing_yet, crate::proofs::ParameterLaws::walk_turn, crate::proofs::ParameterLaws::walk_break, crate::proofs::ParameterLaws::walk_end))]
fn parameters(
    alloc: Global,
    env: &mut Env,
    line: u32,
    all: &[Param],
) -> Result<Items<Parameter>, Stop>
    ensures { Walks (heads.walked env.old line all.now) result env.new }
{
    let mut found = Items::new(alloc);
    for source in all {
        let parameter = parameter(alloc, env, line, source)?;
        enter_parameter(alloc, env, &parameter)?;
        found.push(parameter)?;
    }
    Ok(found)
}

/// What stands in the parentheses of a function.
pub fn listed(
    alloc: Global,
    env: &mut Env,
    line: u32,
    params: &Params,
) -> Result<Items<Parameter>, Stop>
    ensures { Walks (heads.walked env.old line (spec.listed params.now)) result env.new }
{
    match params {
        Params::Void { .. } => Ok(Items::new(alloc)),
        Params::List(all) => parameters(alloc, env, line, all.as_slice()),
    }
}
