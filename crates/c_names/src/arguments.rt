//! The arguments of a call (C99 6.5.2.2).

ghost use Rattle.std.specs.Prelude.{◌≡◌, IfOk, slice_get, drop, reverse};
ghost use Rattle.std.specs.Option.{option_copied};
ghost use Rattle.c_typing.specs.Calls as spec;
ghost use Rattle.c_names.specs.Arguments.{and_this};

use base16::NoMemory;
use c_conversions::{converted, value};
use c_rules::is_scalar;
use c_typing::Operand;
use core_tree::{Expr, Ty};
use sqlite_items::{Boxed, Items};
use std::alloc::Global;

/// An argument in the type of its parameter. One with no parameter for it has to be some scalar.
#[tactic(auto, unfolding(c_typing::specs::Calls::accepted))]
fn accepted(
    alloc: Global,
    param: Option<&Ty>,
    argument: Option<Boxed<Expr>>,
) -> Result<Option<Boxed<Expr>>, NoMemory>
    ensures { IfOk result (λ made. made ≡ spec.accepted (option_copied param.entry) argument) }
{
    let Some(argument) = argument else {
        return Ok(None);
    };
    match param {
        Some(ty) => converted(alloc, ty, argument),
        None => {
            if is_scalar(&argument.get().ty) {
                Ok(Some(argument))
            } else {
                Ok(None)
            }
        }
    }
}

/// The arguments so far and one more, none where one of them is not accepted.
fn and_this_one(
    found: Option<Items<Expr>>,
    argument: Option<Boxed<Expr>>,
) -> Result<Option<Items<Expr>>, NoMemory>
    ensures { IfOk result (λ made. made ≡ and_this found argument) }
{
    let (Some(mut found), Some(argument)) = (found, argument) else {
        return Ok(None);
    };
    found.push(argument.into_inner())?;
    Ok(Some(found))
}

/// The first parameter.
fn first(params: &[Ty]) -> Option<&Ty>
    ensures { option_copied result ≡ slice_get params.now 0 }
{
    match params {
        [param, ..] => Some(param),
        [] => None,
    }
}

/// The parameters behind the first.
fn behind(params: &[Ty]) -> &[Ty]
    ensures { result.now ≡ drop 1 params.now }
{
    match params {
        [_, rest @ ..] => rest,
        [] => params,
    }
}

/// Operands from the last one to the first.
#[tactic(auto, using(crate::proofs::ArgumentTurns::turned_turn, crate::proofs::ArgumentTurns::turned_end))]
fn turned(alloc: Global, operands: Items<Operand>) -> Result<Items<Operand>, NoMemory>
    ensures { IfOk result (λ made. made ≡ reverse operands) }
{
    let mut left = operands;
    let mut made = Items::new(alloc);
    while let Some(operand) = left.pop() {
        made.push(operand)?;
    }
    Ok(made)
}

/// The arguments in the types of the parameters, none where one is not accepted.
#[tactic(auto, using(crate::proofs::ArgumentTurns::passed_turn, crate::proofs::ArgumentTurns::passed_start, crate::proofs::ArgumentTurns::passed_end))]
pub fn passed(
    alloc: Global,
    params: &[Ty],
    operands: Items<Operand>,
) -> Result<Option<Items<Expr>>, NoMemory>
    ensures { IfOk result (λ made. made ≡ spec.passed params.now operands) }
{
    let mut left = turned(alloc, operands)?;
    let mut params = params;
    let mut found = Some(Items::new(alloc));
    while let Some(operand) = left.pop() {
        let argument = value(alloc, operand)?;
        let argument = accepted(alloc, first(params), argument)?;
        found = and_this_one(found, argument)?;
        params = behind(params);
    }
    Ok(found)
}
