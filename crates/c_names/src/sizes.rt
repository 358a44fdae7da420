//! The sizes of arrays, `sizeof` and casts (C99 6.5.3.4 and 6.5.4).

ghost use Rattle.std.specs.Prelude.{◌≡◌, IfOk, map};
ghost use Rattle.c_typing.specs.Expressions.{words_of};
ghost use Rattle.c_typing.specs.Outcome.{Answers, at};
ghost use Rattle.c_typing.specs.Places.{operand_type as type_of_operand};
ghost use Rattle.c_typing.specs.TypeNames as spec;
ghost use Rattle.c_typing.specs.Values as values;

use crate::typenames::type_named;
use base16::{IntType, NoMemory, Sequence};
use c_conversions::{broken, is_sized, typed, value};
use c_places::operand_type;
use c_rules::{casts, value as constant_value};
use c_tree::Typename;
use c_typing::{Env, Operand, Rule, Stop};
use core_tree::{Expr, ExprKind, Ty, copy_type, size_of};
use sqlite_items::{Boxed, Items};
use std::alloc::Global;

/// The size of an array by the value that stands for it: a constant from 1 to 32,767.
fn checked_size(value: Option<i64>) -> Result<u16, Rule>
    ensures { result ≡ spec.array_size value }
{
    let Some(number) = value else {
        return Err(Rule::NotConstant);
    };
    if number < 1 || 32767 < number {
        return Err(Rule::Incomplete);
    }
    Ok(number as u16)
}

/// The size of an array, at its line: a constant from 1 to 32,767.
pub fn array_size(line: u32, value: Option<i64>) -> Result<u16, Stop>
    ensures { Answers (at line (spec.array_size value)) result }
{
    match checked_size(value) {
        Ok(count) => Ok(count),
        Err(rule) => Err(broken(rule, line)),
    }
}

/// The value of an operand that is constant. A place is not.
#[tactic(auto, using(crate::proofs::CastParts::place_is_no_constant), unfolding(c_typing::specs::Values::value))]
fn constant_of(operand: &Operand) -> Option<i64>
    ensures { result ≡ spec.constant_of (values.value operand.now) }
{
    match operand {
        Operand::Value(value) => constant_value(value.get()),
        Operand::Place { .. } => None,
        Operand::Function { .. } | Operand::Builtin(_) => None,
    }
}

/// An operand where the size of an array stands, at the line of the size.
pub fn as_size(line: u32, size: Operand) -> Result<Operand, Stop>
    ensures { Answers (at line (spec.as_size size)) result }
{
    match checked_size(constant_of(&size)) {
        Ok(_) => Ok(size),
        Err(rule) => Err(broken(rule, line)),
    }
}

/// The number of elements that such an operand says; 0 where it says none.
pub fn count_of(size: &Operand) -> u16
    ensures { result ≡ spec.count_of size.now }
{
    match checked_size(constant_of(size)) {
        Ok(count) => count,
        Err(_) => 0,
    }
}

/// The numbers that operands say.
fn counts_of(alloc: Global, sizes: &[Operand]) -> Result<Sequence<u16>, NoMemory>
    ensures { IfOk result (λ counts. counts ≡ map spec.count_of sizes.now) }
{
    let mut counts = Sequence::new(alloc);
    for size in sizes {
        counts.push(count_of(size))?;
    }
    Ok(counts)
}

/// `sizeof` of a type.
#[tactic(auto, unfolding(c_typing::specs::TypeNames::size_constant))]
fn size_constant(alloc: Global, env: &Env, line: u32, ty: &Ty) -> Result<Boxed<Expr>, Stop>
    ensures { Answers (at line (spec.size_constant env.now line ty.now)) result }
{
    if !is_sized(env, ty) {
        return Err(broken(Rule::Incomplete, line));
    }
    let size = size_of(env.structs.as_slice(), ty);
    if 65535 < size {
        return Err(broken(Rule::TooBig, line));
    }
    let kind = ExprKind::Constant(i64::from(size));
    Ok(typed(alloc, line, Ty::Num(IntType::UInt), kind)?)
}

/// `sizeof of`, of an operand that is not evaluated. An array is no pointer there.
pub fn size_of_operand(
    alloc: Global,
    env: &Env,
    line: u32,
    of: Operand,
) -> Result<Boxed<Expr>, Stop>
    ensures { Answers (at line (spec.size_of_operand env.now line (type_of_operand of))) result }
{
    match operand_type(&of) {
        Some(ty) => size_constant(alloc, env, line, ty),
        None => Err(broken(Rule::WrongType, line)),
    }
}

/// The type that a type's name stands for, given the operands of its sizes.
fn type_of_name(
    alloc: Global,
    env: &Env,
    line: u32,
    name: &Typename,
    counts: Sequence<u16>,
) -> Result<Ty, Stop>
    ensures { Answers (at line (spec.type_named env.now (words_of name.now) counts)) result }
{
    type_named(alloc, env, line, &name.spec, name.stars.as_slice(), counts)
}

/// `sizeof ( of )`, given the operands of the sizes in the type's name.
pub fn size_of_named(
    alloc: Global,
    env: &Env,
    line: u32,
    of: &Typename,
    sizes: Items<Operand>,
) -> Result<Boxed<Expr>, Stop>
    ensures { Answers (at line (spec.size_of_named env.now line
        (spec.type_named env.now (words_of of.now) (map spec.count_of sizes)))) result }
{
    let counts = counts_of(alloc, sizes.as_slice())?;
    let ty = type_of_name(alloc, env, line, of, counts)?;
    size_constant(alloc, env, line, &ty)
}

/// A value in the type of a cast: an integer in an integer type.
fn cast_to(
    alloc: Global,
    line: u32,
    ty: &Ty,
    value: Option<Boxed<Expr>>,
) -> Result<Boxed<Expr>, Stop>
    ensures { Answers (at line (spec.cast_to line ty.now value)) result }
{
    let Some(value) = value else {
        return Err(broken(Rule::WrongType, line));
    };
    if !casts(&value.get().ty, ty) {
        return Err(broken(Rule::WrongType, line));
    }
    let ty = copy_type(alloc, ty)?;
    Ok(typed(alloc, line, ty, ExprKind::Convert(value))?)
}

/// The value of the last operand, and the numbers that those before it say.
#[tactic(auto, using(crate::proofs::CastParts::sizes_but_last, crate::proofs::CastParts::value_of_last))]
fn sizes_and_value(
    alloc: Global,
    operands: Items<Operand>,
) -> Result<(Sequence<u16>, Option<Boxed<Expr>>), NoMemory>
    ensures { IfOk result (λ parts. (parts.0 ≡ spec.sizes_before operands) × (parts.1 ≡ spec.last_value operands)) }
{
    let mut sizes = operands;
    let Some(last) = sizes.pop() else {
        return Ok((Sequence::new(alloc), None));
    };
    let value = value(alloc, last)?;
    Ok((counts_of(alloc, sizes.as_slice())?, value))
}

/// `( to ) of`, given the operands of the sizes in the type's name and behind them that of `of`.
pub fn cast(
    alloc: Global,
    env: &Env,
    line: u32,
    to: &Typename,
    operands: Items<Operand>,
) -> Result<Boxed<Expr>, Stop>
    ensures { Answers (at line (spec.cast line
        (spec.type_named env.now (words_of to.now) (spec.sizes_before operands)) (spec.last_value operands))) result }
{
    let (counts, value) = sizes_and_value(alloc, operands)?;
    let ty = type_of_name(alloc, env, line, to, counts)?;
    cast_to(alloc, line, &ty, value)
}
