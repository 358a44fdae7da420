//! Names and constants.

ghost use Rattle.c_typing.specs.Outcome.{Answers};
ghost use Rattle.c_typing.specs.Expressions.{kind_means};

use base16::Name;
use c_names::{character, named, number};
use c_tree::ExprKind as SourceKind;
use c_typing::{Env, Operand, Stop, lookup};
use std::alloc::Global;

/// A name.
#[tactic(auto, using(crate::proofs::Equations::name_is))]
pub fn name_node(alloc: Global, env: &Env, line: u32, name: &Name) -> Result<Operand, Stop>
    ensures { Answers (kind_means env.now (SourceKind.Name name.now) line) result }
{
    let what = lookup(env.names.as_slice(), name);
    named(alloc, line, name, what)
}

/// A number.
#[tactic(auto, using(crate::proofs::Equations::number_is))]
pub fn number_node(
    alloc: Global,
    _env: &Env,
    line: u32,
    value: u32,
    decimal: bool,
    unsigned: bool,
) -> Result<Operand, Stop>
    ensures { Answers (kind_means _env.now (SourceKind.Number value decimal unsigned) line) result }
{
    let _ = decimal;
    Ok(number(alloc, line, value, unsigned)?)
}

/// A character constant.
#[tactic(auto, using(crate::proofs::Equations::character_is))]
pub fn character_node(alloc: Global, _env: &Env, line: u32, code: u8) -> Result<Operand, Stop>
    ensures { Answers (kind_means _env.now (SourceKind.Char code) line) result }
{
    Ok(character(alloc, line, code)?)
}
