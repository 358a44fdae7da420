//! The sizes of arrays in declarators (C99 6.7.5.2).

ghost use Rattle.std.specs.Prelude.{◌≡◌};
ghost use Rattle.c_typing.specs.Outcome.{Answers};
ghost use Rattle.c_typing.specs.TypeNames as types;
ghost use Rattle.c_exprs.specs.Parts as spec;

use crate::expressions::valued;
use base16::Sequence;
use c_names::array_size;
use c_rules::value as constant_value;
use c_tree::Expr as Source;
use c_typing::{Env, Stop};
use core_tree::Expr;
use sqlite_items::Boxed;
use std::alloc::Global;

/// The value of a constant.
fn constant_of(value: &Option<Boxed<Expr>>) -> Option<i64>
    ensures { result ≡ types.constant_of value.now }
{
    match value {
        Some(expr) => constant_value(expr.get()),
        None => None,
    }
}

/// The number that an expression says where the size of an array stands, judged at its own line.
fn size(alloc: Global, env: &Env, bound: &Source) -> Result<u16, Stop>
    ensures { Answers (spec.size env.now bound.now) result }
{
    let value = valued(alloc, env, bound)?;
    array_size(bound.line, constant_of(&value))
}

/// The sizes of an array in the order of the text, up to the first fault.
#[tactic(auto, using(crate::proofs::Turns::sizes_turn, crate::proofs::Turns::sizes_break, crate::proofs::Turns::sizes_end))]
pub fn sizes(alloc: Global, env: &Env, bounds: &[Source]) -> Result<Sequence<u16>, Stop>
    ensures { Answers (spec.sizes env.now bounds.now) result }
{
    let mut found = Sequence::new(alloc);
    for bound in bounds {
        let size = size(alloc, env, bound)?;
        found.push(size)?;
    }
    Ok(found)
}
