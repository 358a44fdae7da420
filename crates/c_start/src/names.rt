//! The function `main`, and the kinds of parameters.

ghost use Rattle.std.specs.Prelude.{◌≡◌, ◌<◌, ◌^◌, ◌≤◌, length, codes, map, Option, Some, None, IfOk};
ghost use Rattle.core_tree.specs.Layout as layout;
ghost use Rattle.c_meaning.specs.After as whole;
ghost use Rattle.c_meaning.specs.declared.flow.Flow.TheVariants as spec;

use base16::{Kind, NoMemory, Sequence};
use c_meaning::Flow;
use c_values::Value;
use core_tree::{Function, Ty, kind_of};
use std::alloc::Global;

/// Whether two texts are one.
fn same_bytes(one: &[u8], other: &[u8]) -> bool
    ensures { result ≡ whole.same_bytes one.now other.now }
{
    match one {
        [] => other.is_empty(),
        [a, one @ ..] => match other {
            [] => false,
            [b, other @ ..] => *a == *b && same_bytes(one, other),
        },
    }
}

/// Whether a function is `main`.
pub fn is_main(function: &Function) -> bool
    ensures { result ≡ whole.is_main function.now }
{
    same_bytes(function.name.bytes(), &[b'm', b'a', b'i', b'n'])
}

/// The number of the function `main`.
#[tactic(auto, using(crate::proofs::Mains::main_turn))]
pub fn main_of(functions: &[Function]) -> Option<u64>
    ensures { result ≡ whole.main_from 0 functions.now }
{
    let mut number: u64 = 0;
    for function in functions {
        if is_main(function) {
            return Some(number);
        }
        number += 1;
    }
    None
}

/// The kinds of types.
#[tactic(auto, using(crate::proofs::Mains::kinds_turn))]
pub fn kinds(alloc: Global, types: &[Ty]) -> Result<Sequence<Kind>, NoMemory>
    ensures { IfOk result (λ kinds. kinds ≡ map layout.kind_of types.now) }
{
    let mut kinds = Sequence::new(alloc);
    for ty in types {
        kinds.push(kind_of(ty))?;
    }
    Ok(kinds)
}

/// The value of a call, by how the body left; `main` gives 0 at its end.
pub fn result_of(main: bool, flow: Flow) -> Value
    ensures { result ≡ whole.result_of main flow }
{
    match flow {
        Flow::Return(value) => value,
        Flow::Normal => at_end(main),
        Flow::Break => at_end(main),
        Flow::Continue => at_end(main),
        Flow::Caught => at_end(main),
    }
}

fn at_end(main: bool) -> Value
    ensures { result ≡ whole.result_of main spec.Normal }
{
    if main {
        Value::Int(0)
    } else {
        Value::Undefined
    }
}
