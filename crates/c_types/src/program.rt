//! The typed tree of a source, or its first fault.

ghost use Rattle.std.specs.Prelude.{◌≡◌};
ghost use Rattle.c_typing.specs.Outcome.{Answers};
ghost use Rattle.c_checking.specs.Checked as spec;
ghost use Rattle.c_types.specs.Walked as walked_spec;

use crate::walk::walked;
use base16::IntType;
use c_calls::{definitions, first_undefined};
use c_checking::Draft;
use c_conversions::broken;
use c_numbering::numbered;
use c_tree::Tree;
use c_typing::{Rule, Stop};
use core_tree::{Core, Function, Ty, Typed, same_type};
use std::alloc::Global;

/// Whether there are no types.
fn are_none(types: &[Ty]) -> bool
    ensures { result ≡ spec.is_empty types.now }
{
    match types {
        [] => true,
        _ => false,
    }
}

/// Whether a function is `int main(void)`.
fn is_main(function: &Function) -> bool
    ensures { result ≡ spec.is_main function.now }
{
    function.name.bytes() == b"main".as_slice()
        && are_none(function.params.as_slice())
        && same_type(&function.result, &Ty::Num(IntType::Int))
}

/// Whether `int main(void)` is defined.
#[tactic(auto, using(crate::proofs::Turns::main_turn, crate::proofs::Turns::main_here, crate::proofs::Turns::main_nowhere))]
fn has_main(functions: &[Function]) -> bool
    ensures { result ≡ spec.has_main functions.now }
{
    for function in functions {
        if is_main(function) {
            return true;
        }
    }
    false
}

/// The program of a draft, given the line of the first call of a function without a definition.
fn finished(undefined: Option<u32>, draft: Draft) -> Result<Core, Stop>
    ensures { Answers (walked_spec.finished undefined draft) result }
{
    if let Some(line) = undefined {
        return Err(broken(Rule::Incomplete, line));
    }
    if !has_main(draft.functions.as_slice()) {
        return Err(broken(Rule::NoMain, 0));
    }
    let Draft {
        env,
        globals,
        functions,
    } = draft;
    Ok(Core {
        structs: env.structs,
        globals,
        functions,
    })
}

/// The typed tree of a source without annotations, or its first fault.
#[tactic(auto, using(crate::proofs::Turns::walk_broken))]
pub fn check(alloc: Global, tree: &Tree) -> Result<Typed, Stop>
    ensures { Answers (spec.checked tree.now) result }
{
    let names = definitions(alloc, tree)?;
    let draft = walked(alloc, names.as_slice(), tree)?;
    let core = finished(first_undefined(tree, names.as_slice()), draft)?;
    Ok(Typed {
        core: numbered(alloc, core)?,
    })
}
