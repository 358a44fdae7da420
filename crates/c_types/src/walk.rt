//! The walk over the parts of a source.

ghost use Rattle.std.specs.Prelude.{◌≡◌};
ghost use Rattle.c_typing.specs.Outcome.{Answers};
ghost use Rattle.c_externals.specs.Drafting.{Becomes};
ghost use Rattle.c_checking.specs.Calls as calls;
ghost use Rattle.c_checking.specs.Checked as spec;
ghost use Rattle.c_types.specs.Walked as walked_spec;

use base16::Name;
use c_checking::Draft;
use c_conversions::broken;
use c_externals::{globals, structure_with};
use c_functions::function;
use c_tree::{External, Init, Tree};
use c_typing::{Env, Rule, Stop};
use core_tree::Ty;
use sqlite_items::Items;
use std::alloc::Global;

/// The line of the first declarator.
fn first_line(inits: &[Init]) -> u32
    ensures { result ≡ spec.first_line inits.now }
{
    match inits {
        [] => 0,
        [first, ..] => first.line,
    }
}

/// A part of a source; `static` says nothing.
fn external_step(
    alloc: Global,
    draft: &mut Draft,
    names: &[Name],
    external: &External,
) -> Result<(), Stop>
    ensures { Becomes (spec.external_step names.now external.now draft.old) result draft.new }
{
    match external {
        External::Struct { defined, inits } => {
            structure_with(alloc, draft, defined, inits.as_slice())
        }
        External::Function {
            function: source,
            ..
        } => function(alloc, draft, names, source),
        External::Declaration {
            lifetime: None,
            declaration,
            ..
        } => globals(
            alloc,
            draft,
            &declaration.spec,
            declaration.inits.as_slice(),
        ),
        External::Declaration {
            lifetime: Some(_),
            declaration,
            ..
        } => Err(broken(Rule::WrongType, first_line(declaration.inits.as_slice()))),
    }
}

/// The parts of a source one after another.
#[tactic(auto, using(crate::proofs::Turns::steps_turn, crate::proofs::Turns::steps_break, crate::proofs::Turns::steps_end))]
fn walk(
    alloc: Global,
    draft: &mut Draft,
    names: &[Name],
    externals: &[External],
) -> Result<(), Stop>
    ensures { Becomes (walked_spec.steps names.now externals.now draft.old) result draft.new }
{
    for external in externals {
        external_step(alloc, draft, names, external)?;
    }
    Ok(())
}

/// Nothing is declared.
fn at_start(alloc: Global) -> Draft
    ensures { result ≡ spec.at_start }
{
    Draft {
        env: Env {
            structs: Items::new(alloc),
            const_members: Items::new(alloc),
            defining: None,
            names: Items::new(alloc),
            functions: Items::new(alloc),
            locals: Items::new(alloc),
            result: Ty::Void,
            start: 0,
            inside: false,
        },
        globals: Items::new(alloc),
        functions: Items::new(alloc),
    }
}

/// What a source declares, where these are the names of the functions that it defines.
pub fn walked(alloc: Global, names: &[Name], tree: &Tree) -> Result<Draft, Stop>
    requires { names.now ≡ calls.definitions tree.now }
    ensures { Answers (spec.walked tree.now) result }
{
    let mut draft = at_start(alloc);
    walk(alloc, &mut draft, names, tree.externals.as_slice())?;
    Ok(draft)
}
