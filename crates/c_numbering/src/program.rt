//! The nodes of functions and of the whole program.

ghost use Rattle.std.specs.Prelude.{◌≡◌, map, get_or, IfOk};
ghost use Rattle.c_checking.specs.Numbering as spec;
ghost use Rattle.c_numbering.specs.Statements.{node_of};

use crate::expressions::taken;
use crate::statements::stmts_numbered;
use base16::{Name, NoMemory};
use core_tree::{Core, Function, Global as Variable, Ty, copy_type};
use sqlite_items::{Boxed, Items};
use std::alloc::Global;

/// The same types in memory of their own.
#[tactic(auto, using(crate::proofs::Turns::take_turn))]
fn types_copied(alloc: Global, types: &[Ty]) -> Result<Items<Ty>, NoMemory>
    ensures { IfOk result (λ made. made ≡ types.now) }
{
    let mut made = Items::new(alloc);
    for ty in types {
        made.push(copy_type(alloc, ty)?)?;
    }
    Ok(made)
}

/// A function with its nodes numbered from the next number on.
fn function_numbered(
    alloc: Global,
    function: &Function,
    next: &mut u32,
) -> Result<Boxed<Function>, NoMemory>
    ensures made { IfOk result (λ made. made ≡ (spec.function_numbered function.now next.old).0) }
    ensures next { IfOk result (λ made. next.new ≡ (spec.function_numbered function.now next.old).1) }
{
    let node = taken(next)?;
    let body = stmts_numbered(alloc, function.body.as_slice(), next)?;
    let name = Name::new(alloc, function.name.bytes())?;
    let params = types_copied(alloc, function.params.as_slice())?;
    let locals = types_copied(alloc, function.locals.as_slice())?;
    let result = copy_type(alloc, &function.result)?;
    Ok(Boxed::new(
        alloc,
        Function {
            name,
            params,
            locals,
            result,
            body,
            node,
            line: function.line,
        },
    )?)
}

/// Functions one after another.
#[tactic(auto, using(crate::proofs::Turns::functions_first, crate::proofs::Turns::functions_behind))]
fn functions_numbered(
    alloc: Global,
    all: &[Function],
    next: &mut u32,
) -> Result<Items<Function>, NoMemory>
    ensures made { IfOk result (λ made. made ≡ (spec.each (map spec.function_numbered all.now) next.old).0) }
    ensures next { IfOk result (λ made. next.new ≡ (spec.each (map spec.function_numbered all.now) next.old).1) }
{
    let mut made = Items::new(alloc);
    for function in all {
        let function = function_numbered(alloc, function, next)?;
        made.push(function.into_inner())?;
    }
    Ok(made)
}

/// How many nodes stand before a variable behind so many functions, of so many nodes in all.
#[tactic(auto, using(crate::proofs::Turns::node_there, crate::proofs::Turns::node_past))]
fn before(functions: &[Function], place: u32, total: u32) -> u32
    ensures { result ≡ get_or (map node_of functions.now) place total }
{
    let place = place as usize;
    if place < functions.len() {
        functions[place].node
    } else {
        total
    }
}

/// A variable with the number of nodes before it.
fn global_numbered(
    alloc: Global,
    functions: &[Function],
    total: u32,
    of: &Variable,
) -> Result<Boxed<Variable>, NoMemory>
    ensures { IfOk result (λ made. made ≡ spec.global_numbered (functions.now, total) of.now) }
{
    let name = Name::new(alloc, of.name.bytes())?;
    let init = Items::from_slice(alloc, of.init.as_slice())?;
    let ty = copy_type(alloc, &of.ty)?;
    Ok(Boxed::new(
        alloc,
        Variable {
            name,
            ty,
            lifetime: of.lifetime,
            init,
            before: before(functions, of.before, total),
            line: of.line,
        },
    )?)
}

/// The variables.
#[tactic(auto, using(crate::proofs::Turns::globals_turn))]
fn globals_numbered(
    alloc: Global,
    functions: &[Function],
    total: u32,
    all: &[Variable],
) -> Result<Items<Variable>, NoMemory>
    ensures { IfOk result (λ made. made ≡ map (spec.global_numbered (functions.now, total)) all.now) }
{
    let mut made = Items::new(alloc);
    for global in all {
        let global = global_numbered(alloc, functions, total, global)?;
        made.push(global.into_inner())?;
    }
    Ok(made)
}

/// A program with its nodes numbered, where `before` of a variable says how many functions are defined before it.
///
/// # Errors
/// `NoMemory` if memory runs out, or there are 2^32 - 1 nodes.
#[tactic(auto, unfolding(c_checking::specs::Numbering::numbered))]
pub fn numbered(alloc: Global, core: Core) -> Result<Core, NoMemory>
    ensures { IfOk result (λ made. made ≡ spec.numbered core) }
{
    let Core {
        structs,
        globals,
        functions,
    } = core;
    let mut total = 0;
    let functions = functions_numbered(alloc, functions.as_slice(), &mut total)?;
    let globals = globals_numbered(alloc, functions.as_slice(), total, globals.as_slice())?;
    Ok(Core {
        structs,
        globals,
        functions,
    })
}
