//! The bodies of functions.

ghost use Rattle.std.specs.Prelude.{◌≡◌, drop, IfOk, OnOk};
ghost use Rattle.c_checking.specs.Functions as spec;
ghost use Rattle.c_checking.specs.Walk.{Walks};
ghost use Rattle.c_functions.specs.Heads as heads;

use crate::heads::Head;
use crate::names::{copied, types_of};
use crate::parameters::enter_parameters;
use base16::{Name, NoMemory};
use c_declarators::leave;
use c_statements::compound;
use c_tree::{Compound, Function as SourceFunction};
use c_typing::{Env, Stop};
use core_tree::{Function, Stmt, Ty, copy_type};
use sqlite_items::{Boxed, Items};
use std::alloc::Global;

/// The statements of a body, and the types of its parameters and locals.
#[derive(Drop)]
pub struct Body {
    pub statements: Items<Stmt>,
    pub objects: Items<Ty>,
}

/// The parameters and what stands in the braces are one scope.
fn enter(alloc: Global, env: &mut Env, head: &Head) -> Result<(), NoMemory>
    ensures { OnOk result (env.new ≡ spec.entering (heads.shown head.now) env.old) }
{
    env.start = env.names.len();
    env.locals = Items::new(alloc);
    env.result = copy_type(alloc, &head.result)?;
    enter_parameters(alloc, env, head.params.as_slice())
}

/// A body, whose names end with it.
#[tactic(auto, using(crate::proofs::Returning::body_is, crate::proofs::Returning::body_breaks))]
pub fn body_of(alloc: Global, env: &mut Env, head: &Head, body: &Compound) -> Result<Body, Stop>
    ensures { Walks (heads.body_of (heads.shown head.now) body.now env.old) result env.new }
{
    let start = env.start;
    let names = env.names.len();
    let locals = std::mem::replace(&mut env.locals, Items::new(alloc));
    let result = std::mem::replace(&mut env.result, Ty::Void);
    enter(alloc, env, head)?;
    let statements = compound(alloc, env, body)?;
    leave(env, start, names);
    let objects = std::mem::replace(&mut env.locals, locals);
    env.result = result;
    Ok(Body {
        statements,
        objects,
    })
}

/// The types behind a number of them.
fn behind(alloc: Global, types: &[Ty], count: usize) -> Result<Items<Ty>, NoMemory>
    ensures { IfOk result (λ made. made ≡ drop count types.now) }
{
    match types.get(count..) {
        Some(rest) => copied(alloc, rest),
        None => Ok(Items::new(alloc)),
    }
}

/// A function with its body.
pub fn function_of(
    alloc: Global,
    source: &SourceFunction,
    head: &Head,
    body: Body,
) -> Result<Boxed<Function>, NoMemory>
    ensures { IfOk result (λ made. made ≡ spec.function_of source.now (heads.shown head.now) body.statements body.objects) }
{
    let name = Name::new(alloc, source.name.bytes())?;
    let params = types_of(alloc, head.params.as_slice())?;
    let locals = behind(alloc, body.objects.as_slice(), head.params.len())?;
    let result = copy_type(alloc, &head.result)?;
    Ok(Boxed::new(
        alloc,
        Function {
            name,
            params,
            locals,
            result,
            body: body.statements,
            node: 0,
            line: source.line,
        },
    )?)
}
