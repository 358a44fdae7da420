//! What a function is declared as.

ghost use Rattle.std.specs.Prelude.{◌≡◌, take, OnOk};
ghost use Rattle.c_typing.specs.Outcome.{Answers};
ghost use Rattle.c_checking.specs.Functions as spec;
ghost use Rattle.c_checking.specs.Walk.{inner};
ghost use Rattle.c_functions.specs.Heads.{HasHead};

use crate::parameters::listed;
use c_checking::Parameter;
use c_declarators::{base_of, leave};
use c_names::pointed;
use c_tree::{Function as SourceFunction, Params};
use c_typing::{Env, Stop};
use core_tree::Ty;
use sqlite_items::Items;
use std::alloc::Global;

/// The result and the parameters of a function.
#[derive(Drop)]
pub struct Head {
    pub result: Ty,
    pub params: Items<Parameter>,
}

/// Goes back to the locals that were declared before.
#[tactic(auto, using(crate::proofs::Leaving::kept, crate::proofs::Leaving::all_kept))]
fn forget(env: &mut Env, locals: usize)
    ensures { env.new ≡ record env.old { locals = take locals env.old.locals } }
{
    while env.locals.len() > locals {
        env.locals.pop();
    }
}

/// The parameters of a function. Each is in scope behind itself, and none behind the head.
#[tactic(auto, using(crate::proofs::Returning::params_are, crate::proofs::Returning::params_break))]
fn judged(
    alloc: Global,
    env: &mut Env,
    line: u32,
    params: &Params,
) -> Result<Items<Parameter>, Stop>
    ensures params { Answers (spec.parameters (inner env.old) line (spec.listed params.now)) result }
    ensures kept { OnOk result (env.new ≡ env.old) }
{
    let start = env.start;
    let names = env.names.len();
    let locals = env.locals.len();
    env.start = names;
    let params = listed(alloc, env, line, params)?;
    leave(env, start, names);
    forget(env, locals);
    Ok(params)
}

/// The head of a function.
#[tactic(auto, using(crate::proofs::Returning::head_is, crate::proofs::Returning::base_breaks, crate::proofs::Returning::listed_breaks))]
pub fn head_of(alloc: Global, env: &mut Env, source: &SourceFunction) -> Result<Head, Stop>
    ensures head { HasHead (spec.head env.old source.now) result }
    ensures kept { OnOk result (env.new ≡ env.old) }
{
    let base = base_of(env, source.line, &source.spec)?;
    let params = judged(alloc, env, source.line, &source.params)?;
    let (result, _) = pointed(alloc, base.ty, base.readonly, source.stars.as_slice())?;
    Ok(Head { result, params })
}
