//! Functions and prototypes.

ghost use Rattle.std.specs.Prelude.{◌≡◌, IfOk, OnOk, Some};
ghost use Rattle.c_checking.specs.Functions as spec;
ghost use Rattle.c_externals.specs.Drafting.{Becomes};
ghost use Rattle.c_typing.specs.Scopes as names;
ghost use Rattle.c_functions.specs.Heads.{shown};
ghost use Rattle.c_functions.specs.Heads as heads;

use crate::bodies::{body_of, function_of};
use crate::heads::{Head, head_of};
use crate::names::{place_of, types_of};
use crate::rules::{earlier, function_rule, was_defined};
use base16::{Name, NoMemory};
use c_checking::Draft;
use c_conversions::broken;
use c_tree::{Compound, Function as SourceFunction};
use c_typing::{Env, Named, Signature, Stop, What, lookup};
use core_tree::copy_type;
use std::alloc::Global;

/// What is known of a function behind this declaration of it.
fn signature(
    alloc: Global,
    definitions: &[Name],
    env: &Env,
    source: &SourceFunction,
    head: &Head,
) -> Result<Signature, NoMemory>
    ensures { IfOk result (λ made. made ≡ spec.signature definitions.now env.now source.now (shown head.now)) }
{
    let Ok(number) = u16::try_from(place_of(definitions, &source.name)) else {
        return Err(NoMemory);
    };
    Ok(Signature {
        result: copy_type(alloc, &head.result)?,
        params: types_of(alloc, head.params.as_slice())?,
        number,
        is_defined: source.body.is_some() || was_defined(earlier(env, &source.name)),
    })
}

/// The place of a function that is declared already.
fn known_place(env: &Env, name: &Name) -> Option<u16>
    ensures { result ≡ heads.place_of (names.lookup env.now.names name.now) }
{
    match lookup(env.names.as_slice(), name) {
        Some(What::Function { place }) => Some(*place),
        _ => None,
    }
}

/// Declares a function, or another time.
#[tactic(auto, using(crate::proofs::Declaring::known_is, crate::proofs::Declaring::new_is, crate::proofs::Declaring::past_is))]
fn declared(alloc: Global, env: &mut Env, name: &Name, signature: Signature) -> Result<(), NoMemory>
    ensures { OnOk result (env.new ≡ spec.declared env.old name.now signature) }
{
    if let Some(place) = known_place(env, name) {
        if usize::from(place) < env.functions.len() {
            env.functions.set(usize::from(place), signature);
        }
        return Ok(());
    }
    let Ok(place) = u16::try_from(env.functions.len()) else {
        return Err(NoMemory);
    };
    let name = Name::new(alloc, name.bytes())?;
    env.names.push(Named {
        name,
        what: What::Function { place },
    })?;
    env.functions.push(signature)?;
    Ok(())
}

/// A function with its body, behind those before it.
#[tactic(auto, using(crate::proofs::Declaring::defined_is, crate::proofs::Declaring::defined_breaks))]
fn defined(
    alloc: Global,
    draft: &mut Draft,
    source: &SourceFunction,
    head: &Head,
    body: &Compound,
) -> Result<(), Stop>
    ensures { Becomes (spec.with_body source.now (shown head.now) draft.old draft.old.env (Some body.now)) result draft.new }
{
    let body = body_of(alloc, &mut draft.env, head, body)?;
    let made = function_of(alloc, source, head, body)?;
    draft.functions.push(made.into_inner())?;
    Ok(())
}

/// A function that breaks no rule. It is declared before its body is walked.
#[tactic(auto, using(crate::proofs::Declaring::accepted_prototype, crate::proofs::Declaring::accepted_is, crate::proofs::Declaring::accepted_breaks))]
fn accepted(
    alloc: Global,
    draft: &mut Draft,
    definitions: &[Name],
    source: &SourceFunction,
    head: &Head,
) -> Result<(), Stop>
    ensures { Becomes (heads.accepted definitions.now source.now (shown head.now) draft.old) result draft.new }
{
    let known = signature(alloc, definitions, &draft.env, source, head)?;
    declared(alloc, &mut draft.env, &source.name, known)?;
    let Some(body) = &source.body else {
        return Ok(());
    };
    defined(alloc, draft, source, head, body)?;
    Ok(())
}

/// A function or prototype, where these are the names of the functions that the source defines.
#[tactic(auto, using(crate::proofs::Declaring::head_breaks))]
pub fn function(
    alloc: Global,
    draft: &mut Draft,
    definitions: &[Name],
    source: &SourceFunction,
) -> Result<(), Stop>
    ensures { Becomes (spec.function definitions.now source.now draft.old) result draft.new }
{
    let head = head_of(alloc, &mut draft.env, source)?;
    match function_rule(alloc, &draft.env, source, &head)? {
        None => accepted(alloc, draft, definitions, source, &head),
        Some(rule) => Err(broken(rule, source.line)),
    }
}
