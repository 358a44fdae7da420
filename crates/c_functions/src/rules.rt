//! The rules of a function.

ghost use Rattle.std.specs.Prelude.{◌≡◌, IfOk};
ghost use Rattle.core_tree.specs.declared.types.Ty.{out-Ty};
ghost use Rattle.std.specs.Option.{option_copied};
ghost use Rattle.c_checking.specs.Functions as spec;
ghost use Rattle.c_functions.specs.Heads.{shown};

use crate::heads::Head;
use crate::names::names_of;
use base16::{Name, NoMemory};
use c_calls::is_builtin;
use c_checking::Parameter;
use c_conversions::is_sized;
use c_externals::has_twice;
use c_tree::Function as SourceFunction;
use c_typing::{Env, Rule, Signature, What, lookup};
use core_tree::{Ty, same_type};
use std::alloc::Global;

/// An earlier declaration of a function.
pub fn earlier<'a>(env: &'a Env, name: &Name) -> Option<&'a Signature>
    ensures { option_copied result ≡ spec.earlier env.now name.now }
{
    match lookup(env.names.as_slice(), name) {
        Some(What::Function { place }) => env.functions.get(usize::from(*place)),
        _ => None,
    }
}

/// Whether a name stands for a variable.
fn is_variable(what: Option<&What>) -> bool
    ensures { result ≡ spec.is_variable (option_copied what.entry) }
{
    match what {
        None => false,
        Some(What::Function { .. }) => false,
        Some(_) => true,
    }
}

/// Whether a function is defined already.
pub fn was_defined(signature: Option<&Signature>) -> bool
    ensures { result ≡ spec.was_defined (option_copied signature.entry) }
{
    match signature {
        None => false,
        Some(signature) => signature.is_defined,
    }
}

/// Whether a parameter stands twice, the name stands for something else, or the function is defined twice.
fn stands_twice(
    alloc: Global,
    env: &Env,
    source: &SourceFunction,
    head: &Head,
) -> Result<bool, NoMemory>
    ensures { IfOk result (λ twice. twice ≡ spec.stands_twice env.now source.now (shown head.now)) }
{
    let names = names_of(alloc, head.params.as_slice())?;
    Ok(
        has_twice(names.as_slice())
            || is_builtin(&source.name)
            || is_variable(lookup(env.names.as_slice(), &source.name))
            || (source.body.is_some() && was_defined(earlier(env, &source.name))),
    )
}

/// Whether a type is a struct.
fn is_struct(ty: &Ty) -> bool
    ensures { result ≡ spec.is_struct ty.now }
{
    match ty {
        Ty::Struct(_) => true,
        _ => false,
    }
}

/// Whether a parameter is a struct.
#[tactic(auto, using(crate::proofs::Turns::struct_turn, crate::proofs::Turns::struct_here, crate::proofs::Turns::struct_nowhere))]
fn have_struct(params: &[Parameter]) -> bool
    ensures { result ≡ spec.have_struct (spec.types_of params.now) }
{
    for param in params {
        if is_struct(&param.ty) {
            return true;
        }
    }
    false
}

/// Whether parameters have these types.
#[tactic(auto, using(crate::proofs::Turns::same_turn, crate::proofs::Turns::same_not, crate::proofs::Turns::same_end, crate::proofs::Turns::unequal))]
fn same_types(types: &[Ty], params: &[Parameter]) -> bool
    ensures { result ≡ spec.same_types types.now (spec.types_of params.now) }
{
    if types.len() != params.len() {
        return false;
    }
    for (i, param) in params.iter().enumerate() {
        if !same_type(&types[i], &param.ty) {
            return false;
        }
    }
    true
}

/// Whether an earlier declaration says another result or other parameters.
fn differs(signature: Option<&Signature>, head: &Head) -> bool
    ensures { result ≡ spec.differs (option_copied signature.entry) (shown head.now) }
{
    match signature {
        None => false,
        Some(signature) => {
            !(same_type(&signature.result, &head.result)
                && same_types(signature.params.as_slice(), head.params.as_slice()))
        }
    }
}

/// Whether objects may have the types of parameters.
#[tactic(auto, using(crate::proofs::Turns::sized_turn, crate::proofs::Turns::sized_not, crate::proofs::Turns::sized_end))]
fn are_sized(env: &Env, params: &[Parameter]) -> bool
    ensures { result ≡ spec.are_sized env.now (spec.types_of params.now) }
{
    for param in params {
        if !is_sized(env, &param.ty) {
            return false;
        }
    }
    true
}

/// Whether a result is `void` or what an object may have.
fn has_result(env: &Env, ty: &Ty) -> bool
    ensures { result ≡ spec.result_layer env.now ty.now (out-Ty ty.now) }
{
    match ty {
        Ty::Void => true,
        _ => is_sized(env, ty),
    }
}

/// The least rule that a function breaks.
pub fn function_rule(
    alloc: Global,
    env: &Env,
    source: &SourceFunction,
    head: &Head,
) -> Result<Option<Rule>, NoMemory>
    ensures { IfOk result (λ rule. rule ≡ spec.function_rule env.now source.now (shown head.now)) }
{
    let params = head.params.as_slice();
    if stands_twice(alloc, env, source, head)? {
        return Ok(Some(Rule::Twice));
    }
    if is_struct(&head.result) || have_struct(params) || differs(earlier(env, &source.name), head) {
        return Ok(Some(Rule::WrongType));
    }
    if has_result(env, &head.result) && are_sized(env, params) {
        Ok(None)
    } else {
        Ok(Some(Rule::Incomplete))
    }
}
