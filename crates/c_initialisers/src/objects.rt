//! Initialisers of objects (C99 6.7.8).

ghost use Rattle.std.specs.Prelude.{◌≡◌, true, IfOk, [], None, Some};
ghost use Rattle.core_tree.specs.Layout.{layout};
ghost use Rattle.c_typing.specs.Outcome.{Answers};
ghost use Rattle.c_checking.specs.Declarators.{object_rule};
ghost use Rattle.c_checking.specs.Initialisers as spec;
ghost use Rattle.c_initialisers.specs.Found as found;

use crate::constants::initial_value;
use crate::lists::filled;
use crate::storing::{initials, stores};
use crate::values::settled_value;
use base16::{NoMemory, Sequence};
use c_conversions::broken;
use c_declarators::object_rule;
use c_tree::{Expr as Source, Initial};
use c_typing::{Env, Rule, Stop};
use core_layout::{slots_of, structs_laid};
use core_tree::{Init as Store, Initial as Value, Slot, Struct, Ty};
use sqlite_items::Items;
use std::alloc::Global;

/// A zero for each scalar.
#[tactic(auto, using(crate::proofs::Settling::zeros_turn, crate::proofs::Settling::zeros_end))]
fn zeros(alloc: Global, _structs: &[Struct], slots: &[Slot]) -> Result<Items<Value>, NoMemory>
    ensures { IfOk result (λ made. made ≡ spec.initials _structs.now slots.now []) }
{
    let mut made = Items::new(alloc);
    for slot in slots {
        made.push(Value::Int(0))?;
    }
    Ok(made)
}

/// The scalars of a type, in order.
fn slots_in(alloc: Global, structs: &[Struct], ty: &Ty) -> Result<Sequence<Slot>, NoMemory>
    ensures { IfOk result (λ slots. slots ≡ (layout structs.now ty.now).slots) }
{
    let known = structs_laid(alloc, structs)?;
    slots_of(alloc, structs, known.as_slice(), ty)
}

/// A zero for each scalar of a type.
fn zeros_of(alloc: Global, structs: &[Struct], ty: &Ty) -> Result<Items<Value>, NoMemory>
    ensures { IfOk result (λ made. made ≡ found.zeros structs.now ty.now) }
{
    let slots = slots_in(alloc, structs, ty)?;
    zeros(alloc, structs, slots.as_slice())
}

/// The stores of a local without an initialiser: none.
#[tactic(auto, using(crate::proofs::Settling::stored_none, crate::proofs::Settling::stored_ruled))]
fn stored_none(alloc: Global, env: &Env, line: u32, ty: &Ty) -> Result<Items<Store>, Stop>
    ensures { Answers (spec.stored env.now line ty.now None) result }
{
    match object_rule(env, ty) {
        None => Ok(Items::new(alloc)),
        Some(rule) => Err(broken(rule, line)),
    }
}

/// The store of a local that an expression initialises.
#[tactic(auto, using(crate::proofs::Settling::stored_is, crate::proofs::Settling::stored_broken))]
fn stored_value(
    alloc: Global,
    env: &Env,
    line: u32,
    ty: &Ty,
    source: &Source,
) -> Result<Items<Store>, Stop>
    ensures { Answers (spec.stored env.now line ty.now (Some (Initial.Assign source.now))) result }
{
    let value = settled_value(alloc, env, line, ty, source)?;
    let mut made = Items::new(alloc);
    made.push(Store {
        offset: 0,
        value: Some(value.into_inner()),
        marked: env.inside,
    })?;
    Ok(made)
}

/// The stores of a local of a brace list, where its object breaks no rule: one for each scalar.
fn list_stores(
    alloc: Global,
    env: &Env,
    _line: u32,
    ty: &Ty,
    list: &Initial,
) -> Result<Items<Store>, Stop>
    requires is_list { spec.is_list (Some list.now) ≡ true }
    requires lawful { object_rule env.now ty.now ≡ None }
    ensures { Answers (spec.stored env.now _line ty.now (Some list.now)) result }
{
    let puts = filled(alloc, env, ty, false, list)?;
    let slots = slots_in(alloc, env.structs.as_slice(), ty)?;
    Ok(stores(alloc, slots.as_slice(), puts)?)
}

/// The stores of a local that a brace list initialises.
#[tactic(auto, using(crate::proofs::Declaring::list_ruled))]
fn stored_list(
    alloc: Global,
    env: &Env,
    line: u32,
    ty: &Ty,
    list: &Initial,
) -> Result<Items<Store>, Stop>
    requires { spec.is_list (Some list.now) ≡ true }
    ensures { Answers (spec.stored env.now line ty.now (Some list.now)) result }
{
    match object_rule(env, ty) {
        None => list_stores(alloc, env, line, ty, list),
        Some(rule) => Err(broken(rule, line)),
    }
}

/// The stores of a local's initialiser, or the first fault of its declarator.
#[tactic(auto, using(crate::proofs::Declaring::is_a_list))]
pub fn stored(
    alloc: Global,
    env: &Env,
    line: u32,
    ty: &Ty,
    initial: &Option<Initial>,
) -> Result<Items<Store>, Stop>
    ensures { Answers (spec.stored env.now line ty.now initial.now) result }
{
    match initial {
        None => stored_none(alloc, env, line, ty),
        Some(initial) => match initial {
            Initial::Assign(source) => stored_value(alloc, env, line, ty, source),
            Initial::List { .. } => stored_list(alloc, env, line, ty, initial),
        },
    }
}

/// What a file-scope variable without an initialiser begins with: zero in each scalar.
#[tactic(auto, using(crate::proofs::Settling::begun_none, crate::proofs::Settling::begun_ruled))]
fn begun_none(alloc: Global, env: &Env, line: u32, ty: &Ty) -> Result<Items<Value>, Stop>
    ensures { Answers (spec.begun env.now line ty.now None) result }
{
    match object_rule(env, ty) {
        None => Ok(zeros_of(alloc, env.structs.as_slice(), ty)?),
        Some(rule) => Err(broken(rule, line)),
    }
}

/// What a file-scope variable begins with that an expression initialises.
#[tactic(auto, using(crate::proofs::Settling::begun_is, crate::proofs::Settling::begun_not, crate::proofs::Settling::begun_broken))]
fn begun_value(
    alloc: Global,
    env: &Env,
    line: u32,
    ty: &Ty,
    source: &Source,
) -> Result<Items<Value>, Stop>
    ensures { Answers (spec.begun env.now line ty.now (Some (Initial.Assign source.now))) result }
{
    let value = settled_value(alloc, env, line, ty, source)?;
    match initial_value(env.structs.as_slice(), value.get())? {
        None => Err(broken(Rule::NotConstant, line)),
        Some(initial) => {
            let mut made = Items::new(alloc);
            made.push(initial)?;
            Ok(made)
        }
    }
}

/// What each scalar of a file-scope variable of a brace list begins with, where its object breaks no rule.
fn list_values(
    alloc: Global,
    env: &Env,
    _line: u32,
    ty: &Ty,
    list: &Initial,
) -> Result<Items<Value>, Stop>
    requires is_list { spec.is_list (Some list.now) ≡ true }
    requires lawful { object_rule env.now ty.now ≡ None }
    ensures { Answers (spec.begun env.now _line ty.now (Some list.now)) result }
{
    let structs = env.structs.as_slice();
    let puts = filled(alloc, env, ty, true, list)?;
    let slots = slots_in(alloc, structs, ty)?;
    Ok(initials(alloc, structs, slots.as_slice(), puts.as_slice())?)
}

/// What each scalar of a file-scope variable begins with that a brace list initialises.
#[tactic(auto, using(crate::proofs::Declaring::list_begun_ruled))]
fn begun_list(
    alloc: Global,
    env: &Env,
    line: u32,
    ty: &Ty,
    list: &Initial,
) -> Result<Items<Value>, Stop>
    requires { spec.is_list (Some list.now) ≡ true }
    ensures { Answers (spec.begun env.now line ty.now (Some list.now)) result }
{
    match object_rule(env, ty) {
        None => list_values(alloc, env, line, ty, list),
        Some(rule) => Err(broken(rule, line)),
    }
}

/// What each scalar of a file-scope variable begins with, or the first fault of its declarator.
#[tactic(auto, using(crate::proofs::Declaring::is_a_list))]
pub fn begun(
    alloc: Global,
    env: &Env,
    line: u32,
    ty: &Ty,
    initial: &Option<Initial>,
) -> Result<Items<Value>, Stop>
    ensures { Answers (spec.begun env.now line ty.now initial.now) result }
{
    match initial {
        None => begun_none(alloc, env, line, ty),
        Some(initial) => match initial {
            Initial::Assign(source) => begun_value(alloc, env, line, ty, source),
            Initial::List { .. } => begun_list(alloc, env, line, ty, initial),
        },
    }
}
