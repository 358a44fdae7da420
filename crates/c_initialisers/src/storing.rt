//! What the scalars of an object begin with that a brace list initialises.

ghost use Rattle.std.specs.Prelude.{◌≡◌, true, IfOk};
ghost use Rattle.c_checking.specs.Initialisers as spec;
ghost use Rattle.c_initialisers.specs.Lists as list;

use crate::constants::initial_value;
use crate::lists::Put;
use base16::{NoMemory, Sequence};
use core_tree::{Expr, Init as Store, Initial as Value, Slot, Struct};
use sqlite_items::Items;
use std::alloc::Global;

/// The value that is put into a scalar; none for zero.
fn value_in(put: Option<Put>) -> Option<Expr>
    ensures { result ≡ spec.value_in (list.given_of put) }
{
    match put {
        None => None,
        Some(put) => Some(put.value.into_inner()),
    }
}

/// A store for each scalar of a local.
#[tactic(auto, using(crate::proofs::Declaring::stores_end))]
pub(crate) fn stores(
    alloc: Global,
    slots: &[Slot],
    puts: Sequence<Option<Put>>,
) -> Result<Items<Store>, NoMemory>
    ensures { IfOk result (λ made. made ≡ spec.stores true slots.now (list.all_given puts)) }
{
    let mut rest = puts;
    let mut made = Items::new(alloc);
    let count = slots.len().min(rest.len());
    for at in 0..count {
        let put = rest.replace(at, None);
        made.push(Store {
            offset: slots[at].offset,
            value: value_in(put),
            marked: true,
        })?;
    }
    Ok(made)
}

/// What a scalar begins with that something is put into, or nothing.
fn initial_in(structs: &[Struct], put: &Option<Put>) -> Result<Value, NoMemory>
    ensures { IfOk result (λ value. value ≡ spec.initial_in structs.now (list.given_of put.now)) }
{
    match put {
        None => Ok(Value::Int(0)),
        Some(put) => match initial_value(structs, put.value.get())? {
            None => Ok(Value::Int(0)),
            Some(value) => Ok(value),
        },
    }
}

/// What the scalar of a number begins with.
fn initial_at(structs: &[Struct], puts: &[Option<Put>], at: usize) -> Result<Value, NoMemory>
    ensures { IfOk result (λ value. value ≡ list.initial_at structs.now (list.all_given puts.now) at) }
{
    if at >= puts.len() {
        return Ok(Value::Int(0));
    }
    initial_in(structs, &puts[at])
}

/// What each scalar of a file-scope variable begins with.
#[tactic(auto, using(crate::proofs::Declaring::initials_turn, crate::proofs::Declaring::initials_end))]
pub(crate) fn initials(
    alloc: Global,
    structs: &[Struct],
    slots: &[Slot],
    puts: &[Option<Put>],
) -> Result<Items<Value>, NoMemory>
    ensures { IfOk result (λ made. made ≡ spec.initials structs.now slots.now (list.all_given puts.now)) }
{
    let mut made = Items::new(alloc);
    for at in 0..slots.len() {
        made.push(initial_at(structs, puts, at)?)?;
    }
    Ok(made)
}
