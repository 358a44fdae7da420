//! Objects that come to life, and copies of objects and calls.

ghost use Rattle.std.specs.Prelude.{◌≡◌, ◌+◌, ◌<◌, ◌^◌, length, IfOk};
ghost use Rattle.c_run.specs.Making as spec;

use base16::{NoMemory, Sequence};
use c_values::{Call, Cell, Cells, Object, Value};
use core_tree::Slot;
use std::alloc::Global;

/// An object with these scalars, all undefined.
pub fn fresh_object(alloc: Global, number: u64, slots: &[Slot]) -> Result<Object, NoMemory>
    ensures { IfOk result (λ o. o ≡ spec.fresh_object number slots.now) }
{
    let mut cells = Vec::new(alloc);
    for slot in slots {
        cells.push(Cell {
            offset: slot.offset,
            kind: slot.kind,
            value: Value::Undefined,
        })?;
    }
    Ok(Object {
        number,
        cells: Cells::from_vec(cells),
    })
}

/// Objects that come to life one after the other.
pub fn fresh_objects(
    alloc: Global,
    number: u64,
    all: &[Sequence<Slot>],
) -> Result<Sequence<Object>, NoMemory>
    requires { number + length all.now < 2 ^ 64 }
    ensures { IfOk result (λ os. os ≡ spec.fresh_objects number all.now) }
{
    let mut objects = Sequence::new(alloc);
    let mut next = number;
    for slots in all {
        objects.push(fresh_object(alloc, next, slots.as_slice())?)?;
        next += 1;
    }
    Ok(objects)
}

/// The same objects in memory of their own.
pub fn copy_objects(alloc: Global, objects: &[Object]) -> Result<Sequence<Object>, NoMemory>
    ensures { IfOk result (λ made. made ≡ objects.now) }
{
    let mut made = Sequence::new(alloc);
    for object in objects {
        made.push(Object {
            number: object.number,
            cells: object.cells.copy(alloc)?,
        })?;
    }
    Ok(made)
}

/// The same calls in memory of their own.
pub fn copy_calls(alloc: Global, calls: &[Call]) -> Result<Sequence<Call>, NoMemory>
    ensures { IfOk result (λ made. made ≡ calls.now) }
{
    let mut made = Sequence::new(alloc);
    for call in calls {
        made.push(Call {
            function: call.function,
            frame: call.frame,
            locals: copy_objects(alloc, call.locals.as_slice())?,
        })?;
    }
    Ok(made)
}
