//! Places and pointers: arithmetic, comparisons and tests, or the rule of undefined behaviour that is broken.

ghost use Rattle.std.specs.Prelude.{◌≡◌, pos, negsuc, ◌≤ℤ◌, ◌<◌, ◌^◌, IfOk};
ghost use Rattle.c_values.specs.Objects as objects;
ghost use Rattle.c_values.specs.Pointers as spec;

use crate::find::object_of;
use crate::state::{Object, State};
use crate::value::{Location, Value};
use base16::BinaryOp;

/// The greatest offset that a pointer into an object has.
pub fn end_of(object: &Object) -> u32
    ensures value { result ≡ spec.end_of object.now }
    ensures high { result < 65536 }
{
    object.cells.end()
}

/// A place in an object.
fn at(object: u64, offset: u32) -> Location
    ensures { result ≡ spec.at object offset }
{
    Location {
        object: Some(object),
        offset,
    }
}

/// The place that a pointer points to.
pub fn pointed(value: Value) -> Result<Location, u8>
    ensures { result ≡ spec.pointed value }
{
    match value {
        Value::Pointer { object, offset } => Ok(at(object, u32::from(offset))),
        Value::Null => Ok(Location {
            object: None,
            offset: 0,
        }),
        Value::Undefined => Err(11),
        Value::Int(_) => Err(0),
    }
}

/// A part of a place.
pub fn member_at(place: Location, offset: u32) -> Location
    ensures { result ≡ spec.member_at place offset }
{
    Location {
        object: place.object,
        offset: place.offset.saturating_add(offset).min(65536),
    }
}

/// The place that lies a number of bytes further.
#[tactic(auto, unfolding(crate::specs::Pointers::moved))]
pub fn moved(state: &State, place: Location, by: i128) -> Result<Location, u8>
    requires low { negsuc (2 ^ 100) ≤ℤ by }
    requires high { by ≤ℤ pos (2 ^ 100) }
    ensures value { result ≡ spec.moved state.now place by }
    ensures high { IfOk result (λ found. found.offset < 65536) }
{
    let offset = if place.offset < 65536 {
        i128::from(place.offset) + by
    } else {
        65536
    };
    let Some(number) = place.object else {
        return Err(12);
    };
    let Some(object) = object_of(state, number) else {
        return Err(6);
    };
    if offset < 0 || offset > i128::from(end_of(object)) {
        return Err(4);
    }
    Ok(at(number, offset as u32))
}

/// Whether a value is a pointer to an object that is gone.
pub fn gone(state: &State, value: Value) -> bool
    ensures { result ≡ spec.gone state.now value }
{
    match value {
        Value::Pointer { object, .. } => match object_of(state, object) {
            Some(_object) => false,
            None => true,
        },
        Value::Int(_) | Value::Null | Value::Undefined => false,
    }
}

/// Whether a place is in an object that is gone.
fn gone_at(state: &State, place: Location) -> bool
    ensures { result ≡ spec.gone_at state.now place.object }
{
    let Some(number) = place.object else {
        return false;
    };
    match object_of(state, number) {
        Some(_object) => false,
        None => true,
    }
}

/// An element of an array at a place, the bytes of an element being given.
pub fn element(state: &State, size: u32, place: Location, index: Value) -> Result<Location, u8>
    ensures { result ≡ spec.element state.now size place index }
{
    match index {
        Value::Int(number) => moved(state, place, scaled(false, number, size)),
        Value::Undefined => Err(if gone_at(state, place) { 6 } else { 11 }),
        Value::Pointer { .. } | Value::Null => Err(0),
    }
}

/// So many elements of a size in bytes.
fn scaled(minus: bool, number: i64, size: u32) -> i128
    ensures value { result ≡ spec.scaled minus number size }
    ensures low { negsuc (2 ^ 100) ≤ℤ result }
    ensures high { result ≤ℤ pos (2 ^ 100) }
{
    let bytes = i128::from(number) * i128::from(size);
    if minus { -bytes } else { bytes }
}

fn moved_by(
    state: &State,
    minus: bool,
    size: u32,
    pointer: Value,
    number: i64,
) -> Result<Location, u8>
    ensures value { result ≡ spec.moved_if state.now (spec.pointed pointer) (spec.scaled minus number size) }
    ensures high { IfOk result (λ place. place.offset < 65536) }
{
    match pointed(pointer) {
        Ok(place) => moved(state, place, scaled(minus, number, size)),
        Err(rule) => Err(rule),
    }
}

/// A pointer moved by an integer, which counts elements of a size in bytes.
fn sum_with(
    state: &State,
    minus: bool,
    size: u32,
    pointer: Value,
    integer: Value,
) -> Result<Location, u8>
    ensures value { result ≡ spec.sum_with state.now minus size pointer integer }
    ensures high { IfOk result (λ place. place.offset < 65536) }
{
    match integer {
        Value::Int(number) => moved_by(state, minus, size, pointer, number),
        Value::Undefined => Err(if gone(state, pointer) { 6 } else { 11 }),
        Value::Pointer { .. } | Value::Null => Err(0),
    }
}

/// A pointer and an integer, which counts elements of a size in bytes; `swapped` where the integer is the left one.
#[tactic(auto, unfolding(crate::specs::Pointers::sum_of))]
pub fn sum_of(
    state: &State,
    swapped: bool,
    minus: bool,
    size: u32,
    left: Value,
    right: Value,
) -> Result<Location, u8>
    ensures value { result ≡ spec.sum_of state.now swapped minus size left right }
    ensures high { IfOk result (λ place. place.offset < 65536) }
{
    if swapped {
        sum_with(state, minus, size, right, left)
    } else {
        sum_with(state, minus, size, left, right)
    }
}

/// The pointer to a place.
#[tactic(auto, unfolding(crate::specs::Pointers::address))]
pub fn address(state: &State, place: Location) -> Result<Value, u8>
    ensures { result ≡ spec.address state.now place }
{
    let Some(number) = place.object else {
        return if place.offset == 0 {
            Ok(Value::Null)
        } else {
            Err(12)
        };
    };
    let end = match object_of(state, number) {
        Some(object) => end_of(object),
        None => 65535,
    };
    pointer_within(number, place.offset, end)
}

/// A pointer to an offset of an object that has this end.
fn pointer_within(object: u64, offset: u32, end: u32) -> Result<Value, u8>
    requires { end < 65536 }
    ensures { result ≡ spec.pointer_within object offset end }
{
    if offset <= end {
        Ok(Value::Pointer {
            object,
            offset: offset as u16,
        })
    } else {
        Err(4)
    }
}

/// What stands where two pointers are moved by a sum: the pointer to that place.
pub fn pointer_sum(
    state: &State,
    swapped: bool,
    minus: bool,
    size: u32,
    left: Value,
    right: Value,
) -> Result<Value, u8>
    ensures { result ≡ spec.pointer_to (spec.sum_of state.now swapped minus size left right) }
{
    match sum_of(state, swapped, minus, size, left, right) {
        Ok(
            Location {
                object: Some(object),
                offset,
            },
        ) => Ok(Value::Pointer {
            object,
            offset: offset as u16,
        }),
        Ok(Location { object: None, .. }) => Ok(Value::Null),
        Err(rule) => Err(rule),
    }
}
