//! Comparisons, differences and tests of pointers, or the least rule of undefined behaviour that is broken.

ghost use Rattle.std.specs.Prelude.{◌≡◌, pos, negsuc, ◌≤ℤ◌};
ghost use Rattle.c_values.specs.Objects as objects;
ghost use Rattle.c_values.specs.Pointers as spec;

use crate::find::object_of;
use crate::operators::truth;
use crate::pointers::{end_of, gone};
use crate::state::State;
use crate::value::Value;
use base16::BinaryOp;

/// Offsets in one object, compared.
fn compared_offsets(op: BinaryOp, left: u16, right: u16) -> Result<i64, u8>
    ensures { result ≡ spec.compared_offsets op left right }
{
    match op {
        BinaryOp::Less => Ok(truth(left < right)),
        BinaryOp::Greater => Ok(truth(right < left)),
        BinaryOp::LessEq => Ok(truth(left <= right)),
        BinaryOp::GreaterEq => Ok(truth(right <= left)),
        BinaryOp::Equal => Ok(truth(left == right)),
        BinaryOp::NotEqual => Ok(truth(left != right)),
        _ => Err(0),
    }
}

/// Whether an offset is the end of an object that is alive.
fn at_end(state: &State, object: u64, offset: u16) -> bool
    ensures { result ≡ spec.at_end offset (objects.object_of state.now object) }
{
    match object_of(state, object) {
        Some(found) => u32::from(offset) == end_of(found),
        None => false,
    }
}

/// Whether pointers of which one is null are equal; they have no order.
fn unordered(op: BinaryOp, same: bool) -> Result<i64, u8>
    ensures { result ≡ spec.unordered op same 12 }
{
    match op {
        BinaryOp::Equal => Ok(truth(same)),
        BinaryOp::NotEqual => Ok(truth(!same)),
        _ => Err(12),
    }
}

/// Pointers into different objects, of which one is at its object's end or none is, compared.
fn apart(op: BinaryOp, ends: bool) -> Result<i64, u8>
    ensures { result ≡ spec.apart op ends }
{
    match op {
        BinaryOp::Equal => { if ends { Err(10) } else { Ok(0) } }
        BinaryOp::NotEqual => { if ends { Err(10) } else { Ok(1) } }
        _ => Err(9),
    }
}

fn compared_alive(state: &State, op: BinaryOp, left: Value, right: Value) -> Result<i64, u8>
    ensures { result ≡ spec.compared_alive state.now op left right }
{
    match (left, right) {
        (Value::Undefined, _) | (_, Value::Undefined) => Err(11),
        (
            Value::Pointer { object, offset },
            Value::Pointer {
                object: other,
                offset: other_offset,
            },
        ) => {
            if object == other {
                compared_offsets(op, offset, other_offset)
            } else {
                let left_ends = at_end(state, object, offset);
                let right_ends = at_end(state, other, other_offset);
                apart(op, left_ends || right_ends)
            }
        }
        (Value::Null, Value::Null) => unordered(op, true),
        (Value::Null, Value::Pointer { .. }) | (Value::Pointer { .. }, Value::Null) => {
            unordered(op, false)
        }
        (Value::Int(_), _) | (_, Value::Int(_)) => Err(0),
    }
}

/// Two pointers compared: 1 where the comparison holds and 0 where not.
#[tactic(auto, unfolding(crate::specs::Pointers::compared))]
pub fn compared(state: &State, op: BinaryOp, left: Value, right: Value) -> Result<i64, u8>
    ensures { result ≡ spec.compared state.now op left right }
{
    let left_gone = gone(state, left);
    let right_gone = gone(state, right);
    if left_gone || right_gone {
        Err(6)
    } else {
        compared_alive(state, op, left, right)
    }
}

/// How many elements of a size so many bytes are.
fn divided(bytes: i64, size: u32) -> Result<i64, u8>
    requires low { negsuc 65535 ≤ℤ bytes }
    requires high { bytes ≤ℤ pos 65535 }
    ensures { result ≡ spec.divided bytes size }
{
    if size == 0 {
        return Err(0);
    }
    let wide = size > 32767;
    let size = i64::from(size);
    if !wide && bytes % size == 0 {
        Ok(bytes / size)
    } else {
        Err(9)
    }
}

fn difference_alive(size: u32, left: Value, right: Value) -> Result<i64, u8>
    ensures { result ≡ spec.difference_alive size left right }
{
    match (left, right) {
        (Value::Undefined, _) | (_, Value::Undefined) => Err(11),
        (
            Value::Pointer { object, offset },
            Value::Pointer {
                object: other,
                offset: other_offset,
            },
        ) => {
            if object == other {
                divided(i64::from(offset) - i64::from(other_offset), size)
            } else {
                Err(9)
            }
        }
        (Value::Int(_), _) | (_, Value::Int(_)) => Err(0),
        _ => Err(12),
    }
}

/// How many elements of a size in bytes lie between two pointers.
#[tactic(auto, unfolding(crate::specs::Pointers::difference))]
pub fn difference(state: &State, size: u32, left: Value, right: Value) -> Result<i64, u8>
    ensures { result ≡ spec.difference state.now size left right }
{
    let left_gone = gone(state, left);
    let right_gone = gone(state, right);
    if left_gone || right_gone {
        Err(6)
    } else {
        difference_alive(size, left, right)
    }
}
