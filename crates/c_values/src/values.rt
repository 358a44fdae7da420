//! What operators make of values, or the rule of undefined behaviour that is broken.

ghost use Rattle.std.specs.Prelude.{◌≡◌};
ghost use Rattle.c_values.specs.Values as spec;
ghost use Rattle.c_values.specs.Objects as objects;
ghost use Rattle.c_values.specs.Pointers as pointers;

use crate::find::{accessed, object_of};
use crate::operators::{as_type, binary, number, unary};
use crate::state::State;
use crate::value::{Location, Value};
use base16::{BinaryOp, IntType, Kind, UnaryOp};

/// An integer that is used.
pub fn integer(value: Value) -> Result<i64, u8>
    ensures { result ≡ spec.integer value }
{
    match value {
        Value::Int(number) => Ok(number),
        Value::Undefined => Err(11),
        Value::Pointer { .. } | Value::Null => Err(0),
    }
}

/// A value that is used, whatever it is.
pub fn present(value: Value) -> Result<Value, u8>
    ensures { result ≡ spec.present value }
{
    match value {
        Value::Undefined => Err(11),
        _ => Ok(value),
    }
}

/// A value that is tested or scaled, as its type says.
pub fn numbered(of: IntType, value: Value) -> Value
    ensures { result ≡ spec.numbered of value }
{
    match value {
        Value::Int(z) => Value::Int(number(of, z)),
        _ => value,
    }
}

/// A value converted to a type.
#[tactic(auto, unfolding(crate::specs::Values::converted))]
pub fn converted(to: IntType, value: Value) -> Result<Value, u8>
    ensures { result ≡ spec.converted to value }
{
    match value {
        Value::Int(z) => Ok(Value::Int(as_type(to, z))),
        Value::Undefined => Err(11),
        Value::Pointer { .. } | Value::Null => match to {
            IntType::Char => Err(0),
            IntType::Int | IntType::UInt => Ok(value),
        },
    }
}

/// A value in a scalar of a kind.
#[tactic(auto, unfolding(crate::specs::Values::fitted))]
pub fn fitted(kind: Kind, value: Value) -> Result<Value, u8>
    ensures { result ≡ spec.fitted kind value }
{
    match (kind, value) {
        (_, Value::Undefined) => Err(11),
        (Kind::Char, Value::Int(z)) => Ok(Value::Int(as_type(IntType::Char, z))),
        (Kind::Int, Value::Int(z)) => Ok(Value::Int(as_type(IntType::Int, z))),
        (Kind::UInt, Value::Int(z)) => Ok(Value::Int(as_type(IntType::UInt, z))),
        (Kind::Pointer, Value::Pointer { .. } | Value::Null) => Ok(value),
        _ => Err(0),
    }
}

/// What a scalar of a kind gets of a value: what fits it, or nothing.
pub fn fit(kind: Kind, value: Value) -> Value
    ensures { result ≡ spec.fit kind value }
{
    match fitted(kind, value) {
        Ok(fitting) => fitting,
        Err(_rule) => Value::Undefined,
    }
}

/// Zero in a scalar of a kind.
pub fn zero_of(kind: Kind) -> Value
    ensures { result ≡ spec.zero_of kind }
{
    match kind {
        Kind::Pointer => Value::Null,
        Kind::Char | Kind::Int | Kind::UInt => Value::Int(0),
    }
}

/// What is stored where a value is stored at a place.
pub fn storable(state: &State, place: Location, kind: Kind, value: Value) -> Result<Value, u8>
    ensures { result ≡ spec.if_accessed (objects.accessed state.now place kind) (spec.fitted kind value) }
{
    match accessed(state, place, kind) {
        Ok(_value) => fitted(kind, value),
        Err(rule) => Err(rule),
    }
}

/// The type in which the right side of an operator is taken: a shift takes its own.
pub fn right_type(op: BinaryOp, at: IntType, own: IntType) -> IntType
    ensures { result ≡ spec.right_type op at own }
{
    match op {
        BinaryOp::Shl | BinaryOp::Shr => own,
        _ => at,
    }
}

fn without_left(op: BinaryOp, right: i64) -> u8
    ensures { result ≡ spec.without_left op right }
{
    match op {
        BinaryOp::Div | BinaryOp::Rem => { if right == 0 { 2 } else { 11 } }
        BinaryOp::Shl | BinaryOp::Shr => { if right < 0 || right > 15 { 3 } else { 11 } }
        _ => 11,
    }
}

fn without_right(op: BinaryOp, at: IntType, left: i64) -> u8
    ensures { result ≡ spec.without_right op at left }
{
    match (op, at) {
        (BinaryOp::Shl, IntType::Int) => { if left < 0 { 3 } else { 11 } }
        _ => 11,
    }
}

fn int_value(found: Result<i64, u8>) -> Result<Value, u8>
    ensures { result ≡ spec.int_value found }
{
    match found {
        Ok(z) => Ok(Value::Int(z)),
        Err(rule) => Err(rule),
    }
}

/// A binary operator at a type, its right side being of a type of its own.
#[tactic(auto, unfolding(crate::specs::Values::operated))]
pub fn operated(
    op: BinaryOp,
    at: IntType,
    own: IntType,
    left: Value,
    right: Value,
) -> Result<Value, u8>
    ensures { result ≡ spec.operated op at own left right }
{
    match (left, right) {
        (Value::Int(a), Value::Int(b)) => {
            int_value(binary(op, at, number(at, a), number(right_type(op, at, own), b)))
        }
        (Value::Undefined, Value::Int(b)) => {
            Err(without_left(op, number(right_type(op, at, own), b)))
        }
        (Value::Int(a), Value::Undefined) => Err(without_right(op, at, number(at, a))),
        (Value::Undefined, Value::Undefined) => Err(11),
        _ => Err(0),
    }
}

/// Whether a value that is tested is not zero.
#[tactic(auto, unfolding(crate::specs::Pointers::truth_of))]
pub fn truth_of(state: &State, value: Value) -> Result<bool, u8>
    ensures { result ≡ pointers.truth_of state.now value }
{
    match value {
        Value::Int(z) => Ok(z != 0),
        Value::Pointer { object, .. } => match object_of(state, object) {
            Some(_object) => Ok(true),
            None => Err(6),
        },
        Value::Null => Ok(false),
        Value::Undefined => Err(11),
    }
}

fn operated_alone(op: UnaryOp, at: IntType, value: Value) -> Result<Value, u8>
    ensures { result ≡ spec.operated_alone op at value }
{
    match value {
        Value::Int(z) => int_value(unary(op, at, number(at, z))),
        Value::Undefined => Err(11),
        Value::Pointer { .. } | Value::Null => Err(0),
    }
}

/// A unary operator; `!` takes pointers too.
#[tactic(auto, unfolding(crate::specs::Values::operated_one))]
pub fn operated_one(state: &State, op: UnaryOp, at: IntType, value: Value) -> Result<Value, u8>
    ensures { result ≡ spec.operated_one state.now op at value }
{
    match op {
        UnaryOp::Not => match truth_of(state, numbered(at, value)) {
            Ok(holds) => Ok(Value::Int(if holds { 0 } else { 1 })),
            Err(rule) => Err(rule),
        },
        _ => operated_alone(op, at, value),
    }
}

/// Whether all values are there.
pub fn all_present(values: &[Value]) -> Result<(), u8>
    ensures { result ≡ spec.all_present values.now }
{
    for value in values {
        if let Value::Undefined = value {
            return Err(11);
        }
    }
    Ok(())
}
