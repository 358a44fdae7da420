//! What is given or asked of a run, and the rule that is broken where there is nothing.

ghost use Rattle.std.specs.Prelude.{◌≡◌, ◌+◌, IfOk};
ghost use Rattle.c_run.specs.Gives.{Gives};
ghost use Rattle.c_run.specs.Runs as runs;
ghost use Rattle.c_values.specs.Values as values;
ghost use Rattle.ir.specs.Machine as spec;

use base16::{IntType, NoMemory};
use c_run::{Halt, Run};
use c_values::{Location, Value, compared, difference, numbered, operated, pointer_sum, truth_of};
use ir::{Base, Operation};

/// What is met by no form that serves a program.
pub const STUCK: Halt = Halt::Broken { rule: 0, node: 0 };

/// What is given, or the rule that is broken at a node. The run stays as it is.
pub fn given<T>(_run: &Run, node: u32, found: Result<T, u8>) -> Result<T, Halt>
    ensures { Gives (runs.given node found _run.now) result _run.now }
{
    match found {
        Ok(value) => Ok(value),
        Err(rule) => Err(Halt::Broken { rule, node }),
    }
}

/// Whether a value of a type is not zero.
pub fn tested(run: &Run, node: u32, of: IntType, value: Value) -> Result<bool, Halt>
    ensures { Gives (spec.tested node of value run.now) result run.now }
{
    given(run, node, truth_of(run.state(), numbered(of, value)))
}

/// A number that is found, as a value.
fn int_value(found: Result<i64, u8>) -> Result<Value, u8>
    ensures { result ≡ values.int_value found }
{
    match found {
        Ok(number) => Ok(Value::Int(number)),
        Err(rule) => Err(rule),
    }
}

fn numbered_as(of: Option<IntType>, value: Value) -> Value
    ensures { result ≡ spec.numbered_as of value }
{
    match of {
        Some(of) => numbered(of, value),
        None => value,
    }
}

/// What an operation makes of two values.
pub fn computed(
    run: &Run,
    node: u32,
    operation: Operation,
    left: Value,
    right: Value,
) -> Result<Value, Halt>
    ensures { Gives (runs.asked node (λ s. spec.computed s operation left right) run.now) result run.now }
{
    let state = run.state();
    let made = match operation {
        Operation::Integers { op, at, own } => operated(op, at, own, left, right),
        Operation::PointerPlus {
            minus,
            size,
            left: left_type,
            right: right_type,
            swapped,
        } => pointer_sum(
            state,
            swapped,
            minus,
            size,
            numbered_as(left_type, left),
            numbered_as(right_type, right),
        ),
        Operation::Difference { size } => int_value(difference(state, size, left, right)),
        Operation::ComparePointers { op } => int_value(compared(state, op, left, right)),
    };
    given(run, node, made)
}

/// The number of a local of a call whose first object has a number.
pub fn object(first: u64, local: u32) -> Result<u64, NoMemory>
    ensures { IfOk result (λ n. n ≡ first + local) }
{
    first.checked_add(u64::from(local)).ok_or(NoMemory)
}

/// A scalar that is named.
pub fn known(first: u64, of: Base, offset: u16) -> Result<Location, NoMemory>
    ensures { IfOk result (λ l. l ≡ spec.known first of offset) }
{
    let number = match of {
        Base::Local(local) => object(first, local)?,
        Base::Global(global) => u64::from(global),
    };
    Ok(Location {
        object: Some(number),
        offset: u32::from(offset),
    })
}

/// The place of the next step.
pub fn behind(position: u32) -> Result<u32, NoMemory>
    ensures { IfOk result (λ next. next ≡ position + 1) }
{
    position.checked_add(1).ok_or(NoMemory)
}
