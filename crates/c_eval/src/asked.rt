//! What is given or asked of a state, and the rule that is broken where there is nothing.

ghost use Rattle.std.specs.Prelude.{◌≡◌};
ghost use Rattle.c_run.specs.Gives.{Gives};
ghost use Rattle.c_run.specs.Runs as runs;
ghost use Rattle.c_values.specs.Pointers as pointers;
ghost use Rattle.c_values.specs.Values as values;
ghost use Rattle.c_meaning.specs.Meaning as spec;

use base16::IntType;
use c_run::{Halt, Run};
use c_values::{Location, Value, numbered, truth_of};

/// What is given, or the rule that is broken at a node.
pub fn given<T>(node: u32, found: Result<T, u8>) -> Result<T, Halt>
    ensures { (r : runs.Run) → Gives (runs.given node found r) result r }
{
    match found {
        Ok(value) => Ok(value),
        Err(rule) => Err(Halt::Broken { rule, node }),
    }
}

/// A number that is found, as a value.
pub fn int_value(found: Result<i64, u8>) -> Result<Value, u8>
    ensures { result ≡ values.int_value found }
{
    match found {
        Ok(number) => Ok(Value::Int(number)),
        Err(rule) => Err(rule),
    }
}

/// Whether something holds, as a value.
pub fn int_of(holds: bool) -> Value
    ensures { result ≡ spec.int_of holds }
{
    Value::Int(if holds { 1 } else { 0 })
}

/// The place in an object at an offset.
pub fn at(object: u64, offset: u32) -> Location
    ensures { result ≡ pointers.at object offset }
{
    Location {
        object: Some(object),
        offset,
    }
}

/// Whether a value that is tested is not zero.
pub fn tested(run: &Run, node: u32, of: IntType, value: Value) -> Result<bool, Halt>
    ensures { Gives (runs.asked node (λ s. pointers.truth_of s (values.numbered of value)) run.now) result run.now }
{
    given(node, truth_of(run.state(), numbered(of, value)))
}
