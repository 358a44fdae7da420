ghost use Rattle.std.specs.Prelude.{◌≡◌};
ghost use Rattle.std.specs.Option.{option_copied};
ghost use Rattle.c_values.specs.Objects as spec;

use crate::state::{Call, Object, State};
use crate::value::{Location, Value};
use base16::Kind;

/// Whether two kinds are the same.
pub fn same_kind(a: Kind, b: Kind) -> bool
    ensures { result ≡ spec.same_kind a b }
{
    match (a, b) {
        (Kind::Char, Kind::Char)
        | (Kind::Int, Kind::Int)
        | (Kind::UInt, Kind::UInt)
        | (Kind::Pointer, Kind::Pointer) => true,
        _ => false,
    }
}

/// The object of a number among some.
pub fn find_object(number: u64, objects: &[Object]) -> Option<&Object>
    ensures { option_copied result ≡ spec.find_object number objects.now }
{
    for object in objects {
        if object.number == number {
            return Some(object);
        }
    }
    None
}

/// The object of a number among those of calls.
pub fn find_local(number: u64, calls: &[Call]) -> Option<&Object>
    ensures { option_copied result ≡ spec.find_local number calls.now }
{
    for call in calls {
        if let Some(object) = find_object(number, call.locals.as_slice()) {
            return Some(object);
        }
    }
    None
}

/// The object of a number, if it is alive.
#[tactic(auto, unfolding(crate::specs::Objects::object_of))]
pub fn object_of(state: &State, number: u64) -> Option<&Object>
    ensures { option_copied result ≡ spec.object_of state.now number }
{
    match find_object(number, state.globals.as_slice()) {
        Some(object) => Some(object),
        None => find_local(number, state.calls.as_slice()),
    }
}

/// The value of a scalar of a kind at a place, or the rule that the access breaks.
#[tactic(auto, unfolding(crate::specs::Objects::accessed))]
pub fn accessed(state: &State, place: Location, kind: Kind) -> Result<Value, u8>
    ensures { result ≡ spec.accessed state.now place kind }
{
    let Some(number) = place.object else {
        return Err(7);
    };
    let Some(object) = object_of(state, number) else {
        return Err(6);
    };
    let Some(cell) = object.cells.find(place.offset) else {
        return Err(5);
    };
    if same_kind(cell.kind, kind) {
        Ok(cell.value)
    } else {
        Err(5)
    }
}

/// The kind of the scalar at an offset of an object, or the rule that an access would break.
#[tactic(auto, unfolding(crate::specs::Objects::kind_at))]
pub fn kind_at(state: &State, number: u64, offset: u32) -> Result<Kind, u8>
    ensures { result ≡ spec.kind_at state.now number offset }
{
    let Some(object) = object_of(state, number) else {
        return Err(6);
    };
    match object.cells.find(offset) {
        Some(cell) => Ok(cell.kind),
        None => Err(5),
    }
}
