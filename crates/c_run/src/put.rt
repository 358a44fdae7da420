//! Scalars set and made undefined, wherever their objects live.

ghost use Rattle.std.specs.Prelude.{◌≡◌, ◌+◌, ◌<◌, ◌^◌, map, length};
ghost use Rattle.c_values.specs.Objects as objects;
ghost use Rattle.c_run.specs.Actions as spec;
ghost use Rattle.c_run.specs.Changes as changes;
ghost use Rattle.c_run.specs.Lists.{changed_at};

use base16::{Kind, Sequence};
use c_values::{Call, Cells, Location, Object, State, Value, fit};
use std::alloc::Global;

/// What is done to the scalars of an object.
#[derive(Clone, Copy)]
enum Change {
    /// The scalar at an offset is set.
    Put { offset: u32, value: Value },
    /// All become undefined.
    Clear,
}

fn change_cells(cells: &mut Cells, change: Change)
    ensures { cells.new ≡ changes.changed_cells change cells.old }
{
    match change {
        Change::Put { offset, value } => cells.put(offset, value),
        Change::Clear => cells.clear(),
    }
}

/// An object, changed where it has the number.
fn changed_object(object: Object, number: u64, change: Change) -> Object
    ensures { result ≡ changes.changed_object number change object }
{
    let Object {
        number: own,
        mut cells,
    } = object;
    if own == number {
        change_cells(&mut cells, change);
    }
    Object { number: own, cells }
}

/// Changes the object at a place where it has the number.
#[tactic(auto, using(crate::proofs::Changing::replaced_at, crate::proofs::Changing::kept_at))]
fn change_object_at(
    alloc: Global,
    objects: &mut Sequence<Object>,
    at: usize,
    number: u64,
    change: Change,
)
    requires { at < length objects.old }
    ensures { objects.new ≡ changed_at (changes.changed_object number change) at objects.old }
{
    if objects.as_slice()[at].number == number {
        let nothing = Object {
            number: 0,
            cells: Cells::from_vec(Vec::new(alloc)),
        };
        let object = objects.replace(at, nothing);
        objects.set(at, changed_object(object, number, change));
    }
}

/// Changes the object of a number among some.
#[tactic(auto, using(crate::proofs::Changing::changed_turn))]
fn change_objects(alloc: Global, objects: &mut Sequence<Object>, number: u64, change: Change)
    ensures { objects.new ≡ map (changes.changed_object number change) objects.old }
{
    for i in 0..objects.len() {
        change_object_at(alloc, objects, i, number, change);
    }
}

fn changed_call(alloc: Global, call: Call, number: u64, change: Change) -> Call
    ensures { result ≡ changes.changed_call number change call }
{
    let Call {
        function,
        frame,
        mut locals,
    } = call;
    change_objects(alloc, &mut locals, number, change);
    Call {
        function,
        frame,
        locals,
    }
}

#[tactic(auto, using(crate::proofs::Changing::replaced_at))]
fn change_call_at(alloc: Global, calls: &mut Sequence<Call>, at: usize, number: u64, change: Change)
    requires { at < length calls.old }
    ensures { calls.new ≡ changed_at (changes.changed_call number change) at calls.old }
{
    let nothing = Call {
        function: 0,
        frame: 0,
        locals: Sequence::new(alloc),
    };
    let call = calls.replace(at, nothing);
    calls.set(at, changed_call(alloc, call, number, change));
}

/// Changes the object of a number among those of calls.
#[tactic(auto, using(crate::proofs::Changing::changed_turn))]
fn change_calls(alloc: Global, calls: &mut Sequence<Call>, number: u64, change: Change)
    ensures { calls.new ≡ map (changes.changed_call number change) calls.old }
{
    for i in 0..calls.len() {
        change_call_at(alloc, calls, i, number, change);
    }
}

/// Sets the scalar at an offset of the object of a number.
#[tactic(auto, unfolding(c_values::specs::Objects::with_scalar))]
pub fn put_scalar(alloc: Global, state: &mut State, number: u64, offset: u32, value: Value)
    ensures put { state.new ≡ objects.with_scalar number offset value state.old }
    ensures marks { state.new.marks ≡ state.old.marks }
{
    let change = Change::Put { offset, value };
    change_objects(alloc, &mut state.globals, number, change);
    change_calls(alloc, &mut state.calls, number, change);
}

/// Makes the scalars of the object of a number undefined.
#[tactic(auto, unfolding(c_values::specs::Objects::with_cleared))]
pub fn clear_scalars(alloc: Global, state: &mut State, number: u64)
    ensures cleared { state.new ≡ objects.with_cleared number state.old }
    ensures marks { state.new.marks ≡ state.old.marks }
{
    change_objects(alloc, &mut state.globals, number, Change::Clear);
    change_calls(alloc, &mut state.calls, number, Change::Clear);
}

/// Sets the scalar at a place, if there is one.
pub fn put_at(alloc: Global, state: &mut State, place: Location, value: Value)
    ensures put { state.new ≡ spec.put_at place.object place.offset value state.old }
    ensures marks { state.new.marks ≡ state.old.marks }
{
    if let Some(number) = place.object {
        put_scalar(alloc, state, number, place.offset, value);
    }
}

/// Gives the objects of parameters, numbered from the first, their values.
#[tactic(auto, using(crate::proofs::Params::params_none))]
pub fn put_params(alloc: Global, state: &mut State, first: u64, kinds: &[Kind], values: &[Value])
    requires { first + length kinds.now < 2 ^ 64 }
    ensures put { state.new ≡ spec.with_params first kinds.now values.now state.old }
    ensures marks { state.new.marks ≡ state.old.marks }
{
    if let ([kind, kinds @ ..], [value, values @ ..]) = (kinds, values) {
        put_scalar(alloc, state, first, 0, fit(*kind, *value));
        put_params(alloc, state, first + 1, kinds, values);
    }
}
