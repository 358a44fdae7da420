//! What steps take of the temporaries and put on top of them.

ghost use Rattle.std.specs.Prelude.{◌≡◌, ◌∷◌, []};
ghost use Rattle.c_run.specs.Gives.{Gives};
ghost use Rattle.c_run.specs.Runs as runs;
ghost use Rattle.ir_steps.specs.Doing as spec;
ghost use Rattle.ir_steps.specs.Giving.{Takes, Moves};

use crate::asked::{STUCK, behind, computed, given, known};
use c_run::{Halt, Run};
use c_values::{Location, Value, present};
use ir::{Keep, Operand, Stack, Target, Temporary, Test};

/// So many temporaries are left.
#[tactic(auto, unfolding(crate::specs::Doing::at_depth))]
pub fn at_depth(_run: &Run, depth: u32, temporaries: &Stack<Temporary>) -> Result<(), Halt>
    ensures { Gives (spec.at_depth depth temporaries.now _run.now) result _run.now }
{
    if temporaries.len() == depth as usize {
        Ok(())
    } else {
        Err(STUCK)
    }
}

/// The topmost temporary, which is a value.
#[tactic(auto, unfolding(crate::specs::Doing::top_value))]
pub fn top_value(_run: &Run, temporaries: &mut Stack<Temporary>) -> Result<Value, Halt>
    ensures { Takes (spec.top_value temporaries.old _run.now) result temporaries.new _run.now }
{
    match temporaries.pop() {
        Some(Temporary::Value(value)) => Ok(value),
        Some(Temporary::Place(_)) | None => Err(STUCK),
    }
}

/// The topmost temporary, which is a place.
#[tactic(auto, unfolding(crate::specs::Doing::top_place))]
pub fn top_place(_run: &Run, temporaries: &mut Stack<Temporary>) -> Result<Location, Halt>
    ensures { Takes (spec.top_place temporaries.old _run.now) result temporaries.new _run.now }
{
    match temporaries.pop() {
        Some(Temporary::Place(place)) => Ok(place),
        Some(Temporary::Value(_)) | None => Err(STUCK),
    }
}

/// The topmost temporary.
#[tactic(auto, unfolding(crate::specs::Doing::top_any))]
pub fn top_any(_run: &Run, temporaries: &mut Stack<Temporary>) -> Result<Temporary, Halt>
    ensures { Takes (spec.top_any temporaries.old _run.now) result temporaries.new _run.now }
{
    match temporaries.pop() {
        Some(top) => Ok(top),
        None => Err(STUCK),
    }
}

/// The value of an operand of a step of a node, in a call whose first object has a number.
#[tactic(auto, unfolding(crate::specs::Doing::operand_of))]
pub fn operand_of(
    run: &Run,
    temporaries: &mut Stack<Temporary>,
    node: u32,
    first: u64,
    operand: Operand,
) -> Result<Value, Halt>
    ensures { Takes (spec.operand_of node first operand temporaries.old run.now) result temporaries.new run.now }
{
    match operand {
        Operand::Temporary => top_value(run, temporaries),
        Operand::Constant(number) => Ok(Value::Int(number)),
        Operand::Null => Ok(Value::Null),
        Operand::Scalar { of, offset, kind } => {
            let place = known(first, of, offset)?;
            run.load(node, place, kind)
        }
    }
}

/// The values of two operands.
#[tactic(auto, unfolding(crate::specs::Doing::operands_of))]
pub fn operands_of(
    run: &Run,
    temporaries: &mut Stack<Temporary>,
    node: u32,
    first: u64,
    left: Operand,
    right: Operand,
) -> Result<(Value, Value), Halt>
    ensures { Takes (spec.operands_of node first left right temporaries.old run.now) result temporaries.new run.now }
{
    let right = operand_of(run, temporaries, node, first, right)?;
    let left = operand_of(run, temporaries, node, first, left)?;
    Ok((left, right))
}

/// The place of a target.
#[tactic(auto, unfolding(crate::specs::Doing::target_of))]
pub fn target_of(
    run: &Run,
    temporaries: &mut Stack<Temporary>,
    first: u64,
    target: Target,
) -> Result<Location, Halt>
    ensures { Takes (spec.target_of first target temporaries.old run.now) result temporaries.new run.now }
{
    match target {
        Target::Temporary => top_place(run, temporaries),
        Target::Known { of, offset } => {
            let place = known(first, of, offset)?;
            Ok(place)
        }
    }
}

/// The value that a branch tests.
#[tactic(auto, unfolding(crate::specs::Doing::test_of))]
pub fn test_of(
    run: &Run,
    temporaries: &mut Stack<Temporary>,
    node: u32,
    first: u64,
    test: Test,
) -> Result<Value, Halt>
    ensures { Takes (spec.test_of node first test temporaries.old run.now) result temporaries.new run.now }
{
    match test {
        Test::Value(value) => operand_of(run, temporaries, node, first, value),
        Test::Computed {
            operation,
            left,
            right,
        } => {
            let (left, right) = operands_of(run, temporaries, node, first, left, right)?;
            computed(run, node, operation, left, right)
        }
    }
}

/// The value from before, where it is kept.
#[tactic(auto, unfolding(crate::specs::Doing::before_of))]
pub fn before_of(
    run: &Run,
    temporaries: &mut Stack<Temporary>,
    node: u32,
    keep: Keep,
) -> Result<Value, Halt>
    ensures { Takes (spec.before_of node keep temporaries.old run.now) result temporaries.new run.now }
{
    match keep {
        Keep::Before => {
            let before = top_value(run, temporaries)?;
            given(run, node, present(before))
        }
        Keep::Nothing | Keep::Stored => Ok(Value::Undefined),
    }
}

/// Behind a step that gives a value: the place of the next one.
pub fn gave(temporaries: &mut Stack<Temporary>, position: u32, value: Value) -> Result<u32, Halt>
    ensures { (r : runs.Run) → Moves (spec.gave position temporaries.old value r) result temporaries.new r }
{
    temporaries.push(Temporary::Value(value))?;
    Ok(behind(position)?)
}

/// Behind a step that gives a place.
pub fn placed(
    temporaries: &mut Stack<Temporary>,
    position: u32,
    place: Location,
) -> Result<u32, Halt>
    ensures { (r : runs.Run) → Moves (spec.placed position temporaries.old place r) result temporaries.new r }
{
    temporaries.push(Temporary::Place(place))?;
    Ok(behind(position)?)
}
