//! Where a run goes from a step: into a function, out of one, and to the next step.

ghost use Rattle.std.specs.Prelude.{◌≡◌, [], IfOk};
ghost use Rattle.ir.specs.Machine as form;
ghost use Rattle.ir_steps.specs.Doing as spec;
ghost use Rattle.ir_steps.specs.Giving.{Takes};
ghost use Rattle.ir_run.specs.Going as going;
ghost use Rattle.ir_run.specs.Giving.{Steps};

use base16::{Kind, NoMemory, Sequence};
use c_run::{Halt, Run};
use c_values::{Value, all_present, present};
use core_tree::Slot;
use ir::{Control, Frame, IrFunction, IrLocal, Operand, Stack, StepKind, Temporary};
use ir_steps::{Made, at_depth, behind, given, operand_of, top_value};
use std::alloc::Global;

/// So many topmost values, the last of them on top.
#[tactic(auto, using(crate::proofs::Popping::values_turn, crate::proofs::Popping::values_end, crate::proofs::Popping::values_stop))]
fn top_values(
    alloc: Global,
    run: &Run,
    temporaries: &mut Stack<Temporary>,
    count: u16,
) -> Result<Sequence<Value>, Halt>
    ensures { Takes (spec.top_values count temporaries.old [] run.now) result temporaries.new run.now }
{
    let mut found = Sequence::new(alloc);
    for _value in 0..count {
        let value = top_value(run, temporaries)?;
        found.push(value)?;
    }
    let mut values = found.into_vec();
    values.reverse();
    Ok(Sequence::from_vec(values))
}

/// The scalars of the parameters and locals of a function.
#[tactic(auto, using(crate::proofs::Starts::objects_turn))]
pub fn objects_of(
    alloc: Global,
    function: &IrFunction,
) -> Result<Sequence<Sequence<Slot>>, NoMemory>
    ensures { IfOk result (λ objects. objects ≡ form.objects_of function.now) }
{
    let mut objects = Sequence::new(alloc);
    for local in function.locals.as_slice() {
        objects.push(Sequence::from_vec(local.scalars.as_slice().to_vec(alloc)?))?;
    }
    Ok(objects)
}

/// What the first scalar of a parameter holds.
fn first_kind(local: &IrLocal) -> Kind
    ensures { result ≡ form.first_kind local.now.scalars }
{
    match local.scalars.as_slice() {
        [] => Kind::Int,
        [first, ..] => first.kind,
    }
}

/// What the parameters of a function hold.
#[tactic(auto, using(crate::proofs::Starts::kinds_turn, crate::proofs::Starts::kinds_full, crate::proofs::Starts::kinds_end))]
pub fn param_kinds(alloc: Global, function: &IrFunction) -> Result<Sequence<Kind>, NoMemory>
    ensures { IfOk result (λ kinds. kinds ≡ form.param_kinds function.now) }
{
    let mut kinds = Sequence::new(alloc);
    for (at, local) in function.locals.as_slice().iter().enumerate() {
        if at as u64 >= u64::from(function.params) {
            return Ok(kinds);
        }
        kinds.push(first_kind(local))?;
    }
    Ok(kinds)
}

/// The youngest call is left; where no call waits below it, that is still to be done.
#[tactic(auto, using(crate::proofs::Leaving::left_none, crate::proofs::Leaving::left_gone, crate::proofs::Leaving::left_stop))]
pub fn leave(run: &mut Run, value: Value, below: Stack<Frame>) -> Result<Control, Halt>
    ensures { Steps (form.left value below run.old) result run.new }
{
    if below.len() == 0 {
        return Ok(Control::Returning { value, below });
    }
    run.leave()?;
    Ok(Control::Returning { value, below })
}

/// A call of a function with the topmost values.
pub fn call(
    made: &Made<'_>,
    run: &Run,
    function: u16,
    mut temporaries: Stack<Temporary>,
    mut below: Stack<Frame>,
    depth: u32,
    callee: u16,
    args: u16,
) -> Result<Control, Halt>
    ensures { Steps (going.calls made.now.node made.now.position made.now.first depth callee args function temporaries below
        run.now) result run.now }
{
    let args = top_values(made.alloc, run, &mut temporaries, args)?;
    at_depth(run, depth, &temporaries)?;
    given(run, made.node, all_present(args.as_slice()))?;
    below.push(Frame {
        function,
        position: behind(made.position)?,
        first: made.first,
        temporaries,
    })?;
    Ok(Control::Calling {
        function: callee,
        depth,
        args,
        below,
    })
}

/// The end of a function with a value.
pub fn come_back(
    made: &Made<'_>,
    run: &mut Run,
    mut temporaries: Stack<Temporary>,
    below: Stack<Frame>,
    depth: u32,
    value: Operand,
) -> Result<Control, Halt>
    ensures { Steps (going.returns made.now.node made.now.first depth value temporaries below run.old) result run.new }
{
    let value = operand_of(run, &mut temporaries, made.node, made.first, value)?;
    at_depth(run, depth, &temporaries)?;
    let value = given(run, made.node, present(value))?;
    leave(run, value, below)
}

/// A step that stays in its function.
pub fn stay(
    made: &Made<'_>,
    run: &mut Run,
    function: u16,
    mut temporaries: Stack<Temporary>,
    below: Stack<Frame>,
    kind: StepKind,
) -> Result<Control, Halt>
    ensures { Steps (going.stays made.now.ir.now made.now.readings.now made.now.node made.now.position made.now.first kind
        function temporaries below run.old) result run.new }
{
    let position = made.does(run, &mut temporaries, kind)?;
    Ok(Control::At {
        function,
        position,
        first: made.first,
        temporaries,
        below,
    })
}
