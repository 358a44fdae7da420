//! One step of a run, wherever it stands.

ghost use Rattle.std.specs.Prelude.{◌≡◌, ◌∷◌, slice_get};
ghost use Rattle.std.specs.Option.{option_copied};
ghost use Rattle.ir.specs.Machine as form;
ghost use Rattle.ir.specs.declared.control.Control.TheVariants as control;
ghost use Rattle.ir_run.specs.Going as going;
ghost use Rattle.ir_run.specs.Giving.{Steps};

use crate::calls::{call, come_back, leave, objects_of, param_kinds, stay};
use base16::Reading;
use c_run::{Halt, Run};
use c_values::Value;
use ir::{Control, Frame, Ir, IrFunction, Stack, Step, StepKind, Temporary};
use ir_steps::{Made, STUCK, at_depth, behind};
use std::alloc::Global;

/// More objects than these do not fit into any memory.
const MOST_OBJECTS: usize = 1 << 29;

/// A step of a function.
fn act(
    made: &Made<'_>,
    run: &mut Run,
    function: u16,
    temporaries: Stack<Temporary>,
    below: Stack<Frame>,
    kind: StepKind,
) -> Result<Control, Halt>
    ensures { Steps (form.act made.now.ir.now made.now.readings.now made.now.node kind function made.now.position made.now.first
        temporaries below run.old) result run.new }
{
    match kind {
        StepKind::Call {
            depth,
            function: callee,
            args,
        } => call(made, run, function, temporaries, below, depth, callee, args),
        StepKind::Return { depth, value } => {
            come_back(made, run, temporaries, below, depth, value)
        }
        StepKind::ReturnNothing => leave(run, Value::Undefined, below),
        _ => stay(made, run, function, temporaries, below, kind),
    }
}

/// The function of a number.
fn function_of(ir: &Ir, number: u16) -> Option<&IrFunction>
    ensures { option_copied result ≡ slice_get ir.now.functions number }
{
    ir.functions.as_slice().get(usize::from(number))
}

/// The step at a place of a function.
fn step_of(function: &IrFunction, position: u32) -> Option<&Step>
    ensures { option_copied result ≡ slice_get function.now.steps position }
{
    function.steps.as_slice().get(position as usize)
}

/// A step, at a place of a function.
fn at_step(
    alloc: Global,
    ir: &Ir,
    readings: &[Reading],
    run: &mut Run,
    function: u16,
    position: u32,
    first: u64,
    temporaries: Stack<Temporary>,
    below: Stack<Frame>,
) -> Result<Control, Halt>
    ensures { Steps (form.one_step ir.now readings.now (control.At function position first temporaries below) run.old)
        result run.new }
{
    let Some(of) = function_of(ir, function) else {
        return Err(STUCK);
    };
    let Some(step) = step_of(of, position) else {
        return Err(STUCK);
    };
    let made = Made {
        alloc,
        ir,
        readings,
        node: step.node,
        position,
        first,
    };
    act(&made, run, function, temporaries, below, step.kind)
}

/// The entry of a function.
fn enter_function(
    alloc: Global,
    run: &mut Run,
    function: u16,
    of: &IrFunction,
    args: &[Value],
    below: Stack<Frame>,
) -> Result<Control, Halt>
    ensures { Steps (going.enters function of.now args.now below run.old) result run.new }
{
    let objects = objects_of(alloc, of)?;
    let kinds = param_kinds(alloc, of)?;
    if objects.len() > MOST_OBJECTS || kinds.len() > MOST_OBJECTS {
        return Err(Halt::NoMemory);
    }
    let first = run.enter(alloc, function, of.frame, objects.as_slice())?;
    run.put_params(alloc, first, kinds.as_slice(), args);
    Ok(Control::At {
        function,
        position: 1,
        first,
        temporaries: Stack::new(alloc),
        below,
    })
}

/// The step at the entry of a function.
fn at_entry(
    alloc: Global,
    ir: &Ir,
    _readings: &[Reading],
    run: &mut Run,
    function: u16,
    _depth: u32,
    args: &[Value],
    below: Stack<Frame>,
) -> Result<Control, Halt>
    ensures { Steps (form.one_step ir.now _readings.now (control.Calling function _depth args.now below) run.old) result run.new }
{
    let Some(of) = function_of(ir, function) else {
        return Err(STUCK);
    };
    let Some(step) = step_of(of, 0) else {
        return Err(STUCK);
    };
    match step.kind {
        StepKind::Enter { .. } => enter_function(alloc, run, function, of, args, below),
        _ => Err(STUCK),
    }
}

/// What a call gave is put on top of the temporaries of the caller, if it is kept.
fn take_result(
    _ir: &Ir,
    _readings: &[Reading],
    run: &Run,
    depth: u32,
    kept: bool,
    value: Value,
    caller: Frame,
    below: Stack<Frame>,
) -> Result<Control, Halt>
    ensures { Steps (going.resumes _ir.now _readings.now depth kept value caller below run.now) result run.now }
{
    let Frame {
        function,
        position,
        first,
        mut temporaries,
    } = caller;
    at_depth(run, depth, &temporaries)?;
    if kept {
        temporaries.push(Temporary::Value(value))?;
    }
    Ok(Control::At {
        function,
        position: behind(position)?,
        first,
        temporaries,
        below,
    })
}

/// The step behind a call.
fn at_result(
    ir: &Ir,
    readings: &[Reading],
    run: &Run,
    value: Value,
    caller: Frame,
    below: Stack<Frame>,
) -> Result<Control, Halt>
    ensures { Steps (form.one_step ir.now readings.now (control.Returning value (caller ∷ below)) run.now) result run.now }
{
    let Some(of) = function_of(ir, caller.function) else {
        return Err(STUCK);
    };
    let Some(step) = step_of(of, caller.position) else {
        return Err(STUCK);
    };
    match step.kind {
        StepKind::Result { depth, kept } => take_result(
            ir, readings, run, depth, kept, value, caller, below,
        ),
        _ => Err(STUCK),
    }
}

/// One step of a run. Where the outermost call is left, that is still to be done, and the answer is `Returning` with no
/// call below.
pub fn one_step(
    alloc: Global,
    ir: &Ir,
    readings: &[Reading],
    run: &mut Run,
    control: Control,
) -> Result<Control, Halt>
    ensures { Steps (form.one_step ir.now readings.now control run.old) result run.new }
{
    match control {
        Control::At {
            function,
            position,
            first,
            temporaries,
            below,
        } => at_step(
            alloc,
            ir,
            readings,
            run,
            function,
            position,
            first,
            temporaries,
            below,
        ),
        Control::Calling {
            function,
            depth,
            args,
            below,
        } => at_entry(
            alloc,
            ir,
            readings,
            run,
            function,
            depth,
            args.as_slice(),
            below,
        ),
        Control::Returning { value, mut below } => match below.pop() {
            Some(caller) => at_result(ir, readings, run, value, caller, below),
            None => Err(STUCK),
        },
    }
}
