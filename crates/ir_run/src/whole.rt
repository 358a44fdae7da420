//! The run of a whole form.

ghost use Rattle.std.specs.Prelude.{◌≡◌, ◌-◌, ◌<◌, [], length, IfOk};
ghost use Rattle.ir.specs.declared.control.Control.TheVariants as control;
ghost use Rattle.ir.specs.Machine as form;
ghost use Rattle.ir_run.specs.Going as going;
ghost use Rattle.ir_run.specs.Giving.{Steps, Stops};
ghost use Rattle.ir_run.specs.Ending.{IsShown};

use crate::entering::one_step;
use crate::starting::start;
use base16::{EndKind, NoMemory, Reading, Sequence};
use c_run::{Halt, Run};
use c_values::State;
use ir::{Control, Ir, IrFunction, IrState, Stack};
use ir_steps::STUCK;
use std::alloc::Global;

/// Variables are numbered below this.
const MOST_NUMBERED: u64 = 65_536;

/// Whether the outermost call was left.
fn is_over(control: &Control) -> bool
    ensures { result ≡ going.is_over control.now }
{
    match control {
        Control::Returning { below, .. } => below.len() == 0,
        Control::At { .. } | Control::Calling { .. } => false,
    }
}

/// The run up to behind its next mark, in at most so many steps.
#[tactic(auto, using(crate::proofs::Bursts::burst_over, crate::proofs::Bursts::burst_marked, crate::proofs::Bursts::burst_turn, crate::proofs::Bursts::burst_halts, crate::proofs::Bursts::burst_end))]
fn burst(
    alloc: Global,
    ir: &Ir,
    readings: &[Reading],
    run: &mut Run,
    control: Control,
    steps: usize,
) -> Result<Control, Halt>
    ensures { Steps (going.bursts ir.now readings.now steps control run.old) result run.new }
{
    let mut control = control;
    for _step in 0..steps {
        let left = run.left();
        control = one_step(alloc, ir, readings, run, control)?;
        if is_over(&control) {
            return Ok(control);
        }
        if run.left() != left {
            return Ok(control);
        }
    }
    Err(STUCK)
}

/// The steps of all functions.
#[tactic(auto, using(crate::proofs::Starts::steps_turn, crate::proofs::Starts::steps_end))]
fn steps_in(functions: &[IrFunction]) -> Result<usize, NoMemory>
    ensures { IfOk result (λ steps. steps ≡ form.steps_in functions.now) }
{
    let mut sum: usize = 0;
    for function in functions {
        sum = sum.checked_add(function.steps.len()).ok_or(NoMemory)?;
    }
    Ok(sum)
}

/// The run through so many marks, the last of which stops it. Where its outermost call is left, there is no halt, and the
/// end is still to be made.
#[tactic(auto, using(crate::proofs::Bursts::marks_over, crate::proofs::Bursts::marks_turn, crate::proofs::Bursts::marks_halt, crate::proofs::Bursts::marks_end))]
fn run_through(
    alloc: Global,
    ir: &Ir,
    readings: &[Reading],
    run: &mut Run,
    control: Control,
    steps: usize,
    marks: u32,
) -> Option<Halt>
    requires { steps ≡ form.steps_in ir.now.functions }
    ensures { Stops (going.marked ir.now readings.now marks control run.old) result run.new }
{
    let mut control = control;
    for _mark in 0..marks {
        control = match burst(alloc, ir, readings, run, control, steps) {
            Ok(next) => next,
            Err(halt) => return Some(halt),
        };
        if is_over(&control) {
            return None;
        }
    }
    Some(STUCK)
}

/// What is shown of a run that halted in a state.
fn shown(halt: Halt, state: State) -> Result<IrState, NoMemory>
    ensures { IfOk result (λ shown. IsShown halt state shown) }
{
    match halt {
        Halt::Live => {
            let mut state = state;
            state.marks = state.marks.checked_add(1).ok_or(NoMemory)?;
            Ok(IrState::Live { state })
        }
        Halt::Ended(kind) => Ok(IrState::Ended { kind, state }),
        Halt::NeedsReading => Ok(IrState::NeedsReading),
        Halt::Broken { .. } => Ok(IrState::Stuck),
        Halt::NoMemory => Err(NoMemory),
    }
}

/// The run at its start, which may make so many marks, the last of which stops it.
#[tactic(auto, using(crate::proofs::Ends::starts_unmarked))]
fn begun(alloc: Global, ir: &Ir, marks: u32) -> Result<Run, NoMemory>
    requires { 0 < marks }
    ensures { IfOk result (λ run. run ≡ form.start_run ir.now (marks - 1)) }
{
    let born = ir.globals.len() as u64;
    if born >= MOST_NUMBERED {
        return Err(NoMemory);
    }
    Ok(Run::new(start(alloc, ir)?, marks - 1, born))
}

/// Where a run starts: just before the entry of `main`.
fn entry(alloc: Global, ir: &Ir) -> Control
    ensures { result ≡ control.Calling ir.now.main 0 [] [] }
{
    Control::Calling {
        function: ir.main,
        depth: 0,
        args: Sequence::new(alloc),
        below: Stack::new(alloc),
    }
}

/// The run from its start to a mark.
#[tactic(auto, using(crate::proofs::Ends::ended_is, crate::proofs::Ends::shown_is))]
fn run_main(alloc: Global, ir: &Ir, readings: &[Reading], marks: u32) -> Result<IrState, NoMemory>
    requires { 0 < marks }
    ensures { IfOk result (λ state. state ≡ form.after ir.now readings.now marks) }
{
    let steps = steps_in(ir.functions.as_slice())?;
    let mut run = begun(alloc, ir, marks)?;
    let control = entry(alloc, ir);
    match run_through(alloc, ir, readings, &mut run, control, steps, marks) {
        Some(halt) => shown(halt, run.into_state()),
        None => Ok(IrState::Ended {
            kind: EndKind::Done,
            state: run.finish(),
        }),
    }
}

/// The state of a form just after a number of marks on a list of readings, or how its run stopped earlier.
///
/// # Errors
/// `NoMemory` if memory runs out.
#[tactic(auto, using(crate::proofs::Ends::at_start))]
pub fn ir_run(alloc: Global, ir: &Ir, readings: &[Reading], marks: u32) -> Result<IrState, NoMemory>
    ensures { IfOk result (λ state. state ≡ form.after ir.now readings.now marks) }
{
    if marks == 0 {
        return Ok(IrState::Live {
            state: start(alloc, ir)?,
        });
    }
    run_main(alloc, ir, readings, marks)
}
