//! The run of a whole program.

ghost use Rattle.std.specs.Prelude.{◌≡◌, ◌-◌, ◌<◌, Bool, length, slice_get, Some, IfOk};
ghost use Rattle.core_tree.specs.LawfulCore.{IsLawful};
ghost use Rattle.c_run.specs.Gives.{Gives};
ghost use Rattle.c_meaning.specs.After as spec;
ghost use Rattle.c_soundness.specs.Rules.{IsByTheRules};
ghost use Rattle.c_interpreter.specs.Ending.{main_body, IsShown};

use crate::calls::{function_of, run_body};
use base16::{EndKind, NoMemory, Reading};
use c_meaning::{CState, Flow};
use c_run::{Halt, Run};
use c_start::{Program, enter, main_of, start};
use c_values::State;
use core_tree::{Core, Function};
use std::alloc::Global;

/// Functions and variables are numbered below this.
const MOST_NUMBERED: u64 = 65_536;

/// The call of `main` up to the end of its body.
fn main_body(
    alloc: Global,
    program: &Program<'_>,
    readings: &[Reading],
    number: u16,
    function: &Function,
    run: &mut Run,
) -> Result<Flow, Halt>
    requires { slice_get program.now.core.now.functions number ≡ Some function.now }
    ensures { Gives (main_body program.now.core.now readings.now number function.now run.old) result run.new }
{
    let first = enter(alloc, program, number, function, run)?;
    let depth = u64::from(run.left()) + 1;
    run_body(
        alloc,
        program,
        readings,
        depth,
        number,
        function,
        first,
        &[],
        run,
    )
}

/// What is shown of a run that halted in a state, where a number of marks was asked for.
fn shown(halt: Halt, state: State, marks: u32) -> Result<CState, NoMemory>
    ensures { IfOk result (λ shown. IsShown halt state marks shown) }
{
    match halt {
        Halt::Live => {
            let mut state = state;
            state.marks = marks;
            Ok(CState::Live { state })
        }
        Halt::Ended(kind) => Ok(CState::Ended { kind, state }),
        Halt::NeedsReading => Ok(CState::NeedsReading),
        Halt::Broken { rule: 0, .. } => Ok(CState::Undefined { rule: 0, node: 0 }),
        Halt::Broken { rule, node } => Ok(CState::Undefined { rule, node }),
        Halt::NoMemory => Err(NoMemory),
    }
}

/// The run at its start, which may make so many marks, the last of which stops it.
#[tactic(auto, using(crate::proofs::Begins::starts_unmarked))]
fn begun(alloc: Global, core: &Core, marks: u32) -> Result<Run, NoMemory>
    requires { 0 < marks }
    ensures { IfOk result (λ run.
        run ≡ record { state = spec.start core.now; used = 0; left = marks - 1; next = length core.now.globals }) }
{
    let born = core.globals.len() as u64;
    if born >= MOST_NUMBERED {
        return Err(NoMemory);
    }
    Ok(Run::new(start(alloc, core)?, marks - 1, born))
}

/// The run of a program that has the function `main`, to a mark.
#[tactic(auto, using(crate::proofs::Ends::ended_is))]
fn run_main(
    alloc: Global,
    program: &Program<'_>,
    readings: &[Reading],
    number: u16,
    function: &Function,
    marks: u32,
) -> Result<CState, NoMemory>
    requires there { slice_get program.now.core.now.functions number ≡ Some function.now }
    requires main { spec.main_of program.now.core.now ≡ Some number }
    requires some { 0 < marks }
    ensures { IfOk result (λ state. state ≡ spec.after program.now.core.now readings.now marks) }
{
    let mut run = begun(alloc, program.core(), marks)?;
    match main_body(alloc, program, readings, number, function, &mut run) {
        Ok(_flow) => Ok(CState::Ended {
            kind: EndKind::Done,
            state: run.finish(),
        }),
        Err(halt) => shown(halt, run.into_state(), marks),
    }
}

/// The state of a program after a number of marks.
#[tactic(auto, using(crate::proofs::Begins::at_start, crate::proofs::Begins::no_main, crate::proofs::Begins::no_function))]
fn run_program(
    alloc: Global,
    program: &Program<'_>,
    readings: &[Reading],
    marks: u32,
) -> Result<CState, NoMemory>
    ensures { IfOk result (λ state. state ≡ spec.after program.now.core.now readings.now marks) }
{
    if marks == 0 {
        return Ok(CState::Live {
            state: start(alloc, program.core())?,
        });
    }
    let Some(number) = main_of(program.core().functions.as_slice()) else {
        return Ok(CState::Undefined { rule: 0, node: 0 });
    };
    if number >= MOST_NUMBERED {
        return Err(NoMemory);
    }
    let number = number as u16;
    let Some(function) = function_of(program, number) else {
        return Ok(CState::Undefined { rule: 0, node: 0 });
    };
    run_main(alloc, program, readings, number, function, marks)
}

/// The state of a program just after a number of marks on a list of readings, or how its run stopped earlier; where that was
/// undefined and the program is lawful, a rule from 1 to 12 at one of its nodes. A call of a function takes a few frames of
/// the stack, and one more for each level of its tree.
///
/// # Errors
/// `NoMemory` if memory runs out.
pub fn meaning(
    alloc: Global,
    core: &Core,
    readings: &[Reading],
    marks: u32,
) -> Result<CState, NoMemory>
    ensures run { IfOk result (λ state. state ≡ spec.after core.now readings.now marks) }
    ensures rules { (annotated : Bool) → IsLawful annotated core.now → IfOk result (λ state. IsByTheRules core.now state) }
{
    let program = Program::new(alloc, core)?;
    run_program(alloc, &program, readings, marks)
}
