//! Calls of functions.

ghost use Rattle.std.specs.Prelude.{◌≡◌, ◌<◌, ◌≤◌, ◌^◌, slice_get, Some};
ghost use Rattle.std.specs.Option.{option_copied};
ghost use Rattle.c_run.specs.Gives.{Gives};
ghost use Rattle.c_meaning.specs.After as spec;

use base16::{Reading, Sequence};
use c_eval::Body;
use c_exec::stmts;
use c_meaning::Flow;
use c_run::{Halt, Run};
use c_start::{Program, enter, is_main, result_of, set_params};
use c_values::Value;
use core_tree::{Core, Function};
use std::alloc::Global;

/// The function of a number.
pub fn function_of<'a>(program: &'a Program<'_>, number: u16) -> Option<&'a Function>
    ensures { option_copied result ≡ slice_get program.now.core.now.functions number }
{
    program.core().functions.get(usize::from(number))
}

/// The body of a function that is entered, in which at most so many calls are one in the other. The objects of the call are
/// numbered from the first.
#[cycle(calls)]
#[tactic(auto, unfolding(c_meaning::specs::After::body))]
pub fn run_body(
    alloc: Global,
    program: &Program<'_>,
    readings: &[Reading],
    depth: u64,
    number: u16,
    function: &Function,
    first: u64,
    args: &[Value],
    run: &mut Run,
) -> Result<Flow, Halt>
    requires there { slice_get program.now.core.now.functions number ≡ Some function.now }
    requires low { first < 2 ^ 63 }
    ensures { let core = program.now.core.now in
        Gives (spec.body core readings.now (spec.calls core readings.now depth) function.now args.now first run.old) result run.new }
{
    set_params(alloc, program, number, function, first, args, run)?;
    let call = |alloc: Global, _core: &Core, readings: &[Reading], inner: u64, number: u16, args: Sequence<
        Value,
    >, run: &mut Run|
        ensures { Gives (spec.calls program.entry.now.core.now readings.now inner number args run.old) result run.new }
    { called(alloc, program, readings, inner, number, args, run) };
    let body = Body {
        alloc,
        core: program.core(),
        readings,
        depth,
        first,
        call,
    };
    stmts(&body, run, function.body.as_slice(), &None)
}

/// A call of a function by its number, with at most so many calls one in the other.
#[cycle(calls)]
#[tactic(auto, using(crate::proofs::Deeper::calls_none, crate::proofs::Deeper::calls_absent, crate::proofs::Deeper::calls_deeper))]
fn called(
    alloc: Global,
    program: &Program<'_>,
    readings: &[Reading],
    depth: u64,
    number: u16,
    args: Sequence<Value>,
    run: &mut Run,
) -> Result<Value, Halt>
    ensures { Gives (spec.calls program.now.core.now readings.now depth number args run.old) result run.new }
{
    if depth == 0 {
        return Err(Halt::Broken { rule: 0, node: 0 });
    }
    let Some(function) = function_of(program, number) else {
        return Err(Halt::Broken { rule: 0, node: 0 });
    };
    let first = enter(alloc, program, number, function, run)?;
    let flow = run_body(
        alloc,
        program,
        readings,
        depth - 1,
        number,
        function,
        first,
        args.as_slice(),
        run,
    )?;
    run.leave()?;
    Ok(result_of(is_main(function), flow))
}
