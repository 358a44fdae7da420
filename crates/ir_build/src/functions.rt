//! The functions of a form.

ghost use Rattle.std.specs.Prelude.{◌≡◌, map, length, slice_get, Some, IfOk};
ghost use Rattle.core_layout.specs.Laid.{IsLaid};
ghost use Rattle.c_meaning.specs.After as whole;
ghost use Rattle.ir_gen.specs.Body as body;
ghost use Rattle.ir_gen.specs.Form as spec;

use crate::emit::{further, put};
use crate::locals::{all_slots, frame_of, locals_of, objects_laid};
use crate::statements::stmts_steps;
use crate::stmt_sizes::stmts_count;
use base16::{NoMemory, Sequence};
use c_start::is_main;
use core_layout::Laid;
use core_tree::{Core, Function, Slot, Struct, Ty};
use ir::{IrFunction, Operand, Step, StepKind};
use std::alloc::Global;

/// Calls name functions by 16 bits.
const MOST_FUNCTIONS: usize = 65_536;

/// What stands at the end of a function.
fn end_step(_structs: &[Struct], _objects: &[Sequence<Slot>], main: bool) -> StepKind
    ensures { result ≡ body.end_step _structs.now _objects.now main }
{
    if main {
        StepKind::Return {
            depth: 0,
            value: Operand::Constant(0),
        }
    } else {
        StepKind::ReturnNothing
    }
}

/// The steps of a function.
fn function_steps(
    alloc: Global,
    structs: &[Struct],
    objects: &[Sequence<Slot>],
    function: &Function,
) -> Result<Sequence<Step>, NoMemory>
    ensures { IfOk result (λ steps. steps ≡ body.function_steps structs.now objects.now (whole.is_main function.now)
        (length function.now.params) function.now.node function.now.body) }
{
    let mut code = Sequence::new(alloc);
    let statements = function.body.as_slice();
    let node = function.node;
    let params = count_of(function.params.as_slice())?;
    let end = further(1, stmts_count(structs, objects, statements)?)?;
    put(&mut code, node, StepKind::Enter { params })?;
    stmts_steps(&mut code, structs, objects, statements, end, end)?;
    put(
        &mut code,
        node,
        end_step(structs, objects, is_main(function)),
    )?;
    Ok(code)
}

/// How many types there are, where the number has 16 bits.
fn count_of(types: &[Ty]) -> Result<u16, NoMemory>
    ensures { IfOk result (λ count. count ≡ length types.now) }
{
    if types.len() > u16::MAX as usize {
        return Err(NoMemory);
    }
    Ok(types.len() as u16)
}

/// A function of the form.
#[tactic(auto, using(crate::proofs::Placing::locals_are, crate::proofs::Placing::objects_are))]
fn function_of(
    alloc: Global,
    core: &Core,
    known: &[Option<Laid>],
    number: u16,
    function: &Function,
) -> Result<IrFunction, NoMemory>
    requires laid { IsLaid known.now core.now.structs }
    requires there { slice_get core.now.functions number ≡ Some function.now }
    ensures { IfOk result (λ made. made ≡ spec.function_of core.now.structs function.now) }
{
    let structs = core.structs.as_slice();
    let frame = frame_of(core, number, function)?;
    let params = count_of(function.params.as_slice())?;
    let laid = objects_laid(alloc, structs, known, function)?;
    let objects = all_slots(alloc, laid.as_slice())?;
    let steps = function_steps(alloc, structs, objects.as_slice(), function)?;
    let locals = locals_of(alloc, laid.as_slice())?;
    Ok(IrFunction {
        frame,
        params: u32::from(params),
        locals,
        steps,
    })
}

/// The functions of the form.
#[tactic(auto, using(crate::proofs::Placing::functions_turn))]
pub fn functions_of(
    alloc: Global,
    core: &Core,
    known: &[Option<Laid>],
) -> Result<Sequence<IrFunction>, NoMemory>
    requires { IsLaid known.now core.now.structs }
    ensures { IfOk result (λ all. all ≡ map (spec.function_of core.now.structs) core.now.functions) }
{
    let functions = core.functions.as_slice();
    let mut all = Sequence::new(alloc);
    if functions.len() > MOST_FUNCTIONS {
        return Err(NoMemory);
    }
    for at in 0..functions.len() {
        all.push(function_of(alloc, core, known, at as u16, &functions[at])?)?;
    }
    Ok(all)
}
