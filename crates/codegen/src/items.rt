//! The items of a program.

ghost use Rattle.std.specs.Prelude.{◌≡◌, ℕ, ◌+◌, ◌<◌, ◌≤◌, [], ◌∷◌, ◌++◌, Some, length, drop, slice_get, IfOk, OnOk, IsTrue, if◌then◌else◌};
ghost use Rattle.core_tree.specs.Data.{stamps_start};
ghost use Rattle.matching.specs.Simulates as simulates;
ghost use Rattle.select430.specs.Items.{steps_items, function_items, functions_items};
ghost use Rattle.codegen.specs.Program as spec;
ghost use Rattle.codegen.specs.Placing.{Adds, HaveFewSteps, IsFew, AreItemsOf, step_and_label, routine_words};

use crate::adding::{Counted, add, add_all, add_words};
use crate::labels::{function_label, helper_label, step_label};
use crate::routines::{Routines, words_of};
use crate::tables::add_tables;
use asm430::Item;
use base16::NoMemory;
use core_tree::Core;
use ir::{Ir, IrFunction};
use isa430::{Instr, OneOp, Src};
use rt430::Helper;
use select430::select;
use std::alloc::Global;

/// The items of a program, where each function begins, in words from the first item on, and the words in front of the check
/// tables.
#[derive(Drop)]
pub struct ProgramItems {
    pub items: Vec<Item>,
    pub starts: Vec<u32>,
    pub tables: u32,
}

/// Whether functions have as few steps as labels are there for.
fn steps_are_few(functions: &[IrFunction]) -> bool
    ensures { IsTrue result → HaveFewSteps functions.now (length functions.now) }
{
    for function in functions {
        if function.steps.len() >= 4_294_967_296 {
            return false;
        }
    }
    true
}

/// Ends where there are more functions or steps than labels.
fn see_that_few(ir: &Ir) -> Result<(), NoMemory>
    ensures { OnOk result (IsFew ir.now) }
{
    let functions = ir.functions.as_slice();
    if functions.len() <= 65_536 && steps_are_few(functions) {
        Ok(())
    } else {
        Err(NoMemory)
    }
}

/// What ends a run.
fn last_call() -> Instr
    ensures { result ≡ simulates.last_call }
{
    Instr::One {
        op: OneOp::Call,
        byte: false,
        src: Src::Immediate(0xff00),
    }
}

/// Adds the call of `main` and what ends a run.
fn add_start(made: &mut Counted, ir: &Ir) -> Result<(), NoMemory>
    ensures { OnOk result (Adds made.old made.new (spec.start_items ir.now)) }
{
    let all = [
        Item::CallTo(function_label(ir.main)),
        Item::Instr(last_call()),
    ];
    add_all(made, &all)
}

/// Adds the items of a step, with its label in front.
fn add_step(
    alloc: Global,
    made: &mut Counted,
    ir: &Ir,
    function: u16,
    step: u32,
) -> Result<(), NoMemory>
    ensures { OnOk result (Adds made.old made.new (step_and_label ir.now function step)) }
{
    let items = select(alloc, ir, function, step)?;
    add(made, Item::Label(step_label(function, step)))?;
    add_all(made, items.as_slice())
}

/// Adds the steps of a function.
fn add_steps(
    alloc: Global,
    made: &mut Counted,
    ir: &Ir,
    function: u16,
    of: &IrFunction,
) -> Result<(), NoMemory>
    requires there { slice_get ir.now.functions function ≡ Some of.now }
    requires few { length of.now.steps < 4294967296 }
    ensures { OnOk result (Adds made.old made.new (steps_items ir.now of.now function 0 of.now.steps)) }
{
    for step in 0..of.steps.len() {
        add_step(alloc, made, ir, function, step as u32)?;
    }
    Ok(())
}

/// Adds a function: its label and its steps.
fn add_function(
    alloc: Global,
    made: &mut Counted,
    ir: &Ir,
    function: u16,
    of: &IrFunction,
) -> Result<(), NoMemory>
    requires there { slice_get ir.now.functions function ≡ Some of.now }
    requires few { length of.now.steps < 4294967296 }
    ensures { OnOk result (Adds made.old made.new (function_items ir.now function of.now)) }
{
    add(made, Item::Label(function_label(function)))?;
    add_steps(alloc, made, ir, function, of)
}

/// Adds all functions, and where each begins.
fn add_functions(
    alloc: Global,
    made: &mut Counted,
    starts: &mut Vec<u32>,
    ir: &Ir,
) -> Result<(), NoMemory>
    requires { IsFew ir.now }
    ensures items { OnOk result (Adds made.old made.new (functions_items ir.now 0 ir.now.functions)) }
    ensures starts { OnOk result (starts.new.items ≡ starts.old.items ++ spec.function_starts made.old.words ir.now 0 ir.now.functions) }
{
    let functions = ir.functions.as_slice();
    for number in 0..functions.len() {
        starts.push(made.words)?;
        add_function(alloc, made, ir, number as u16, &functions[number])?;
    }
    Ok(())
}

/// Whether an item calls a label.
fn is_call(label: u64, item: &Item) -> bool
    ensures { result ≡ spec.is_call label item.now }
{
    match *item {
        Item::CallTo(other) => other == label,
        _ => false,
    }
}

/// Whether one of these items does.
#[tactic(auto, using(crate::proofs::Turns::call_here, crate::proofs::Turns::call_next))]
fn has_call(label: u64, items: &[Item]) -> bool
    ensures { result ≡ spec.has_call label items.now }
{
    for item in items {
        if is_call(label, item) {
            return true;
        }
    }
    false
}

/// Adds a routine if it is called.
fn push_if(called: &mut Vec<Helper>, which: Helper, is_called: bool) -> Result<(), NoMemory>
    ensures { OnOk result (called.new.items ≡ called.old.items ++ (if is_called then which ∷ [] else [])) }
{
    if is_called {
        called.push(which)?;
    }
    Ok(())
}

/// Those of some routines that items call.
fn called_of(alloc: Global, items: &[Item], all: &[Helper]) -> Result<Vec<Helper>, NoMemory>
    ensures { IfOk result (λ called. called.items ≡ spec.called_of items.now all.now) }
{
    let mut called = Vec::new(alloc);
    for which in all {
        let is_called = has_call(helper_label(*which), items);
        push_if(&mut called, *which, is_called)?;
    }
    Ok(called)
}

/// All routines that items call.
fn all_called(alloc: Global, items: &[Item]) -> Result<Vec<Helper>, NoMemory>
    ensures { IfOk result (λ called. called.items ≡ spec.called_of items.now spec.all_helpers) }
{
    let all = [
        Helper::Mul16,
        Helper::Udiv16,
        Helper::Umod16,
        Helper::Sdiv16,
        Helper::Smod16,
        Helper::Shl,
        Helper::Shr,
        Helper::Sar,
    ];
    called_of(alloc, items, &all)
}

/// Adds a routine: its label and its words.
fn add_routine(made: &mut Counted, routines: &Routines, which: Helper) -> Result<(), NoMemory>
    ensures { OnOk result (Adds made.old made.new (spec.routine_items (routine_words routines.now) (which ∷ []))) }
{
    add(made, Item::Label(helper_label(which)))?;
    add_words(made, words_of(routines, which))
}

/// Adds routines.
fn add_routines(made: &mut Counted, routines: &Routines, all: &[Helper]) -> Result<(), NoMemory>
    ensures { OnOk result (Adds made.old made.new (spec.routine_items (routine_words routines.now) all.now)) }
{
    for which in all {
        add_routine(made, routines, *which)?;
    }
    Ok(())
}

/// The items behind those of the start.
fn behind_start(items: &[Item]) -> &[Item]
    requires { 2 ≤ length items.now }
    ensures { result.now ≡ drop 2 items.now }
{
    &items[2..]
}

/// Adds the items in front of the check tables, and where each function begins.
fn add_code(
    alloc: Global,
    made: &mut Counted,
    starts: &mut Vec<u32>,
    ir: &Ir,
    routines: &Routines,
) -> Result<(), NoMemory>
    requires few { IsFew ir.now }
    requires first { made.old.items.items ≡ [] }
    ensures items { OnOk result (Adds made.old made.new (spec.code_items (routine_words routines.now) ir.now)) }
    ensures starts { OnOk result (starts.new.items ≡ starts.old.items ++ spec.function_starts (made.old.words + 4) ir.now 0 ir.now.functions) }
{
    add_start(made, ir)?;
    add_functions(alloc, made, starts, ir)?;
    let items = made.items.as_slice();
    let functions = behind_start(items);
    let called = all_called(alloc, functions)?;
    let all = called.as_slice();
    add_routines(made, routines, all)?;
    Ok(())
}

/// The items of a program, where its stamps begin at an address.
pub fn items_of(
    alloc: Global,
    core: &Core,
    ir: &Ir,
    routines: &Routines,
    stamps: u32,
) -> Result<ProgramItems, NoMemory>
    requires { stamps ≡ stamps_start core.now }
    ensures { IfOk result (AreItemsOf (routine_words routines.now) core.now ir.now) }
{
    see_that_few(ir)?;
    let mut made = Counted {
        items: Vec::new(alloc),
        words: 0,
    };
    let mut starts = Vec::new(alloc);
    add_code(alloc, &mut made, &mut starts, ir, routines)?;
    let tables = made.words;
    add_tables(&mut made, core, stamps, ir)?;
    let Counted { items, .. } = made;
    Ok(ProgramItems {
        items,
        starts,
        tables,
    })
}
