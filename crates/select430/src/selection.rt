//! The items of a step.

ghost use Rattle.std.specs.Prelude.{◌≡◌, ◌++◌, IfOk, OnOk, slice_get, length};
ghost use Rattle.std.specs.Option.{option_copied};
ghost use Rattle.select430.specs.Items.{items_at};
ghost use Rattle.ir.specs.declared.form.StepKind.TheVariants as step_kind;
ghost use Rattle.select430.specs.Adding.{Adds};
ghost use Rattle.select430.specs.Code as code;
ghost use Rattle.select430.specs.Labels as labels;
ghost use Rattle.select430.specs.Parts as spec;

use crate::instrs::{push, service};
use crate::operands::{convert, keep, put};
use crate::part::Part;
use crate::steps::{
    beside, binary, branch, call, case, element, known_place, load, member, store, store_local,
    sum, truth, unary, update, update_local,
};
use crate::timing::{block, emit, enter, framed, return_value, sense, stamp, timely};
use asm430::Item;
use base16::{Kind, NoMemory};
use ir::{Ir, IrFunction, Step, StepKind};
use rt430::Helper;
use std::alloc::Global;

/// The label of a function.
fn function_label(function: u16) -> u64
    ensures { result ≡ labels.function_label function }
{
    u64::from(function) * 1099511627776
}

/// The label of a step.
fn step_label(function: u16, step: u32) -> u64
    ensures { result ≡ labels.step_label function step }
{
    function_label(function) + 4 * (u64::from(step) + 1)
}

/// The label inside a step.
fn inner_label(function: u16, step: u32) -> u64
    ensures { result ≡ labels.inner_label function step }
{
    step_label(function, step) + 1
}

/// The label of a helper routine.
fn helper_label(which: Helper) -> u64
    ensures { result ≡ labels.helper_label which }
{
    let number = match which {
        Helper::Mul16 => 0,
        Helper::Udiv16 => 1,
        Helper::Umod16 => 2,
        Helper::Sdiv16 => 3,
        Helper::Smod16 => 4,
        Helper::Shl => 5,
        Helper::Shr => 6,
        Helper::Sar => 7,
    };
    1152921504606846976 + number
}

/// The label of a check table.
fn table_label(table: u32) -> u64
    ensures { result ≡ labels.table_label table }
{
    2305843009213693952 + u64::from(table)
}

/// Adds the items of a part.
fn push_items(items: &mut Vec<Item>, function: u16, step: u32, part: Part) -> Result<(), NoMemory>
    ensures { OnOk result (items.new.items ≡ items.old.items ++ spec.part_items function step part) }
{
    let inner = inner_label(function, step);
    match part {
        Part::Do(instr) => items.push(Item::Instr(instr))?,
        Part::DoUnless(cond, instr) => {
            let all = [
                Item::Jump(cond, inner),
                Item::Instr(instr),
                Item::Label(inner),
            ];
            items.extend_from_slice(&all)?;
        }
        Part::Go(to) => items.push(Item::Branch(step_label(function, to)))?,
        Part::GoUnless(cond, to) => {
            let all = [
                Item::Jump(cond, inner),
                Item::Branch(step_label(function, to)),
                Item::Label(inner),
            ];
            items.extend_from_slice(&all)?;
        }
        Part::Enters(callee) => items.push(Item::CallTo(function_label(callee)))?,
        Part::Helps(which) => items.push(Item::CallTo(helper_label(which)))?,
        Part::Names(table, register) => {
            items.push(Item::AddressOf(table_label(table), register))?;
        }
    }
    Ok(())
}

/// The items of parts.
fn items_of(alloc: Global, function: u16, step: u32, parts: &[Part]) -> Result<Vec<Item>, NoMemory>
    ensures { IfOk result (λ items. items.items ≡ spec.parts_items function step parts.now) }
{
    let mut items = Vec::new(alloc);
    for part in parts {
        push_items(&mut items, function, step, *part)?;
    }
    Ok(items)
}

fn load_in_place(
    ir: &Ir,
    function: &IrFunction,
    parts: &mut Vec<Part>,
    depth: u32,
    kind: Kind,
) -> Result<(), NoMemory>
    ensures { OnOk result (Adds parts.old.items parts.new.items (code.code_of_step ir.now function.now (step_kind.Load depth kind))) }
{
    load(
        ir,
        function,
        parts,
        u64::from(depth),
        kind,
        u64::from(depth),
    )
}

fn load_above(
    ir: &Ir,
    function: &IrFunction,
    parts: &mut Vec<Part>,
    depth: u32,
    kind: Kind,
) -> Result<(), NoMemory>
    ensures { OnOk result (Adds parts.old.items parts.new.items (code.code_of_step ir.now function.now (step_kind.Peek depth kind))) }
{
    load(
        ir,
        function,
        parts,
        u64::from(depth),
        kind,
        u64::from(depth) + 1,
    )
}

fn keep_result(
    ir: &Ir,
    function: &IrFunction,
    parts: &mut Vec<Part>,
    depth: u32,
    kept: bool,
) -> Result<(), NoMemory>
    ensures { OnOk result (Adds parts.old.items parts.new.items (code.code_of_step ir.now function.now (step_kind.Result depth kept))) }
{
    if kept {
        keep(ir, function, parts, u64::from(depth), 12)?;
    }
    Ok(())
}

/// Adds the code of a step.
fn push_code(
    ir: &Ir,
    function: &IrFunction,
    parts: &mut Vec<Part>,
    kind: StepKind,
) -> Result<(), NoMemory>
    ensures { OnOk result (Adds parts.old.items parts.new.items (code.code_of_step ir.now function.now kind)) }
{
    match kind {
        StepKind::Put { depth, value } => put(ir, function, parts, value, u64::from(depth)),
        StepKind::Nothing { .. } => Ok(()),
        StepKind::Drop { .. } => Ok(()),
        StepKind::Beside { depth, operation } => beside(ir, function, parts, depth, operation),
        StepKind::Convert { depth, to, value } => convert(
            ir,
            function,
            parts,
            to,
            value,
            u64::from(depth),
        ),
        StepKind::Unary {
            depth,
            op,
            value,
            ..
        } => unary(ir, function, parts, op, value, u64::from(depth)),
        StepKind::Binary {
            depth,
            operation,
            left,
            right,
        } => binary(ir, function, parts, depth, operation, left, right),
        StepKind::Truth { depth, of, value } => truth(ir, function, parts, depth, of, value),
        StepKind::Address { depth, of, offset } => known_place(
            ir, function, parts, depth, of, offset,
        ),
        StepKind::Follow { depth, value } => put(ir, function, parts, value, u64::from(depth)),
        StepKind::Member { depth, offset } => member(ir, function, parts, depth, offset),
        StepKind::Element {
            depth,
            size,
            own,
            index,
        } => element(ir, function, parts, depth, size, own, index),
        StepKind::Sum {
            depth,
            size,
            left_type,
            right_type,
            swapped,
            left,
            right,
        } => sum(
            ir, function, parts, depth, size, left_type, right_type, swapped, left, right,
        ),
        StepKind::PointTo { .. } => Ok(()),
        StepKind::Load { depth, kind } => load_in_place(ir, function, parts, depth, kind),
        StepKind::Peek { depth, kind } => load_above(ir, function, parts, depth, kind),
        StepKind::Store {
            depth,
            target,
            kind,
            value,
            keep,
        } => store(ir, function, parts, depth, target, kind, value, keep),
        StepKind::StoreLocal {
            depth,
            local,
            offset,
            kind,
            value,
            keep,
        } => store_local(ir, function, parts, depth, local, offset, kind, value, keep),
        StepKind::Update {
            depth,
            target,
            kind,
            operation,
            value,
            keep,
        } => update(
            ir, function, parts, depth, target, kind, operation, value, keep,
        ),
        StepKind::UpdateLocal {
            depth,
            local,
            offset,
            kind,
            operation,
            value,
            keep,
        } => update_local(
            ir, function, parts, depth, local, offset, kind, operation, value, keep,
        ),
        StepKind::Undefine { .. } => Ok(()),
        StepKind::Jump { to } => push(parts, Part::Go(to)),
        StepKind::Branch {
            depth,
            test,
            of,
            when,
            to,
        } => branch(ir, function, parts, depth, test, of, when, to),
        StepKind::Case {
            depth,
            of,
            value,
            to,
        } => case(ir, function, parts, depth, of, value, to),
        StepKind::Call {
            depth,
            function: callee,
            args,
        } => call(ir, function, parts, depth, callee, args),
        StepKind::Result { depth, kept } => keep_result(ir, function, parts, depth, kept),
        StepKind::Enter { params } => enter(ir, function, parts, params),
        StepKind::Return { depth, value } => return_value(ir, function, parts, depth, value),
        StepKind::ReturnNothing => framed(ir, function, parts, 2),
        StepKind::Turn => push(parts, service(3)),
        StepKind::Sense { depth, channel } => sense(ir, function, parts, depth, channel),
        StepKind::Emit { depth, value } => emit(ir, function, parts, depth, value),
        StepKind::Checkpoint { .. } => push(parts, service(14)),
        StepKind::Stamp {
            depth,
            global,
            target,
            kind,
            value,
        } => stamp(ir, function, parts, depth, global, target, kind, value),
        StepKind::Timely {
            depth,
            global,
            target,
            kind,
            limit,
            to,
        } => timely(ir, function, parts, depth, global, target, kind, limit, to),
        StepKind::Open { table, to } => block(ir, function, parts, 10, table, to),
        StepKind::Check { table, to } => block(ir, function, parts, 11, table, to),
        StepKind::Close { table, to } => block(ir, function, parts, 12, table, to),
    }
}

fn function_of(ir: &Ir, number: u16) -> Option<&IrFunction>
    ensures { option_copied result ≡ slice_get ir.now.functions number }
{
    ir.functions.as_slice().get(usize::from(number))
}

fn step_of(function: &IrFunction, number: u32) -> Option<&Step>
    ensures { option_copied result ≡ slice_get function.now.steps number }
{
    function.steps.as_slice().get(number as usize)
}

/// The items of the step at a place of a function, and none where no step is. What they are is defined in the
/// documentation of the board, with the labels that they use.
pub fn select(alloc: Global, ir: &Ir, function: u16, step: u32) -> Result<Vec<Item>, NoMemory>
    ensures { IfOk result (λ items. items.items ≡ items_at ir.now function step) }
{
    let Some(of) = function_of(ir, function) else {
        return Ok(Vec::new(alloc));
    };
    let Some(here) = step_of(of, step) else {
        return Ok(Vec::new(alloc));
    };
    let mut parts = Vec::new(alloc);
    push_code(ir, of, &mut parts, here.kind)?;
    items_of(alloc, function, step, parts.as_slice())
}
