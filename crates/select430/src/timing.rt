//! The code of steps that call services: frames, inputs and outputs, time.

ghost use Rattle.std.specs.Prelude.{◌≡◌, ◌<◌, ◌≤◌, ◌^◌, ◌+◌, ◌*◌, ◌++◌, OnOk, [], ◌∷◌, pos, if◌then◌else◌, take, length, slice_get};
ghost use Rattle.std.specs.Option.{option_copied};
ghost use Rattle.ir.specs.Machine as machine;
ghost use Rattle.ir.specs.declared.form.StepKind.TheVariants as step;
ghost use Rattle.select430.specs.Adding.{Adds};
ghost use Rattle.select430.specs.Code as spec;
ghost use Rattle.select430.specs.Frames as frame;

use crate::frames::{global_at, stamp_at};
use crate::instrs::{against_zero, is_char, push, service, set_word, two, with_number, word};
use crate::operands::{bring, bring_target, bring_temporary, keep, target_taken};
use crate::part::Part;
use base16::{Kind, NoMemory, Sequence};
use c_run::Timed;
use ir::{Ir, IrFunction, IrLocal, IrScalar, Operand, Target};
use isa430::{Cond, Dst, Instr, Src, TwoOp};

/// Adds a service that is told the bytes of the frame.
#[tactic(auto, using(crate::proofs::Adding::cons_added))]
pub fn framed(
    ir: &Ir,
    function: &IrFunction,
    parts: &mut Vec<Part>,
    number: u16,
) -> Result<(), NoMemory>
    requires { number < 32 }
    ensures { OnOk result (Adds parts.old.items parts.new.items (spec.framed ir.now function.now number)) }
{
    push(parts, set_word(word(u64::from(function.frame)), 15))?;
    push(parts, service(number))
}

fn first_kind(scalars: &[IrScalar]) -> Kind
    ensures { result ≡ machine.first_kind scalars.now }
{
    match scalars.first() {
        None => Kind::Int,
        Some(scalar) => scalar.kind,
    }
}

/// The copy of an argument to a parameter.
fn copy(local: &IrLocal, number: u32) -> Part
    ensures { result ≡ spec.copy local.now number }
{
    Part::Do(Instr::Two {
        op: TwoOp::Mov,
        byte: is_char(first_kind(local.scalars.as_slice())),
        src: Src::Indexed(14, word(2 * u64::from(number))),
        dst: Dst::Indexed(1, word(u64::from(local.offset))),
    })
}

/// Adds the return with a value.
#[tactic(auto, using(crate::proofs::Adding::then_added))]
pub fn return_value(
    ir: &Ir,
    function: &IrFunction,
    parts: &mut Vec<Part>,
    depth: u32,
    value: Operand,
) -> Result<(), NoMemory>
    ensures { OnOk result (Adds parts.old.items parts.new.items (spec.code_of_step ir.now function.now (step.Return depth value))) }
{
    bring(ir, function, parts, value, u64::from(depth), 12)?;
    framed(ir, function, parts, 2)
}

/// Adds the reading of a channel.
#[tactic(auto, using(crate::proofs::Adding::cons_added))]
pub fn sense(
    ir: &Ir,
    function: &IrFunction,
    parts: &mut Vec<Part>,
    depth: u32,
    channel: u8,
) -> Result<(), NoMemory>
    ensures { OnOk result (Adds parts.old.items parts.new.items (spec.code_of_step ir.now function.now (step.Sense depth channel))) }
{
    push(parts, set_word(u16::from(channel), 15))?;
    push(parts, service(8))?;
    keep(ir, function, parts, u64::from(depth), 12)
}

/// Adds an output.
#[tactic(auto, using(crate::proofs::Adding::then_added))]
pub fn emit(
    ir: &Ir,
    function: &IrFunction,
    parts: &mut Vec<Part>,
    depth: u32,
    value: Operand,
) -> Result<(), NoMemory>
    ensures { OnOk result (Adds parts.old.items parts.new.items (spec.code_of_step ir.now function.now (step.Emit depth value))) }
{
    bring(ir, function, parts, value, u64::from(depth), 13)?;
    push(parts, service(9))
}

fn double_char(parts: &mut Vec<Part>, kind: Kind, register: u8) -> Result<(), NoMemory>
    ensures { OnOk result (Adds parts.old.items parts.new.items (if spec.is_char kind then spec.two TwoOp.Add register register ∷ [] else [])) }
{
    if is_char(kind) {
        push(parts, two(TwoOp::Add, register, register))?;
    }
    Ok(())
}

/// Adds what makes of the address of a scalar in a register that of its stamp.
#[tactic(auto, using(crate::proofs::Adding::then_added, crate::proofs::Adding::cons_added))]
fn to_stamp(
    ir: &Ir,
    function: &IrFunction,
    parts: &mut Vec<Part>,
    global: u32,
    kind: Kind,
    register: u8,
) -> Result<(), NoMemory>
    ensures { OnOk result (Adds parts.old.items parts.new.items (spec.to_stamp ir.now function.now global kind register)) }
{
    let begin = i64::from(global_at(ir, global, 0));
    push(parts, with_number(TwoOp::Sub, begin, register))?;
    push(parts, two(TwoOp::Add, register, register))?;
    double_char(parts, kind, register)?;
    let stamps = i64::from(stamp_at(ir, global, 0));
    push(parts, with_number(TwoOp::Add, stamps, register))
}

/// Adds what brings the address of the stamp of what is stored to into R15.
#[tactic(auto, using(crate::proofs::Adding::cons_added))]
fn stamp_of(
    ir: &Ir,
    function: &IrFunction,
    parts: &mut Vec<Part>,
    global: u32,
    to: Target,
    kind: Kind,
) -> Result<(), NoMemory>
    ensures { OnOk result (Adds parts.old.items parts.new.items (spec.stamp_of ir.now function.now global to kind)) }
{
    match to {
        Target::Temporary => {
            push(parts, two(TwoOp::Mov, 14, 15))?;
            to_stamp(ir, function, parts, global, kind, 15)
        }
        Target::Known { offset, .. } => push(parts, set_word(stamp_at(ir, global, offset), 15)),
    }
}

/// Adds what brings the address of the stamp of what is asked for into R14.
#[tactic(auto, using(crate::proofs::Adding::then_added))]
fn asked_stamp(
    ir: &Ir,
    function: &IrFunction,
    parts: &mut Vec<Part>,
    global: u32,
    from: Target,
    kind: Kind,
    depth: u64,
) -> Result<(), NoMemory>
    requires { depth < 2 ^ 40 }
    ensures { OnOk result (Adds parts.old.items parts.new.items (spec.asked_stamp ir.now function.now global from kind depth)) }
{
    match from {
        Target::Temporary => {
            bring_temporary(ir, function, parts, depth, 14)?;
            to_stamp(ir, function, parts, global, kind, 14)
        }
        Target::Known { offset, .. } => push(parts, set_word(stamp_at(ir, global, offset), 14)),
    }
}

fn stamp_service(kind: Kind) -> u16
    ensures value { result ≡ spec.stamp_service kind }
    ensures range { result < 32 }
{
    if is_char(kind) { 7 } else { 6 }
}

/// Adds a store with a stamp.
#[tactic(auto, using(crate::proofs::Adding::then_added))]
pub fn stamp(
    ir: &Ir,
    function: &IrFunction,
    parts: &mut Vec<Part>,
    depth: u32,
    global: u32,
    to: Target,
    kind: Kind,
    value: Operand,
) -> Result<(), NoMemory>
    ensures { OnOk result (Adds parts.old.items parts.new.items (spec.code_of_step ir.now function.now (step.Stamp depth global to kind value))) }
{
    let at = u64::from(depth);
    bring_target(ir, function, parts, to, at, 14)?;
    bring(ir, function, parts, value, at + target_taken(to), 13)?;
    stamp_of(ir, function, parts, global, to, kind)?;
    push(parts, service(stamp_service(kind)))
}

/// Adds a jump where R12 is 0.
#[tactic(auto, using(crate::proofs::Adding::cons_added))]
fn go_where_zero(parts: &mut Vec<Part>, to: u32) -> Result<(), NoMemory>
    ensures { OnOk result (Adds parts.old.items parts.new.items (spec.go_where_zero to)) }
{
    push(parts, against_zero())?;
    push(parts, Part::GoUnless(Cond::Nz, to))
}

/// Adds a test of an age.
#[tactic(auto, using(crate::proofs::Adding::then_added, crate::proofs::Adding::cons_added))]
pub fn timely(
    ir: &Ir,
    function: &IrFunction,
    parts: &mut Vec<Part>,
    depth: u32,
    global: u32,
    from: Target,
    kind: Kind,
    limit: u64,
    to: u32,
) -> Result<(), NoMemory>
    ensures { OnOk result (Adds parts.old.items parts.new.items (spec.code_of_step ir.now function.now (step.Timely depth global from kind limit to))) }
{
    asked_stamp(ir, function, parts, global, from, kind, u64::from(depth))?;
    push(parts, set_word(word(limit), 13))?;
    push(parts, set_word(word(limit / 65536), 15))?;
    push(parts, service(13))?;
    go_where_zero(parts, to)
}

/// Adds the copies of the first locals.
fn copies(ir: &Ir, function: &IrFunction, parts: &mut Vec<Part>, count: u16) -> Result<(), NoMemory>
    ensures { OnOk result (Adds parts.old.items parts.new.items (spec.copies ir.now function.now 0 (take count function.now.locals))) }
{
    let mut number: u32 = 0;
    let mut left = count;
    for local in function.locals.as_slice() {
        if left == 0 {
            return Ok(());
        }
        parts.push(copy(local, number))?;
        number += 1;
        left -= 1;
    }
    Ok(())
}

/// Adds the entry of a function.
#[tactic(auto, using(crate::proofs::Adding::then_added))]
pub fn enter(
    ir: &Ir,
    function: &IrFunction,
    parts: &mut Vec<Part>,
    params: u16,
) -> Result<(), NoMemory>
    ensures { OnOk result (Adds parts.old.items parts.new.items (spec.code_of_step ir.now function.now (step.Enter params))) }
{
    framed(ir, function, parts, 1)?;
    copies(ir, function, parts, params)
}

fn table_of(ir: &Ir, table: u32) -> Option<&Sequence<Timed>>
    ensures { option_copied result ≡ slice_get ir.now.tables table }
{
    ir.tables.as_slice().get(table as usize)
}

/// The number of rows of a check table, as a word.
fn rows(ir: &Ir, function: &IrFunction, table: u32) -> u16
    ensures { result ≡ frame.word (spec.rows_or ir.now function.now (slice_get ir.now.tables table)) }
{
    match table_of(ir, table) {
        None => 0,
        Some(names) => word(names.len() as u64),
    }
}

/// Adds a service of a block.
#[tactic(auto, using(crate::proofs::Adding::cons_added))]
pub fn block(
    ir: &Ir,
    function: &IrFunction,
    parts: &mut Vec<Part>,
    number: u16,
    table: u32,
    to: u32,
) -> Result<(), NoMemory>
    requires { number < 32 }
    ensures { OnOk result (Adds parts.old.items parts.new.items (spec.block ir.now function.now number table to)) }
{
    push(parts, Part::Names(table, 14))?;
    push(parts, set_word(rows(ir, function, table), 15))?;
    push(parts, service(number))?;
    go_where_zero(parts, to)
}
