//! How values come into registers and become temporaries.

ghost use Rattle.std.specs.Prelude.{◌≡◌, ◌<◌, ◌≤◌, ◌+◌, ◌^◌, ◌++◌, OnOk, [], ◌∷◌, pos};
ghost use Rattle.ir.specs.Table as row;
ghost use Rattle.select430.specs.Adding.{Adds};
ghost use Rattle.select430.specs.Code as spec;

use crate::computing::{left_register, right_register};
use crate::frames::{global_at, local_at, temporary_at};
use crate::instrs::{narrow, push, read, set_word, two, with_number};
use crate::part::Part;
use base16::{IntType, Kind, NoMemory};
use ir::{Base, Ir, IrFunction, Keep, Operand, Operation, Target};
use isa430::{Dst, Instr, Src, TwoOp};

/// Adds what brings the temporary of a depth into a register.
pub fn bring_temporary(
    ir: &Ir,
    function: &IrFunction,
    parts: &mut Vec<Part>,
    depth: u64,
    register: u8,
) -> Result<(), NoMemory>
    requires { depth < 2 ^ 40 }
    ensures { OnOk result (Adds parts.old.items parts.new.items (spec.bring_temporary ir.now function.now depth register)) }
{
    push(
        parts,
        Part::Do(Instr::Two {
            op: TwoOp::Mov,
            byte: false,
            src: Src::Indexed(1, temporary_at(function, depth)),
            dst: Dst::Reg(register),
        }),
    )
}

/// Adds what makes a register the temporary of a depth.
pub fn keep(
    ir: &Ir,
    function: &IrFunction,
    parts: &mut Vec<Part>,
    depth: u64,
    register: u8,
) -> Result<(), NoMemory>
    requires { depth < 2 ^ 40 }
    ensures { OnOk result (Adds parts.old.items parts.new.items (spec.keep ir.now function.now depth register)) }
{
    push(
        parts,
        Part::Do(Instr::Two {
            op: TwoOp::Mov,
            byte: false,
            src: Src::Reg(register),
            dst: Dst::Indexed(1, temporary_at(function, depth)),
        }),
    )
}

/// Adds what makes R14 the address of the temporaries from a depth on.
#[tactic(auto, using(crate::proofs::Adding::cons_added))]
pub fn arguments(
    ir: &Ir,
    function: &IrFunction,
    parts: &mut Vec<Part>,
    depth: u64,
) -> Result<(), NoMemory>
    requires { depth < 2 ^ 40 }
    ensures { OnOk result (Adds parts.old.items parts.new.items (spec.arguments ir.now function.now depth)) }
{
    push(parts, two(TwoOp::Mov, 1, 14))?;
    push(
        parts,
        with_number(TwoOp::Add, i64::from(temporary_at(function, depth)), 14),
    )
}

/// A scalar as a source.
fn scalar(ir: &Ir, function: &IrFunction, of: Base, offset: u16) -> Src
    ensures { result ≡ spec.scalar ir.now function.now of offset }
{
    match of {
        Base::Local(number) => Src::Indexed(1, local_at(function, number, offset)),
        Base::Global(number) => Src::Absolute(global_at(ir, number, offset)),
    }
}

/// Adds what brings a value into a register.
pub fn bring(
    ir: &Ir,
    function: &IrFunction,
    parts: &mut Vec<Part>,
    value: Operand,
    depth: u64,
    register: u8,
) -> Result<(), NoMemory>
    requires { depth < 2 ^ 40 }
    ensures { OnOk result (Adds parts.old.items parts.new.items (spec.bring ir.now function.now value depth register)) }
{
    match value {
        Operand::Temporary => bring_temporary(ir, function, parts, depth, register),
        Operand::Constant(number) => push(parts, with_number(TwoOp::Mov, number, register)),
        Operand::Null => push(parts, set_word(0, register)),
        Operand::Scalar { of, offset, kind } => {
            push(
                parts,
                read(kind, scalar(ir, function, of, offset), register),
            )
        }
    }
}

/// Adds what makes a value that is none the temporary of a depth.
#[tactic(auto, using(crate::proofs::Adding::then_added))]
fn bring_and_keep(
    ir: &Ir,
    function: &IrFunction,
    parts: &mut Vec<Part>,
    value: Operand,
    depth: u64,
) -> Result<(), NoMemory>
    requires { depth < 2 ^ 40 }
    ensures { OnOk result (Adds parts.old.items parts.new.items (spec.bring ir.now function.now value depth 12 ++ spec.keep ir.now function.now depth 12)) }
{
    bring(ir, function, parts, value, depth, 12)?;
    keep(ir, function, parts, depth, 12)
}

/// Adds what makes a value the temporary of a depth; a temporary is there already.
pub fn put(
    ir: &Ir,
    function: &IrFunction,
    parts: &mut Vec<Part>,
    value: Operand,
    depth: u64,
) -> Result<(), NoMemory>
    requires { depth < 2 ^ 40 }
    ensures { OnOk result (Adds parts.old.items parts.new.items (spec.put ir.now function.now value depth)) }
{
    match value {
        Operand::Temporary => Ok(()),
        Operand::Constant(number) => {
            bring_and_keep(ir, function, parts, Operand::Constant(number), depth)
        }
        Operand::Null => bring_and_keep(ir, function, parts, Operand::Null, depth),
        Operand::Scalar { of, offset, kind } => bring_and_keep(
            ir,
            function,
            parts,
            Operand::Scalar { of, offset, kind },
            depth,
        ),
    }
}

/// Adds what brings the address of a scalar into a register.
#[tactic(auto, using(crate::proofs::Adding::cons_added))]
pub fn address(
    ir: &Ir,
    function: &IrFunction,
    parts: &mut Vec<Part>,
    of: Base,
    offset: u16,
    register: u8,
) -> Result<(), NoMemory>
    ensures { OnOk result (Adds parts.old.items parts.new.items (spec.address ir.now function.now of offset register)) }
{
    match of {
        Base::Local(number) => {
            push(parts, two(TwoOp::Mov, 1, register))?;
            let at = i64::from(local_at(function, number, offset));
            push(parts, with_number(TwoOp::Add, at, register))
        }
        Base::Global(number) => push(parts, set_word(global_at(ir, number, offset), register)),
    }
}

/// Adds what brings the address of a target into a register.
pub fn bring_target(
    ir: &Ir,
    function: &IrFunction,
    parts: &mut Vec<Part>,
    to: Target,
    depth: u64,
    register: u8,
) -> Result<(), NoMemory>
    requires { depth < 2 ^ 40 }
    ensures { OnOk result (Adds parts.old.items parts.new.items (spec.bring_target ir.now function.now to depth register)) }
{
    match to {
        Target::Temporary => bring_temporary(ir, function, parts, depth, register),
        Target::Known { of, offset } => address(ir, function, parts, of, offset, register),
    }
}

/// How many temporaries a value takes.
pub fn taken(value: Operand) -> u64
    ensures value { result ≡ row.taken value }
    ensures range { result ≤ 1 }
{
    match value {
        Operand::Temporary => 1,
        Operand::Constant(_) => 0,
        Operand::Null => 0,
        Operand::Scalar { .. } => 0,
    }
}

/// How many temporaries a target takes.
pub fn target_taken(to: Target) -> u64
    ensures value { result ≡ row.target_taken to }
    ensures range { result ≤ 1 }
{
    match to {
        Target::Temporary => 1,
        Target::Known { .. } => 0,
    }
}

/// How many temporaries are kept from before a store.
pub fn before_taken(keeps: Keep) -> u64
    ensures value { result ≡ row.before_taken keeps }
    ensures range { result ≤ 1 }
{
    match keeps {
        Keep::Before => 1,
        Keep::Nothing => 0,
        Keep::Stored => 0,
    }
}

/// Adds what brings two values where an operation finds them.
#[tactic(auto, using(crate::proofs::Adding::then_added))]
pub fn bring_both(
    ir: &Ir,
    function: &IrFunction,
    parts: &mut Vec<Part>,
    operation: Operation,
    left: Operand,
    right: Operand,
    depth: u64,
) -> Result<(), NoMemory>
    requires { depth < 2 ^ 39 }
    ensures { OnOk result (Adds parts.old.items parts.new.items (spec.bring_both ir.now function.now operation left right depth)) }
{
    bring(ir, function, parts, left, depth, left_register(operation))?;
    let above = depth + taken(left);
    bring(ir, function, parts, right, above, right_register(operation))
}

/// Adds what makes of R12 what a `char` holds of it, and a temporary.
#[tactic(auto, using(crate::proofs::Adding::then_added))]
pub fn keep_narrow(
    ir: &Ir,
    function: &IrFunction,
    parts: &mut Vec<Part>,
    kind: Kind,
    depth: u64,
    register: u8,
) -> Result<(), NoMemory>
    requires { depth < 2 ^ 40 }
    ensures { OnOk result (Adds parts.old.items parts.new.items (spec.narrowed kind register ++ spec.keep ir.now function.now depth register)) }
{
    narrow(parts, kind, register)?;
    keep(ir, function, parts, depth, register)
}

#[tactic(auto, using(crate::proofs::Adding::then_added))]
fn keep_lower(
    ir: &Ir,
    function: &IrFunction,
    parts: &mut Vec<Part>,
    depth: u64,
) -> Result<(), NoMemory>
    requires { depth < 2 ^ 39 }
    ensures { OnOk result (Adds parts.old.items parts.new.items (spec.bring_temporary ir.now function.now (depth + 1) 12 ++ spec.keep ir.now function.now depth 12)) }
{
    bring_temporary(ir, function, parts, depth + 1, 12)?;
    keep(ir, function, parts, depth, 12)
}

/// Adds what makes the value from before the temporary of a depth.
fn keep_before(
    ir: &Ir,
    function: &IrFunction,
    parts: &mut Vec<Part>,
    to: Target,
    depth: u64,
) -> Result<(), NoMemory>
    requires { depth < 2 ^ 39 }
    ensures { OnOk result (Adds parts.old.items parts.new.items (spec.keep_before ir.now function.now to depth)) }
{
    match to {
        Target::Temporary => keep_lower(ir, function, parts, depth),
        Target::Known { .. } => Ok(()),
    }
}

/// Adds what a store leaves.
pub fn keep_stored(
    ir: &Ir,
    function: &IrFunction,
    parts: &mut Vec<Part>,
    keeps: Keep,
    kind: Kind,
    to: Target,
    depth: u64,
    register: u8,
) -> Result<(), NoMemory>
    requires { depth < 2 ^ 39 }
    ensures { OnOk result (Adds parts.old.items parts.new.items (spec.kept ir.now function.now keeps kind to depth register)) }
{
    match keeps {
        Keep::Nothing => Ok(()),
        Keep::Stored => keep_narrow(ir, function, parts, kind, depth, register),
        Keep::Before => keep_before(ir, function, parts, to, depth),
    }
}

/// Adds what saves the value from before an update.
pub fn save(
    ir: &Ir,
    function: &IrFunction,
    parts: &mut Vec<Part>,
    keeps: Keep,
    register: u8,
) -> Result<(), NoMemory>
    ensures { OnOk result (Adds parts.old.items parts.new.items (spec.saved ir.now function.now keeps register)) }
{
    match keeps {
        Keep::Before => push(parts, two(TwoOp::Mov, register, 10)),
        Keep::Nothing => Ok(()),
        Keep::Stored => Ok(()),
    }
}

/// Adds what an update leaves.
pub fn keep_updated(
    ir: &Ir,
    function: &IrFunction,
    parts: &mut Vec<Part>,
    keeps: Keep,
    kind: Kind,
    depth: u64,
    register: u8,
) -> Result<(), NoMemory>
    requires { depth < 2 ^ 40 }
    ensures { OnOk result (Adds parts.old.items parts.new.items (spec.kept_update ir.now function.now keeps kind depth register)) }
{
    match keeps {
        Keep::Nothing => Ok(()),
        Keep::Stored => keep_narrow(ir, function, parts, kind, depth, register),
        Keep::Before => keep(ir, function, parts, depth, 10),
    }
}

#[tactic(auto, using(crate::proofs::Adding::then_added))]
fn convert_to_char(
    ir: &Ir,
    function: &IrFunction,
    parts: &mut Vec<Part>,
    value: Operand,
    depth: u64,
) -> Result<(), NoMemory>
    requires { depth < 2 ^ 40 }
    ensures { OnOk result (Adds parts.old.items parts.new.items (spec.bring ir.now function.now value depth 12 ++ (spec.narrowed Kind.Char 12 ++ spec.keep ir.now function.now depth 12))) }
{
    bring(ir, function, parts, value, depth, 12)?;
    keep_narrow(ir, function, parts, Kind::Char, depth, 12)
}

/// Adds what converts a value.
pub fn convert(
    ir: &Ir,
    function: &IrFunction,
    parts: &mut Vec<Part>,
    to: IntType,
    value: Operand,
    depth: u64,
) -> Result<(), NoMemory>
    requires { depth < 2 ^ 40 }
    ensures { OnOk result (Adds parts.old.items parts.new.items (spec.convert ir.now function.now to value depth)) }
{
    match to {
        IntType::Char => convert_to_char(ir, function, parts, value, depth),
        IntType::Int => put(ir, function, parts, value, depth),
        IntType::UInt => put(ir, function, parts, value, depth),
    }
}
