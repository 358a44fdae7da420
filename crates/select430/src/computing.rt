//! What is computed of the values in registers.

ghost use Rattle.std.specs.Prelude.{◌≡◌, OnOk, [], ◌∷◌, pos, neg_ℤ, if◌then◌else◌};
ghost use Rattle.base16.specs.declared.operator.BinaryOp.TheVariants as op;
ghost use Rattle.ir.specs.Table as row;
ghost use Rattle.select430.specs.Adding.{Adds};
ghost use Rattle.select430.specs.Code as spec;

use crate::instrs::{
    against_zero, negate, push, set_word, truth_where, two, with_number, word, wrapped,
};
use crate::part::Part;
use base16::{BinaryOp, IntType, NoMemory, UnaryOp};
use ir::Operation;
use isa430::{Cond, TwoOp};
use rt430::Helper;

/// Whether a type has a sign.
fn is_signed(at: IntType) -> bool
    ensures { result ≡ spec.is_signed at }
{
    matches!(at, IntType::Int)
}

/// The flags by which two registers are compared.
fn flags(op: BinaryOp) -> Part
    ensures { result ≡ spec.flags op }
{
    match op {
        BinaryOp::Greater | BinaryOp::LessEq => two(TwoOp::Cmp, 12, 13),
        BinaryOp::Add
        | BinaryOp::Sub
        | BinaryOp::Mul
        | BinaryOp::Div
        | BinaryOp::Rem
        | BinaryOp::Shl
        | BinaryOp::Shr
        | BinaryOp::Less
        | BinaryOp::GreaterEq
        | BinaryOp::Equal
        | BinaryOp::NotEqual
        | BinaryOp::And
        | BinaryOp::Xor
        | BinaryOp::Or => two(TwoOp::Cmp, 13, 12),
    }
}

/// The condition in which a comparison comes out true then.
fn holds_where(op: BinaryOp, sign: bool) -> Cond
    ensures { result ≡ spec.holds_where op sign }
{
    match op {
        BinaryOp::Less | BinaryOp::Greater => { if sign { Cond::Less } else { Cond::Nc } }
        BinaryOp::LessEq | BinaryOp::GreaterEq => { if sign { Cond::Ge } else { Cond::C } }
        BinaryOp::NotEqual => Cond::Nz,
        BinaryOp::Add
        | BinaryOp::Sub
        | BinaryOp::Mul
        | BinaryOp::Div
        | BinaryOp::Rem
        | BinaryOp::Shl
        | BinaryOp::Shr
        | BinaryOp::Equal
        | BinaryOp::And
        | BinaryOp::Xor
        | BinaryOp::Or => Cond::Z,
    }
}

/// Adds a comparison of R12 and R13.
#[tactic(auto, using(crate::proofs::Adding::cons_added))]
fn compare(parts: &mut Vec<Part>, op: BinaryOp, sign: bool) -> Result<(), NoMemory>
    ensures { OnOk result (Adds parts.old.items parts.new.items (spec.compare op sign)) }
{
    push(parts, flags(op))?;
    truth_where(parts, holds_where(op, sign))
}

/// The routine of `/` at a type.
fn quotient(at: IntType) -> Part
    ensures { result ∷ [] ≡ spec.operate op.Div at }
{
    match at {
        IntType::Int => Part::Helps(Helper::Sdiv16),
        IntType::Char => Part::Helps(Helper::Udiv16),
        IntType::UInt => Part::Helps(Helper::Udiv16),
    }
}

/// The routine of `%` at a type.
fn remainder(at: IntType) -> Part
    ensures { result ∷ [] ≡ spec.operate op.Rem at }
{
    match at {
        IntType::Int => Part::Helps(Helper::Smod16),
        IntType::Char => Part::Helps(Helper::Umod16),
        IntType::UInt => Part::Helps(Helper::Umod16),
    }
}

/// The routine of `>>` at a type.
fn right_shift(at: IntType) -> Part
    ensures { result ∷ [] ≡ spec.operate op.Shr at }
{
    match at {
        IntType::Int => Part::Helps(Helper::Sar),
        IntType::Char => Part::Helps(Helper::Shr),
        IntType::UInt => Part::Helps(Helper::Shr),
    }
}

/// Adds an operator on R12 and R13.
fn operate(parts: &mut Vec<Part>, op: BinaryOp, at: IntType) -> Result<(), NoMemory>
    ensures { OnOk result (Adds parts.old.items parts.new.items (spec.operate op at)) }
{
    match op {
        BinaryOp::Add => push(parts, two(TwoOp::Add, 13, 12)),
        BinaryOp::Sub => push(parts, two(TwoOp::Sub, 13, 12)),
        BinaryOp::And => push(parts, two(TwoOp::And, 13, 12)),
        BinaryOp::Xor => push(parts, two(TwoOp::Xor, 13, 12)),
        BinaryOp::Or => push(parts, two(TwoOp::Bis, 13, 12)),
        BinaryOp::Mul => push(parts, Part::Helps(Helper::Mul16)),
        BinaryOp::Div => push(parts, quotient(at)),
        BinaryOp::Rem => push(parts, remainder(at)),
        BinaryOp::Shl => push(parts, Part::Helps(Helper::Shl)),
        BinaryOp::Shr => push(parts, right_shift(at)),
        BinaryOp::Less => compare(parts, BinaryOp::Less, is_signed(at)),
        BinaryOp::Greater => compare(parts, BinaryOp::Greater, is_signed(at)),
        BinaryOp::LessEq => compare(parts, BinaryOp::LessEq, is_signed(at)),
        BinaryOp::GreaterEq => compare(parts, BinaryOp::GreaterEq, is_signed(at)),
        BinaryOp::Equal => compare(parts, BinaryOp::Equal, is_signed(at)),
        BinaryOp::NotEqual => compare(parts, BinaryOp::NotEqual, is_signed(at)),
    }
}

fn negate_if(parts: &mut Vec<Part>, minus: bool) -> Result<(), NoMemory>
    ensures { OnOk result (Adds parts.old.items parts.new.items (if minus then spec.negated else [])) }
{
    if minus {
        negate(parts)?;
    }
    Ok(())
}

fn double(parts: &mut Vec<Part>, size: u32) -> Result<(), NoMemory>
    ensures { OnOk result (Adds parts.old.items parts.new.items (spec.doubled size)) }
{
    if size == 2 {
        push(parts, two(TwoOp::Add, 12, 12))?;
    }
    Ok(())
}

/// The bytes of an element, or the negative of them.
fn factor(minus: bool, size: u32) -> i64
    ensures { result ≡ spec.factor minus size }
{
    if minus {
        -i64::from(size)
    } else {
        i64::from(size)
    }
}

/// Adds what makes of R12, a number of elements, their bytes or the negative of them.
#[tactic(auto, using(crate::proofs::Adding::then_added, crate::proofs::Adding::cons_added))]
fn scale(parts: &mut Vec<Part>, minus: bool, size: u32) -> Result<(), NoMemory>
    ensures { OnOk result (Adds parts.old.items parts.new.items (spec.scaled minus size)) }
{
    if size == 1 || size == 2 {
        double(parts, size)?;
        negate_if(parts, minus)
    } else {
        push(parts, set_word(wrapped(factor(minus, size)), 13))?;
        push(parts, Part::Helps(Helper::Mul16))
    }
}

/// Adds the sum of a pointer in R15 and so many elements in R12, into R12.
#[tactic(auto, using(crate::proofs::Adding::then_added))]
pub fn shift_pointer(parts: &mut Vec<Part>, minus: bool, size: u32) -> Result<(), NoMemory>
    ensures { OnOk result (Adds parts.old.items parts.new.items (spec.moved minus size)) }
{
    scale(parts, minus, size)?;
    push(parts, two(TwoOp::Add, 15, 12))
}

/// Adds what makes of R12, a number of bytes, that of elements.
#[tactic(auto, using(crate::proofs::Adding::cons_added))]
fn count(parts: &mut Vec<Part>, size: u32) -> Result<(), NoMemory>
    ensures { OnOk result (Adds parts.old.items parts.new.items (spec.counted size)) }
{
    if size != 1 {
        push(parts, set_word(word(u64::from(size)), 13))?;
        push(parts, Part::Helps(Helper::Sdiv16))?;
    }
    Ok(())
}

/// The register in which an operation finds its left value.
pub fn left_register(operation: Operation) -> u8
    ensures { result ≡ spec.left_register operation }
{
    match operation {
        Operation::PointerPlus { swapped, .. } => { if swapped { 12 } else { 15 } }
        Operation::Integers { .. } => 12,
        Operation::Difference { .. } => 12,
        Operation::ComparePointers { .. } => 12,
    }
}

/// The register in which an operation finds its right value.
pub fn right_register(operation: Operation) -> u8
    ensures { result ≡ spec.right_register operation }
{
    match operation {
        Operation::PointerPlus { swapped, .. } => { if swapped { 15 } else { 12 } }
        Operation::Integers { .. } => 13,
        Operation::Difference { .. } => 13,
        Operation::ComparePointers { .. } => 13,
    }
}

/// Adds the difference of two pointers in elements.
#[tactic(auto, using(crate::proofs::Adding::cons_added))]
fn subtract(parts: &mut Vec<Part>, size: u32) -> Result<(), NoMemory>
    ensures { OnOk result (Adds parts.old.items parts.new.items (spec.two TwoOp.Sub 13 12 ∷ spec.counted size)) }
{
    push(parts, two(TwoOp::Sub, 13, 12))?;
    count(parts, size)
}

/// Adds an operation on the values in its registers, into R12.
pub fn perform(parts: &mut Vec<Part>, operation: Operation) -> Result<(), NoMemory>
    ensures { OnOk result (Adds parts.old.items parts.new.items (spec.perform operation)) }
{
    match operation {
        Operation::Integers { op, at, .. } => operate(parts, op, at),
        Operation::PointerPlus { minus, size, .. } => shift_pointer(parts, minus, size),
        Operation::Difference { size } => subtract(parts, size),
        Operation::ComparePointers { op } => compare(parts, op, false),
    }
}

/// Whether an operator compares.
fn is_comparison(op: BinaryOp) -> bool
    ensures { result ≡ row.is_comparison op }
{
    match op {
        BinaryOp::Less
        | BinaryOp::Greater
        | BinaryOp::LessEq
        | BinaryOp::GreaterEq
        | BinaryOp::Equal
        | BinaryOp::NotEqual => true,
        BinaryOp::Add
        | BinaryOp::Sub
        | BinaryOp::Mul
        | BinaryOp::Div
        | BinaryOp::Rem
        | BinaryOp::Shl
        | BinaryOp::Shr
        | BinaryOp::And
        | BinaryOp::Xor
        | BinaryOp::Or => false,
    }
}

#[tactic(auto, using(crate::proofs::Adding::then_added))]
fn test_integers(parts: &mut Vec<Part>, op: BinaryOp, at: IntType) -> Result<(), NoMemory>
    ensures { OnOk result (Adds parts.old.items parts.new.items (if row.is_comparison op then spec.flags op ∷ [] else spec.tested (spec.operate op at))) }
{
    if is_comparison(op) {
        push(parts, flags(op))
    } else {
        operate(parts, op, at)?;
        push(parts, against_zero())
    }
}

#[tactic(auto, using(crate::proofs::Adding::then_added))]
fn test_pointer(parts: &mut Vec<Part>, minus: bool, size: u32) -> Result<(), NoMemory>
    ensures { OnOk result (Adds parts.old.items parts.new.items (spec.tested (spec.moved minus size))) }
{
    shift_pointer(parts, minus, size)?;
    push(parts, against_zero())
}

#[tactic(auto, using(crate::proofs::Adding::then_added))]
fn test_difference(parts: &mut Vec<Part>, size: u32) -> Result<(), NoMemory>
    ensures { OnOk result (Adds parts.old.items parts.new.items (spec.tested (spec.two TwoOp.Sub 13 12 ∷ spec.counted size))) }
{
    subtract(parts, size)?;
    push(parts, against_zero())
}

/// Adds the flags by which an operation is tested.
pub fn test_flags(parts: &mut Vec<Part>, operation: Operation) -> Result<(), NoMemory>
    ensures { OnOk result (Adds parts.old.items parts.new.items (spec.test_flags operation)) }
{
    match operation {
        Operation::Integers { op, at, .. } => test_integers(parts, op, at),
        Operation::PointerPlus { minus, size, .. } => test_pointer(parts, minus, size),
        Operation::Difference { size } => test_difference(parts, size),
        Operation::ComparePointers { op } => push(parts, flags(op)),
    }
}

fn integers_where(op: BinaryOp, at: IntType) -> Cond
    ensures { result ≡ (if row.is_comparison op then spec.holds_where op (spec.is_signed at) else Cond.Nz) }
{
    if is_comparison(op) {
        holds_where(op, is_signed(at))
    } else {
        Cond::Nz
    }
}

/// The condition in which an operation that is tested comes out true.
pub fn test_where(operation: Operation) -> Cond
    ensures { result ≡ spec.test_where operation }
{
    match operation {
        Operation::Integers { op, at, .. } => integers_where(op, at),
        Operation::ComparePointers { op } => holds_where(op, false),
        Operation::PointerPlus { .. } => Cond::Nz,
        Operation::Difference { .. } => Cond::Nz,
    }
}

/// Adds a unary operator on R12.
#[tactic(auto, using(crate::proofs::Adding::cons_added))]
pub fn apply(parts: &mut Vec<Part>, op: UnaryOp) -> Result<(), NoMemory>
    ensures { OnOk result (Adds parts.old.items parts.new.items (spec.unary op)) }
{
    match op {
        UnaryOp::Plus => Ok(()),
        UnaryOp::Minus => negate(parts),
        UnaryOp::Complement => push(parts, with_number(TwoOp::Xor, -1, 12)),
        UnaryOp::Not => {
            push(parts, against_zero())?;
            truth_where(parts, Cond::Z)
        }
    }
}
