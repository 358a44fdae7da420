ghost use Rattle.std.specs.Prelude.{◌≡◌, ◌≤ℤ◌, ◌<◌, ◌%◌, ℕ, Some, None, true, pos, negsuc};
ghost use Rattle.core430.specs.Registers.{view_of};
ghost use Rattle.core430.specs.Status.{carry_of};
ghost use Rattle.core430.specs.Arithmetic.{span_of, sum_of, sum_status as sum_status_of, difference_of, difference_status as difference_status_of, logic_status as logic_status_of, shifted, shift_status as shift_status_of};
ghost use Rattle.core430.specs.Operands.{raised};
ghost use Rattle.core430.specs.Instructions.{two_result, two_status, is_kept as is_kept_of, one_result, one_status, deliver as deliver_of, switches_off as switches_off_of, settle as settle_of, lowered, push_effect, call_effect, two_effect, change_effect, one_effect, is_taken as is_taken_of, jump_target, effect_of};
ghost use Rattle.core430.specs.Conditions.{HasWidth, HasSource, HasDestination, IsInside, IsReachable, IsEvenStore};
ghost use Rattle.core430.specs.Shown.{effect_shown};

use crate::arithmetic::{
    complement, difference, difference_status, extended, is_negative, logic_status, shift,
    shift_status, sum, sum_status, swapped,
};
use crate::change::Change;
use crate::memory::Memory;
use crate::operand::{
    Place, destination_place, odd_access, raise, source_place, value, with_byte, word_address,
};
use crate::registers::{flag, set, write};
use crate::status::{carry, negative, off, overflow, zero};
use base16::Regs;
use isa430::{Cond, Dst, Instr, OneOp, Src, TwoOp};

/// A result, and the status that its instruction leaves if the flags change.
#[derive(Clone, Copy, Debug, PartialEq, Eq)]
struct Answer {
    result_value: u16,
    status: Option<u16>,
}

/// The sum of the operands and a carry.
#[inline(always)]
fn added(byte: bool, status: u16, c: bool, d: u16, s: u16) -> Answer
    requires destination { d < span_of byte }
    requires source { s < span_of byte }
    ensures value { result.result_value ≡ sum_of byte c d s }
    ensures status { result.status ≡ Some (sum_status_of byte status c d s) }
    ensures small { result.result_value < span_of byte }
{
    Answer {
        result_value: sum(byte, c, d, s),
        status: Some(sum_status(byte, status, c, d, s)),
    }
}

/// The difference of the operands and a borrow.
#[inline(always)]
fn subtracted(byte: bool, status: u16, b: bool, d: u16, s: u16) -> Answer
    requires destination { d < span_of byte }
    requires source { s < span_of byte }
    ensures value { result.result_value ≡ difference_of byte b d s }
    ensures status { result.status ≡ Some (difference_status_of byte status b d s) }
    ensures small { result.result_value < span_of byte }
{
    Answer {
        result_value: difference(byte, b, d, s),
        status: Some(difference_status(byte, status, b, d, s)),
    }
}

/// A result that changes no flag.
#[inline(always)]
fn plain(value: u16) -> Answer
    ensures value { result.result_value ≡ value }
    ensures status { result.status ≡ None }
{
    Answer {
        result_value: value,
        status: None,
    }
}

/// A result of bits, with its flags.
#[inline(always)]
fn logic(byte: bool, status: u16, value: u16, v: bool) -> Answer
    ensures value { result.result_value ≡ value }
    ensures status { result.status ≡ Some (logic_status_of byte status value v) }
{
    Answer {
        result_value: value,
        status: Some(logic_status(byte, status, value, v)),
    }
}

/// What an operator of two operands gives.
#[tactic(auto, using(crate::proofs::Widths::and_fits, crate::proofs::Widths::or_fits, crate::proofs::Widths::xor_fits))]
#[inline(always)]
fn two_answer(op: TwoOp, byte: bool, status: u16, d: u16, s: u16) -> Answer
    requires destination { d < span_of byte }
    requires source { s < span_of byte }
    ensures value { result.result_value ≡ two_result op byte (carry_of status) d s }
    ensures status { result.status ≡ two_status op byte status d s }
    ensures small { result.result_value < span_of byte }
{
    match op {
        TwoOp::Mov => plain(s),
        TwoOp::Add => added(byte, status, false, d, s),
        TwoOp::Addc => added(byte, status, carry(status), d, s),
        TwoOp::Subc => subtracted(byte, status, !carry(status), d, s),
        TwoOp::Sub | TwoOp::Cmp => subtracted(byte, status, false, d, s),
        TwoOp::Bit | TwoOp::And => logic(byte, status, d & s, false),
        TwoOp::Bic => plain(d & complement(byte, s)),
        TwoOp::Bis => plain(d | s),
        TwoOp::Xor => logic(
            byte,
            status,
            d ^ s,
            is_negative(byte, d) && is_negative(byte, s),
        ),
    }
}

/// Whether the result of an operator is kept: CMP and BIT set the flags alone.
#[inline(always)]
fn is_kept(op: TwoOp) -> bool
    ensures { result ≡ is_kept_of op }
{
    !matches!(op, TwoOp::Cmp | TwoOp::Bit)
}

/// A shift by one place to the right.
#[inline(always)]
fn shifted_answer(byte: bool, status: u16, top: bool, v: u16) -> Answer
    requires { v < span_of byte }
    ensures value { result.result_value ≡ shifted byte top v }
    ensures status { result.status ≡ Some (shift_status_of byte status v (shifted byte top v)) }
    ensures small { result.result_value < span_of byte }
{
    let value = shift(byte, top, v);
    Answer {
        result_value: value,
        status: Some(shift_status(byte, status, v, value)),
    }
}

/// What an operator of one operand gives.
#[inline(always)]
fn one_answer(op: OneOp, byte: bool, status: u16, v: u16) -> Answer
    requires width { HasWidth op byte }
    requires operand { v < span_of byte }
    ensures value { result.result_value ≡ one_result op byte (carry_of status) v }
    ensures status { result.status ≡ one_status op byte status v }
    ensures small { result.result_value < span_of byte }
{
    match op {
        OneOp::Rrc => shifted_answer(byte, status, carry(status), v),
        OneOp::Swpb => plain(swapped(v)),
        OneOp::Rra => shifted_answer(byte, status, is_negative(byte, v), v),
        OneOp::Sxt => logic(byte, status, extended(v), false),
        OneOp::Push | OneOp::Call => plain(v),
    }
}

/// A byte that is written to memory with its word.
#[inline(always)]
fn byte_stored<M: Memory>(memory: &M, address: u16, byte: u16) -> Change
    requires { byte < 256 }
    ensures value { (r : ℕ → ℕ) → effect_shown result r ≡ deliver_of true r (M.words memory.now) (Place.InMemory address) byte }
    ensures even { IsEvenStore result }
{
    let even = word_address(address);
    Change::Stores {
        address: even,
        word: with_byte(address, memory.get(even), byte),
    }
}

/// Sends a result to its place.
#[inline(always)]
fn deliver<M: Memory>(regs: &mut Regs, memory: &M, byte: bool, place: Place, v: u16) -> Change
    requires inside { IsInside place }
    requires reachable { IsReachable byte place }
    requires small { v < span_of byte }
    ensures value { effect_shown result (view_of regs.new.r) ≡ deliver_of byte (view_of regs.old.r) (M.words memory.now) place v }
    ensures even { IsEvenStore result }
{
    match place {
        Place::InRegister(n) => {
            write(regs, n, v);
            Change::Sets
        }
        Place::InMemory(address) => {
            if byte {
                byte_stored(memory, address, v)
            } else {
                Change::Stores { address, word: v }
            }
        }
        Place::Given(_) => Change::Sets,
    }
}

/// Whether a word with CPUOFF would go to the status register.
#[inline(always)]
fn switches_off(place: Place, v: u16) -> bool
    ensures { result ≡ switches_off_of place v }
{
    match place {
        Place::InRegister(n) => n == 2 && off(v),
        _ => false,
    }
}

/// Sends a result to its place, which may not switch the core off; pc is the address of the instruction.
#[inline(always)]
fn settle<M: Memory>(
    regs: &mut Regs,
    memory: &M,
    byte: bool,
    pc: u16,
    place: Place,
    v: u16,
) -> Change
    requires inside { IsInside place }
    requires reachable { IsReachable byte place }
    requires small { v < span_of byte }
    ensures value { effect_shown result (view_of regs.new.r) ≡ settle_of byte pc (view_of regs.old.r) (M.words memory.now) place v }
    ensures even { IsEvenStore result }
{
    if switches_off(place, v) {
        Change::Faults(pc)
    } else {
        deliver(regs, memory, byte, place, v)
    }
}

/// SP less 2.
#[inline(always)]
fn lowered_stack(regs: &Regs) -> u16
    ensures { result ≡ lowered (view_of regs.now.r 1) }
{
    regs.r[1].wrapping_sub(2)
}

/// Lowers SP by 2 and writes a word there.
#[inline(always)]
fn push(regs: &mut Regs, word: u16) -> Change
    ensures value { effect_shown result (view_of regs.new.r) ≡ push_effect (view_of regs.old.r) word }
    ensures even { IsEvenStore result }
{
    let address = lowered_stack(regs);
    if address % 2 != 0 {
        return Change::Faults(address);
    }
    set(regs, 1, address);
    Change::Stores { address, word }
}

/// Lowers SP by 2, writes PC there, which is the address after the CALL, and sets PC.
#[inline(always)]
fn call(regs: &mut Regs, target: u16) -> Change
    ensures value { effect_shown result (view_of regs.new.r) ≡ call_effect (view_of regs.old.r) target }
    ensures even { IsEvenStore result }
{
    let address = lowered_stack(regs);
    if address % 2 != 0 {
        return Change::Faults(address);
    }
    let word = regs.r[0];
    set(regs, 1, address);
    set(regs, 0, target);
    Change::Stores { address, word }
}

/// Whether a jump is taken.
#[inline(always)]
fn is_taken(cond: Cond, status: u16) -> bool
    ensures { result ≡ is_taken_of cond status }
{
    match cond {
        Cond::Nz => !zero(status),
        Cond::Z => zero(status),
        Cond::Nc => !carry(status),
        Cond::C => carry(status),
        Cond::N => negative(status),
        Cond::Ge => negative(status) == overflow(status),
        Cond::Less => negative(status) != overflow(status),
        Cond::Always => true,
    }
}

/// Where a jump goes from the instruction after it.
#[inline(always)]
fn target(next: u16, offset: i16) -> u16
    requires low { negsuc 511 ≤ℤ offset }
    requires high { offset ≤ℤ pos 511 }
    ensures { result ≡ jump_target next offset }
{
    if offset >= 0 {
        next.wrapping_add(2 * offset as u16)
    } else {
        next.wrapping_sub(2 * offset.unsigned_abs())
    }
}

/// A jump.
#[inline(always)]
pub fn jump(cond: Cond, offset: i16, pc: u16, regs: &mut Regs) -> Change
    requires low { negsuc 511 ≤ℤ offset }
    requires high { offset ≤ℤ pos 511 }
    ensures value { (m : ℕ → ℕ) → effect_shown result (view_of regs.new.r) ≡ effect_of pc (Instr.Jump cond offset) (view_of regs.old.r) m }
    ensures even { IsEvenStore result }
{
    if is_taken(cond, regs.r[2]) {
        let to = target(regs.r[0], offset);
        set(regs, 0, to);
    }
    Change::Sets
}

/// An instruction of two operands of a width.
#[inline(always)]
fn two_of_width<M: Memory>(
    op: TwoOp,
    byte: bool,
    src: Src,
    dst: Dst,
    pc: u16,
    regs: &mut Regs,
    memory: &M,
) -> Change
    requires source { HasSource src }
    requires destination { HasDestination dst }
    ensures value { effect_shown result (view_of regs.new.r) ≡ effect_of pc (Instr.Two op byte src dst) (view_of regs.old.r) (M.words memory.now) }
    ensures even { IsEvenStore result }
{
    let from = source_place(regs, src);
    let to = destination_place(regs, dst);
    if let Some(address) = odd_access(byte, from) {
        return Change::Faults(address);
    }
    if let Some(address) = odd_access(byte, to) {
        return Change::Faults(address);
    }
    let s = value(regs, memory, byte, from);
    let d = value(regs, memory, byte, to);
    let answer = two_answer(op, byte, regs.r[2], d, s);
    raise(regs, byte, src);
    flag(regs, answer.status);
    if is_kept(op) {
        settle(regs, memory, byte, pc, to, answer.result_value)
    } else {
        Change::Sets
    }
}

/// An instruction of two operands.
#[inline(always)]
pub fn two<M: Memory>(
    op: TwoOp,
    byte: bool,
    src: Src,
    dst: Dst,
    pc: u16,
    regs: &mut Regs,
    memory: &M,
) -> Change
    requires source { HasSource src }
    requires destination { HasDestination dst }
    ensures value { effect_shown result (view_of regs.new.r) ≡ effect_of pc (Instr.Two op byte src dst) (view_of regs.old.r) (M.words memory.now) }
    ensures even { IsEvenStore result }
{
    if byte {
        two_of_width(op, true, src, dst, pc, regs, memory)
    } else {
        two_of_width(op, false, src, dst, pc, regs, memory)
    }
}

/// An operand that is changed in place.
#[inline(always)]
fn change<M: Memory>(
    op: OneOp,
    byte: bool,
    from: Place,
    v: u16,
    status: u16,
    regs: &mut Regs,
    memory: &M,
) -> Change
    requires width { HasWidth op byte }
    requires inside { IsInside from }
    requires reachable { IsReachable byte from }
    requires small { v < span_of byte }
    ensures value { effect_shown result (view_of regs.new.r) ≡ change_effect op byte (view_of regs.old.r) (M.words memory.now) status from v }
    ensures even { IsEvenStore result }
{
    let answer = one_answer(op, byte, status, v);
    flag(regs, answer.status);
    deliver(regs, memory, byte, from, answer.result_value)
}

/// An instruction of one operand of a width.
#[inline(always)]
fn one_of_width<M: Memory>(
    op: OneOp,
    byte: bool,
    src: Src,
    pc: u16,
    regs: &mut Regs,
    memory: &M,
) -> Change
    requires width { HasWidth op byte }
    requires source { HasSource src }
    ensures value { effect_shown result (view_of regs.new.r) ≡ effect_of pc (Instr.One op byte src) (view_of regs.old.r) (M.words memory.now) }
    ensures even { IsEvenStore result }
{
    let from = source_place(regs, src);
    if let Some(address) = odd_access(byte, from) {
        return Change::Faults(address);
    }
    let v = value(regs, memory, byte, from);
    let status = regs.r[2];
    raise(regs, byte, src);
    match op {
        OneOp::Push => push(regs, v),
        OneOp::Call => call(regs, v),
        _ => change(op, byte, from, v, status, regs, memory),
    }
}

/// An instruction of one operand.
#[inline(always)]
pub fn one<M: Memory>(
    op: OneOp,
    byte: bool,
    src: Src,
    pc: u16,
    regs: &mut Regs,
    memory: &M,
) -> Change
    requires width { HasWidth op byte }
    requires source { HasSource src }
    ensures value { effect_shown result (view_of regs.new.r) ≡ effect_of pc (Instr.One op byte src) (view_of regs.old.r) (M.words memory.now) }
    ensures even { IsEvenStore result }
{
    if byte {
        one_of_width(op, true, src, pc, regs, memory)
    } else {
        one_of_width(op, false, src, pc, regs, memory)
    }
}
