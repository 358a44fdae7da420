ghost use Rattle.std.specs.Prelude.{◌≡◌, ◌<◌, ◌*◌, ◌↔◌, take, slice_index, IsTrue, IsSome, IfSome, MatchOption};
ghost use Rattle.isa430.specs.Table.{in_table, two_word_listed, one_word_listed, two_of, one_of, cond_of, second_constant, status_source, src_of, dst_of, offset_of, src_size, dst_size, size_of, code_of, decode_words, two_instr, one_instr, jump_instr};
ghost use Rattle.isa430.specs.Table.{valid as valid_instr};

use crate::instr::{Cond, Dst, Gen, Instr, OneOp, Src, TwoOp};
use crate::table::{has_one, has_two};

fn two_op(number: u16) -> TwoOp
    ensures { result ≡ two_of number }
{
    match number {
        4 => TwoOp::Mov,
        5 => TwoOp::Add,
        6 => TwoOp::Addc,
        7 => TwoOp::Subc,
        8 => TwoOp::Sub,
        9 => TwoOp::Cmp,
        11 => TwoOp::Bit,
        12 => TwoOp::Bic,
        13 => TwoOp::Bis,
        14 => TwoOp::Xor,
        _ => TwoOp::And,
    }
}

fn one_op(number: u16) -> OneOp
    ensures { result ≡ one_of number }
{
    match number {
        0 => OneOp::Rrc,
        1 => OneOp::Swpb,
        2 => OneOp::Rra,
        3 => OneOp::Sxt,
        4 => OneOp::Push,
        _ => OneOp::Call,
    }
}

fn condition(number: u16) -> Cond
    ensures { result ≡ cond_of number }
{
    match number {
        0 => Cond::Nz,
        1 => Cond::Z,
        2 => Cond::Nc,
        3 => Cond::C,
        4 => Cond::N,
        5 => Cond::Ge,
        6 => Cond::Less,
        _ => Cond::Always,
    }
}

fn jump_offset(field: u16) -> i16
    requires { field < 1024 }
    ensures { result ≡ offset_of field }
{
    if field < 512 {
        field as i16
    } else {
        field as i16 - 1024
    }
}

/// The constant of R3 in a mode.
fn r3_constant(mode: u8) -> Gen
    ensures { result ≡ second_constant mode }
{
    match mode {
        0 => Gen::Zero,
        1 => Gen::One,
        2 => Gen::Two,
        _ => Gen::MinusOne,
    }
}

/// The source that R2 is in a mode.
fn r2_source(mode: u8, extension: u16) -> Src
    ensures { result ≡ status_source mode extension }
{
    match mode {
        0 => Src::Reg(2),
        1 => Src::Absolute(extension),
        2 => Src::Constant(Gen::Four),
        _ => Src::Constant(Gen::Eight),
    }
}

fn source(mode: u8, register: u8, extension: u16) -> Src
    ensures { result ≡ src_of mode register extension }
{
    match (register, mode) {
        (2, _) => r2_source(mode, extension),
        (3, _) => Src::Constant(r3_constant(mode)),
        (_, 0) => Src::Reg(register),
        (_, 1) => Src::Indexed(register, extension),
        (_, 2) => Src::Indirect(register),
        (0, _) => Src::Immediate(extension),
        _ => Src::Increment(register),
    }
}

fn destination(mode: u8, register: u8, extension: u16) -> Dst
    ensures { result ≡ dst_of mode register extension }
{
    match (mode, register) {
        (0, _) => Dst::Reg(register),
        (_, 2) => Dst::Absolute(extension),
        _ => Dst::Indexed(register, extension),
    }
}

/// The words that follow the first word for a source.
fn source_words(src: Src) -> u8
    ensures { 2 * result ≡ src_size src }
{
    match src {
        Src::Indexed(_, _) | Src::Absolute(_) | Src::Immediate(_) => 1,
        Src::Reg(_) | Src::Indirect(_) | Src::Increment(_) | Src::Constant(_) => 0,
    }
}

/// The words that follow for a destination.
fn destination_words(dst: Dst) -> u8
    ensures { 2 * result ≡ dst_size dst }
{
    match dst {
        Dst::Indexed(_, _) | Dst::Absolute(_) => 1,
        Dst::Reg(_) => 0,
    }
}

fn read_two(words: &[u16; 3]) -> (Instr, u8)
    ensures value { result.0 ≡ two_instr (slice_index words.now 0) (slice_index words.now 1) (slice_index words.now 2) }
    ensures size { 2 * result.1 ≡ size_of result.0 }
{
    let first = words[0];
    let src = source((first / 16 % 4) as u8, (first / 256 % 16) as u8, words[1]);
    let before = source_words(src);
    let extension = if before == 0 { words[1] } else { words[2] };
    let dst = destination((first / 128 % 2) as u8, (first % 16) as u8, extension);
    let instr = Instr::Two {
        op: two_op(first / 4096),
        byte: first / 64 % 2 == 1,
        src,
        dst,
    };
    (instr, 1 + before + destination_words(dst))
}

fn read_one(first: u16, extension: u16) -> (Instr, u8)
    ensures value { result.0 ≡ one_instr first extension }
    ensures size { 2 * result.1 ≡ size_of result.0 }
{
    let src = source((first / 16 % 4) as u8, (first % 16) as u8, extension);
    let instr = Instr::One {
        op: one_op(first / 128 % 8),
        byte: first / 64 % 2 == 1,
        src,
    };
    (instr, 1 + source_words(src))
}

fn read_jump(first: u16) -> Instr
    ensures { result ≡ jump_instr first }
{
    Instr::Jump {
        cond: condition(first / 1024 % 8),
        offset: jump_offset(first % 1024),
    }
}

fn is_two(first: u16) -> bool
    ensures { result ≡ two_word_listed first }
{
    has_two(
        (first / 4096) as u8,
        first / 64 % 2 == 1,
        (first / 16 % 4) as u8,
        (first / 256 % 16) as u8,
        (first / 128 % 2) as u8,
        (first % 16) as u8,
    )
}

fn is_one(first: u16) -> bool
    ensures { result ≡ one_word_listed first }
{
    first / 1024 == 4
        && has_one(
            (first / 128 % 8) as u8,
            first / 64 % 2 == 1,
            (first / 16 % 4) as u8,
            (first % 16) as u8,
        )
}

fn read(words: &[u16; 3]) -> Option<(Instr, u8)>
    ensures value { MatchOption result (decode_words words.now ≡ None) (λ d. decode_words words.now ≡ Some d.0) }
    ensures size { IfSome result (λ d. 2 * d.1 ≡ size_of d.0) }
{
    let first = words[0];
    if first < 0x2000 {
        if is_one(first) {
            Some(read_one(first, words[1]))
        } else {
            None
        }
    } else if first < 0x4000 {
        Some((read_jump(first), 1))
    } else if is_two(first) {
        Some(read_two(words))
    } else {
        None
    }
}

/// The instruction that three words begin with, and the number of its words, from 1 to 3. None exactly where the first
/// word is outside the table, whatever the others are.
pub fn decode(words: &[u16; 3]) -> Option<(Instr, u8)>
    ensures table { IsSome result ↔ IsTrue (in_table (slice_index words.now 0)) }
    ensures value { MatchOption result (decode_words words.now ≡ None) (λ d. decode_words words.now ≡ Some d.0) }
    ensures valid { IfSome result (λ d. IsTrue (valid_instr d.0)) }
    ensures size { IfSome result (λ d. 2 * d.1 ≡ size_of d.0) }
    ensures words { IfSome result (λ d. take d.1 words.now ≡ code_of d.0) }
{
    read(words)
}
