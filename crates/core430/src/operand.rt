ghost use Rattle.std.specs.Prelude.{◌≡◌, ◌<◌, ◌%◌, true, false, IfNone};
ghost use Rattle.core430.specs.Registers.{view_of};
ghost use Rattle.core430.specs.Arithmetic.{span_of};
ghost use Rattle.core430.specs.Bytes.{word_address as word_address_of, byte_in, with_byte as with_byte_of};
ghost use Rattle.core430.specs.Operands.{constant_of, src_place, dst_place, raise_of, raised, value_at, odd_of};
ghost use Rattle.core430.specs.Conditions.{HasSource, HasDestination, IsInside, IsReachable};

use crate::memory::Memory;
use crate::registers::{get, set};
use base16::Regs;
use isa430::{Dst, Gen, Src};

/// Where an operand is: in a register, in memory at a byte address, or given by the instruction.
#[derive(Clone, Copy, Debug, PartialEq, Eq)]
pub enum Place {
    InRegister(u8),
    InMemory(u16),
    Given(u16),
}

/// What a constant generator gives.
#[inline(always)]
pub fn constant(generated: Gen) -> u16
    ensures { result ≡ constant_of generated }
{
    match generated {
        Gen::Zero => 0,
        Gen::One => 1,
        Gen::Two => 2,
        Gen::Four => 4,
        Gen::Eight => 8,
        Gen::MinusOne => 65535,
    }
}

#[inline(always)]
pub fn source_place(regs: &Regs, src: Src) -> Place
    requires { HasSource src }
    ensures value { result ≡ src_place (view_of regs.now.r) src }
    ensures inside { IsInside result }
{
    match src {
        Src::Reg(n) => Place::InRegister(n),
        Src::Indexed(n, x) => Place::InMemory(get(regs, n).wrapping_add(x)),
        Src::Absolute(a) => Place::InMemory(a),
        Src::Indirect(n) => Place::InMemory(get(regs, n)),
        Src::Increment(n) => Place::InMemory(get(regs, n)),
        Src::Immediate(v) => Place::Given(v),
        Src::Constant(generated) => Place::Given(constant(generated)),
    }
}

#[inline(always)]
pub fn destination_place(regs: &Regs, dst: Dst) -> Place
    requires { HasDestination dst }
    ensures value { result ≡ dst_place (view_of regs.now.r) dst }
    ensures inside { IsInside result }
{
    match dst {
        Dst::Reg(n) => Place::InRegister(n),
        Dst::Indexed(n, x) => Place::InMemory(get(regs, n).wrapping_add(x)),
        Dst::Absolute(a) => Place::InMemory(a),
    }
}

/// By how much `@Rn+` raises its register.
#[inline(always)]
fn raise_by(byte: bool, register: u8) -> u16
    ensures { result ≡ raise_of byte register }
{
    if byte && register != 1 { 1 } else { 2 }
}

/// Raises the register of `@Rn+`.
#[inline(always)]
pub fn raise(regs: &mut Regs, byte: bool, src: Src)
    requires { HasSource src }
    ensures { view_of regs.new.r ≡ raised byte (view_of regs.old.r) src }
{
    if let Src::Increment(n) = src {
        let word = get(regs, n).wrapping_add(raise_by(byte, n));
        set(regs, n, word);
    }
}

/// The odd address that a word access would go to.
#[inline(always)]
pub fn odd_access(byte: bool, place: Place) -> Option<u16>
    ensures value { result ≡ odd_of byte place }
    ensures even { IfNone result (IsReachable byte place) }
{
    if byte {
        return None;
    }
    match place {
        Place::InMemory(a) => if a % 2 == 0 { None } else { Some(a) },
        _ => None,
    }
}

/// The even address of the word that a byte stands in.
#[inline(always)]
pub fn word_address(address: u16) -> u16
    ensures value { result ≡ word_address_of address }
    ensures even { result % 2 ≡ 0 }
{
    address - address % 2
}

/// The byte at an address in its word.
#[inline(always)]
fn byte_of(address: u16, word: u16) -> u16
    ensures value { result ≡ byte_in address word }
    ensures small { result < 256 }
{
    if address % 2 == 0 {
        word % 256
    } else {
        word / 256
    }
}

/// The word with the byte at an address replaced.
#[inline(always)]
pub fn with_byte(address: u16, word: u16, byte: u16) -> u16
    requires { byte < 256 }
    ensures { result ≡ with_byte_of address word byte }
{
    if address % 2 == 0 {
        word / 256 * 256 + byte
    } else {
        word % 256 + byte * 256
    }
}

#[inline(always)]
fn byte_value<M: Memory>(regs: &Regs, memory: &M, place: Place) -> u16
    requires { IsInside place }
    ensures value { result ≡ value_at true (view_of regs.now.r) (M.words memory.now) place }
    ensures small { result < 256 }
{
    match place {
        Place::InRegister(n) => get(regs, n) % 256,
        Place::InMemory(a) => byte_of(a, memory.get(word_address(a))),
        Place::Given(v) => v % 256,
    }
}

#[inline(always)]
fn word_value<M: Memory>(regs: &Regs, memory: &M, place: Place) -> u16
    requires inside { IsInside place }
    requires reachable { IsReachable false place }
    ensures { result ≡ value_at false (view_of regs.now.r) (M.words memory.now) place }
{
    match place {
        Place::InRegister(n) => get(regs, n),
        Place::InMemory(a) => memory.get(a),
        Place::Given(v) => v,
    }
}

/// What stands at a place.
#[inline(always)]
pub fn value<M: Memory>(regs: &Regs, memory: &M, byte: bool, place: Place) -> u16
    requires inside { IsInside place }
    requires reachable { IsReachable byte place }
    ensures value { result ≡ value_at byte (view_of regs.now.r) (M.words memory.now) place }
    ensures small { result < span_of byte }
{
    if byte {
        byte_value(regs, memory, place)
    } else {
        word_value(regs, memory, place)
    }
}
