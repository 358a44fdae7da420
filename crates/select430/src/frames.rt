//! Where things stand that steps name.

ghost use Rattle.std.specs.Prelude.{◌≡◌, ◌≤◌, ◌<◌, ◌^◌, ◌+◌, ◌*◌, slice_get, option_copied};
ghost use Rattle.ir.specs.Machine as machine;
ghost use Rattle.select430.specs.Frames as spec;

use crate::instrs::word;
use base16::Kind;
use ir::{Ir, IrFunction, IrGlobal, IrLocal, IrScalar};
use std::cmp::max;

/// The bytes of a scalar.
fn kind_bytes(kind: Kind) -> u64
    ensures value { result ≡ spec.kind_bytes kind }
    ensures range { result ≤ 2 }
{
    match kind {
        Kind::Char => 1,
        Kind::Int | Kind::UInt | Kind::Pointer => 2,
    }
}

fn even(number: u64) -> u64
    requires { number < 2 ^ 40 }
    ensures { result ≡ spec.even number }
{
    (number + 1) / 2 * 2
}

/// The bytes up to the end of the last of some scalars.
fn scalars_end(scalars: &[IrScalar]) -> u64
    ensures value { result ≡ spec.scalars_end scalars.now }
    ensures range { result ≤ 65537 }
{
    let mut end = 0;
    for scalar in scalars {
        end = max(end, u64::from(scalar.offset) + kind_bytes(scalar.kind));
    }
    end
}

/// The bytes up to the end of the last of some locals.
fn locals_end(locals: &[IrLocal]) -> u64
    ensures value { result ≡ spec.locals_end locals.now }
    ensures range { result < 2 ^ 33 }
{
    let mut end = 0;
    for local in locals {
        end = max(
            end,
            u64::from(local.offset) + scalars_end(local.scalars.as_slice()),
        );
    }
    end
}

/// Where the temporary of a depth stands in the frame.
pub fn temporary_at(function: &IrFunction, depth: u64) -> u16
    requires { depth < 2 ^ 40 }
    ensures { result ≡ spec.temporary_at function.now depth }
{
    word(even(locals_end(function.locals.as_slice())) + 2 * depth)
}

/// What is so many bytes further.
fn moved(base: u32, offset: u16) -> u16
    ensures { result ≡ spec.word (base + offset) }
{
    word(u64::from(base) + u64::from(offset))
}

fn local_of(function: &IrFunction, number: u32) -> Option<&IrLocal>
    ensures { option_copied result ≡ slice_get function.now.locals number }
{
    function.locals.as_slice().get(number as usize)
}

fn global_of(ir: &Ir, number: u32) -> Option<&IrGlobal>
    ensures { option_copied result ≡ slice_get ir.now.globals number }
{
    ir.globals.as_slice().get(number as usize)
}

/// Where a local stands in the frame, from an offset on.
pub fn local_at(function: &IrFunction, number: u32, offset: u16) -> u16
    ensures { result ≡ spec.local_at function.now number offset }
{
    match local_of(function, number) {
        None => moved(0, offset),
        Some(local) => moved(local.offset, offset),
    }
}

/// Where a variable stands in memory, from an offset on.
pub fn global_at(ir: &Ir, number: u32, offset: u16) -> u16
    ensures { result ≡ spec.global_at ir.now number offset }
{
    match global_of(ir, number) {
        None => moved(0, offset),
        Some(global) => moved(u32::from(global.address), offset),
    }
}

/// The address behind the last variable.
fn globals_end(globals: &[IrGlobal]) -> u64
    ensures value { result ≡ spec.globals_end globals.now }
    ensures range { result < 2 ^ 33 }
{
    let mut end = 0;
    for global in globals {
        end = max(
            end,
            u64::from(global.address) + scalars_end(global.scalars.as_slice()),
        );
    }
    end
}

/// The number of the scalar at an offset among some; how many they are where it is none of them.
fn place_in(offset: u16, scalars: &[IrScalar]) -> u64
    ensures { result ≡ machine.place_in offset scalars.now }
{
    let mut place = 0;
    for scalar in scalars {
        if scalar.offset == offset {
            return place;
        }
        place += 1;
    }
    place
}

/// How many stamps a variable has.
fn stamps_of(global: &IrGlobal) -> u64
    ensures { result ≡ machine.stamps_of global.now }
{
    if global.lifetime.is_some() {
        global.scalars.as_slice().len() as u64
    } else {
        0
    }
}

/// The number of the stamp of the scalar at an offset of a variable, modulo 65,536.
fn stamp_in(globals: &[IrGlobal], number: u32, offset: u16) -> u64
    ensures value { spec.word result ≡ spec.word (machine.stamp_in 0 globals.now number offset) }
    ensures range { result < 65536 }
{
    let mut before = 0;
    let mut left = number;
    for global in globals {
        if left == 0 {
            return (before + place_in(offset, global.scalars.as_slice()) % 65536) % 65536;
        }
        before = (before + stamps_of(global) % 65536) % 65536;
        left -= 1;
    }
    0
}

/// The address of the stamp of the scalar at an offset of a variable.
pub fn stamp_at(ir: &Ir, number: u32, offset: u16) -> u16
    ensures { result ≡ spec.stamp_at ir.now number offset }
{
    let first = even(max(0x4000, globals_end(ir.globals.as_slice())));
    word(first + 4 * stamp_in(ir.globals.as_slice(), number, offset))
}
