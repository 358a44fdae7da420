ghost use Rattle.std.specs.Prelude.{◌≡◌, ◌+◌, ◌-◌, ◌<◌, ◌≤◌, ◌≤ℤ◌, not, ◌+ℤ◌, ◌-ℤ◌, pos, negsuc, nat_le};
ghost use Rattle.core430.specs.Status.{bit};
ghost use Rattle.core430.specs.Arithmetic.{span_of, half_of, is_negative as is_negative_of, signed_of, is_in_range, result_status as result_status_of, sum_of, sum_status as sum_status_of, difference_of, difference_status as difference_status_of, logic_status as logic_status_of, complement_of, shifted, shift_status as shift_status_of, swapped as swapped_of, extended as extended_of};

use crate::status::with;

#[inline(always)]
pub fn is_negative(byte: bool, value: u16) -> bool
    ensures { result ≡ is_negative_of byte value }
{
    if byte { value >= 128 } else { value >= 32768 }
}

/// The number that an operand encodes in two's complement.
#[inline(always)]
fn signed(byte: bool, value: u16) -> i32
    requires { value < span_of byte }
    ensures value { result ≡ signed_of byte value }
    ensures low { negsuc 32767 ≤ℤ result }
    ensures high { result ≤ℤ pos 32767 }
{
    if is_negative(byte, value) {
        if byte {
            value as i32 - 256
        } else {
            value as i32 - 65536
        }
    } else {
        value as i32
    }
}

/// Whether an operand can encode the number.
#[inline(always)]
fn fits(byte: bool, number: i32) -> bool
    ensures { result ≡ is_in_range byte number }
{
    if byte {
        number >= -128 && number < 128
    } else {
        number >= -32768 && number < 32768
    }
}

/// A bit as a number.
#[inline(always)]
fn number_of(set: bool) -> u16
    ensures value { result ≡ bit set }
    ensures small { result ≤ 1 }
{
    if set { 1 } else { 0 }
}

#[inline(always)]
fn result_status(byte: bool, status: u16, value: u16, c: bool, v: bool) -> u16
    ensures { result ≡ result_status_of byte status value c v }
{
    with(status, c, value == 0, is_negative(byte, value), v)
}

/// The destination plus the source plus the carry, cut to the width.
#[inline(always)]
pub fn sum(byte: bool, c: bool, d: u16, s: u16) -> u16
    ensures { result ≡ sum_of byte c d s }
{
    let all = d as u32 + s as u32 + number_of(c) as u32;
    if byte {
        (all % 256) as u16
    } else {
        (all % 65536) as u16
    }
}

/// Whether the exact sum passes the width.
#[inline(always)]
fn sum_carries(byte: bool, c: bool, d: u16, s: u16) -> bool
    ensures { result ≡ nat_le (span_of byte) (d + s + bit c) }
{
    let all = d as u32 + s as u32 + number_of(c) as u32;
    if byte { all >= 256 } else { all >= 65536 }
}

/// The exact signed sum.
#[inline(always)]
fn signed_sum(byte: bool, c: bool, d: u16, s: u16) -> i32
    requires destination { d < span_of byte }
    requires source { s < span_of byte }
    ensures { result ≡ (signed_of byte d +ℤ signed_of byte s) +ℤ pos (bit c) }
{
    signed(byte, d) + signed(byte, s) + number_of(c) as i32
}

/// Whether the exact signed sum lies outside the width's range.
#[inline(always)]
fn sum_overflows(byte: bool, c: bool, d: u16, s: u16) -> bool
    requires destination { d < span_of byte }
    requires source { s < span_of byte }
    ensures { result ≡ not (is_in_range byte ((signed_of byte d +ℤ signed_of byte s) +ℤ pos (bit c))) }
{
    !fits(byte, signed_sum(byte, c, d, s))
}

#[inline(always)]
pub fn sum_status(byte: bool, status: u16, c: bool, d: u16, s: u16) -> u16
    requires destination { d < span_of byte }
    requires source { s < span_of byte }
    ensures { result ≡ sum_status_of byte status c d s }
{
    result_status(
        byte,
        status,
        sum(byte, c, d, s),
        sum_carries(byte, c, d, s),
        sum_overflows(byte, c, d, s),
    )
}

/// The destination less the source less what is borrowed, cut to the width.
#[inline(always)]
pub fn difference(byte: bool, b: bool, d: u16, s: u16) -> u16
    requires { s < span_of byte }
    ensures { result ≡ difference_of byte b d s }
{
    let less = s as u32 + number_of(b) as u32;
    if byte {
        ((d as u32 + 256 - less) % 256) as u16
    } else {
        ((d as u32 + 65536 - less) % 65536) as u16
    }
}

/// The exact signed difference.
#[inline(always)]
fn signed_difference(byte: bool, b: bool, d: u16, s: u16) -> i32
    requires destination { d < span_of byte }
    requires source { s < span_of byte }
    ensures { result ≡ (signed_of byte d -ℤ signed_of byte s) -ℤ pos (bit b) }
{
    signed(byte, d) - signed(byte, s) - number_of(b) as i32
}

/// Whether the exact signed difference lies outside the width's range.
#[inline(always)]
fn difference_overflows(byte: bool, b: bool, d: u16, s: u16) -> bool
    requires destination { d < span_of byte }
    requires source { s < span_of byte }
    ensures { result ≡ not (is_in_range byte ((signed_of byte d -ℤ signed_of byte s) -ℤ pos (bit b))) }
{
    !fits(byte, signed_difference(byte, b, d, s))
}

#[inline(always)]
pub fn difference_status(byte: bool, status: u16, b: bool, d: u16, s: u16) -> u16
    requires destination { d < span_of byte }
    requires source { s < span_of byte }
    ensures { result ≡ difference_status_of byte status b d s }
{
    let borrows_nothing = s as u32 + number_of(b) as u32 <= d as u32;
    result_status(
        byte,
        status,
        difference(byte, b, d, s),
        borrows_nothing,
        difference_overflows(byte, b, d, s),
    )
}

#[inline(always)]
pub fn logic_status(byte: bool, status: u16, value: u16, v: bool) -> u16
    ensures { result ≡ logic_status_of byte status value v }
{
    result_status(byte, status, value, value != 0, v)
}

/// Every bit of an operand turned.
#[inline(always)]
pub fn complement(byte: bool, value: u16) -> u16
    requires { value < span_of byte }
    ensures { result ≡ complement_of byte value }
{
    if byte { 255 - value } else { 65535 - value }
}

/// One place to the right, with a bit that enters at the top.
#[inline(always)]
pub fn shift(byte: bool, top: bool, value: u16) -> u16
    requires { value < span_of byte }
    ensures value { result ≡ shifted byte top value }
    ensures small { result < span_of byte }
{
    let entering = if !top {
        0
    } else if byte {
        128
    } else {
        32768
    };
    value / 2 + entering
}

#[inline(always)]
pub fn shift_status(byte: bool, status: u16, value: u16, shifted_value: u16) -> u16
    ensures { result ≡ shift_status_of byte status value shifted_value }
{
    result_status(byte, status, shifted_value, value % 2 == 1, false)
}

/// The bytes exchanged.
#[inline(always)]
pub fn swapped(value: u16) -> u16
    ensures { result ≡ swapped_of value }
{
    value % 256 * 256 + value / 256
}

/// Bit 7 in bits 15 to 8.
#[inline(always)]
pub fn extended(value: u16) -> u16
    ensures { result ≡ extended_of value }
{
    let low = value % 256;
    if low >= 128 { low + 65280 } else { low }
}
