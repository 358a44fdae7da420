//! The operators of C on integers (C99 6.5.3.3 to 6.5.12).

ghost use Rattle.std.specs.Prelude.{◌≡◌, true, pos, negsuc, ◌≤ℤ◌, ◌^◌};
ghost use Rattle.base16.specs.Integer.{wrapped};
ghost use Rattle.c_values.specs.Operators as spec;

use base16::{BinaryOp, IntType, UnaryOp, to_signed};

/// The word that equals a number modulo 2^16.
pub fn word_of(value: i64) -> u16
    ensures { result ≡ wrapped value }
{
    if value >= 0 {
        (value % 65536) as u16
    } else {
        65535 - (!value % 65536) as u16
    }
}

/// A number as a value of a type.
#[tactic(auto, unfolding(crate::specs::Operators::as_type))]
pub fn as_type(to: IntType, value: i64) -> i64
    ensures { result ≡ spec.as_type to value }
{
    let word = word_of(value);
    match to {
        IntType::Char => i64::from(word % 256),
        IntType::Int => i64::from(to_signed(word)),
        IntType::UInt => i64::from(word),
    }
}

/// The number that the word of a value says as a value of a type.
#[tactic(auto, unfolding(crate::specs::Operators::number))]
pub fn number(of: IntType, value: i64) -> i64
    ensures value { result ≡ spec.number of value }
    ensures low { negsuc 32767 ≤ℤ result }
    ensures high { result ≤ℤ pos 65535 }
{
    let word = word_of(value);
    match of {
        IntType::Int => i64::from(to_signed(word)),
        IntType::Char | IntType::UInt => i64::from(word),
    }
}

/// What an operation gives at a type, or rule 1 where it lies outside `int`.
#[tactic(auto, unfolding(crate::specs::Operators::settled))]
fn settled(at: IntType, value: i64) -> Result<i64, u8>
    ensures { result ≡ spec.settled at value }
{
    match at {
        IntType::Int => {
            if -32768 <= value && value <= 32767 {
                Ok(value)
            } else {
                Err(1)
            }
        }
        IntType::UInt => Ok(as_type(IntType::UInt, value)),
        IntType::Char => Ok(as_type(IntType::Char, value)),
    }
}

/// 1 where it holds and 0 where not.
pub fn truth(holds: bool) -> i64
    ensures { result ≡ spec.truth holds }
{
    if holds { 1 } else { 0 }
}

/// The value of a unary operator, or the rule that it breaks.
#[tactic(auto, unfolding(crate::specs::Operators::unary))]
pub fn unary(op: UnaryOp, at: IntType, value: i64) -> Result<i64, u8>
    requires low { negsuc 65535 ≤ℤ value }
    requires high { value ≤ℤ pos 65535 }
    ensures { result ≡ spec.unary op at value }
{
    match op {
        UnaryOp::Plus => Ok(value),
        UnaryOp::Minus => settled(at, 0 - value),
        UnaryOp::Complement => Ok(as_type(at, -1 - value)),
        UnaryOp::Not => Ok(truth(value == 0)),
    }
}

/// The sum and the like of two numbers, or the rule that is broken.
#[tactic(auto, unfolding(crate::specs::Operators::binary))]
pub fn binary(op: BinaryOp, at: IntType, left: i64, right: i64) -> Result<i64, u8>
    requires left_low { negsuc 65535 ≤ℤ left }
    requires left_high { left ≤ℤ pos 65535 }
    requires right_low { negsuc 65535 ≤ℤ right }
    requires right_high { right ≤ℤ pos 65535 }
    ensures { result ≡ spec.binary op at left right }
{
    match op {
        BinaryOp::Add => settled(at, left + right),
        BinaryOp::Sub => settled(at, left - right),
        BinaryOp::Mul => settled(at, left * right),
        BinaryOp::Div => quotient(at, left, right),
        BinaryOp::Rem => remainder(at, left, right),
        BinaryOp::Shl => shifted_left(at, left, right),
        BinaryOp::Shr => shifted_right(left, right),
        BinaryOp::Less => Ok(truth(left < right)),
        BinaryOp::Greater => Ok(truth(right < left)),
        BinaryOp::LessEq => Ok(truth(left <= right)),
        BinaryOp::GreaterEq => Ok(truth(right <= left)),
        BinaryOp::Equal => Ok(truth(left <= right && right <= left)),
        BinaryOp::NotEqual => Ok(truth(!(left <= right && right <= left))),
        BinaryOp::And => Ok(as_type(at, i64::from(word_of(left) & word_of(right)))),
        BinaryOp::Xor => Ok(as_type(at, i64::from(word_of(left) ^ word_of(right)))),
        BinaryOp::Or => Ok(as_type(at, i64::from(word_of(left) | word_of(right)))),
    }
}

fn quotient(at: IntType, left: i64, right: i64) -> Result<i64, u8>
    requires left_low { negsuc 65535 ≤ℤ left }
    requires left_high { left ≤ℤ pos 65535 }
    ensures { result ≡ spec.quotient at left right }
{
    if right == 0 {
        return Err(2);
    }
    settled(at, left / right)
}

fn remainder(at: IntType, left: i64, right: i64) -> Result<i64, u8>
    requires left_low { negsuc 65535 ≤ℤ left }
    requires left_high { left ≤ℤ pos 65535 }
    ensures { result ≡ spec.remainder at left right }
{
    if right == 0 {
        return Err(2);
    }
    let quotient = left / right;
    match settled(at, quotient) {
        Ok(_quotient) => Ok(left % right),
        Err(rule) => Err(rule),
    }
}

/// 2 to a power below 16.
fn power(count: i64) -> i64
    requires { spec.is_count count ≡ true }
    ensures value { result ≡ pos (2 ^ spec.count_of count) }
    ensures high { result ≤ℤ pos 32768 }
{
    i64::from(1u32 << (count as u32))
}

#[tactic(auto, unfolding(crate::specs::Operators::shifted_left))]
fn shifted_left(at: IntType, left: i64, right: i64) -> Result<i64, u8>
    requires left_low { negsuc 65535 ≤ℤ left }
    requires left_high { left ≤ℤ pos 65535 }
    ensures { result ≡ spec.shift_left at left right }
{
    if right < 0 || right > 15 {
        return Err(3);
    }
    let product = left * power(right);
    match at {
        IntType::Int => {
            if left < 0 || product > 32767 {
                Err(3)
            } else {
                Ok(product)
            }
        }
        IntType::Char | IntType::UInt => Ok(as_type(at, product)),
    }
}

fn shifted_right(left: i64, right: i64) -> Result<i64, u8>
    ensures { result ≡ spec.shift_right left right }
{
    if right < 0 || right > 15 {
        return Err(3);
    }
    if left >= 0 {
        Ok(left / power(right))
    } else {
        Ok(!(!left / power(right)))
    }
}
