//! Numbers and character constants (C99 6.4.4.1, 6.4.4.4).
ghost use Rattle.std.specs.Prelude.{◌≡◌, ◌<◌, ◌≤◌, length};
ghost use Rattle.c_lex.specs.Pieces as spec;

use crate::bytes::{are_digits_of, digit_value, value_of};
use crate::item::{Fault, Item};
use crate::token::TokenKind;

/// Digits of a base from 2 to 16 as a number, whose value is at most 65535.
fn numeral(base: u32, decimal: bool, unsigned: bool, digits: &[u8]) -> Item
    requires low { 2 ≤ base }
    requires high { base ≤ 16 }
    ensures { result ≡ spec.numeral base decimal unsigned digits.now }
{
    let value = value_of(base, digits);
    if !digits.is_empty() && are_digits_of(base, digits) && value <= 65535 {
        Item::Token(TokenKind::Number {
            value,
            decimal,
            unsigned,
        })
    } else {
        Item::Bad(Fault::BadNumber)
    }
}

/// A number without its suffix.
fn constant(unsigned: bool, digits: &[u8]) -> Item
    ensures { result ≡ spec.constant unsigned digits.now }
{
    match digits {
        [b'0', b'x' | b'X', more @ ..] => numeral(16, false, unsigned, more),
        [b'0', _, ..] => numeral(8, false, unsigned, digits),
        _ => numeral(10, true, unsigned, digits),
    }
}

/// Whether a number ends in `u` or `U`.
fn has_suffix(text: &[u8]) -> bool
    ensures { result ≡ spec.has_suffix text.now }
{
    match text.last() {
        Some(b) => *b == b'u' || *b == b'U',
        None => false,
    }
}

/// What a digit and the letters, digits and `_` behind it are as a number.
pub fn number(text: &[u8]) -> Item
    ensures { result ≡ spec.number text.now }
{
    if has_suffix(text) {
        constant(true, &text[..text.len() - 1])
    } else {
        constant(false, text)
    }
}

/// The value of an escape of one letter or mark.
fn simple_escape(e: u8) -> Option<u8>
    ensures { result ≡ spec.simple_escape e }
{
    match e {
        b'n' => Some(10),
        b't' => Some(9),
        b'r' => Some(13),
        b'a' => Some(7),
        b'b' => Some(8),
        b'f' => Some(12),
        b'v' => Some(11),
        b'\\' | b'\'' | b'"' | b'?' => Some(e),
        _ => None,
    }
}

/// One digit or more, at most `most`, of a base from 2 to 16, of value at most 255.
fn code(base: u32, most: usize, digits: &[u8]) -> Option<u8>
    requires low { 2 ≤ base }
    requires high { base ≤ 16 }
    ensures { result ≡ spec.code base most digits.now }
{
    let value = value_of(base, digits);
    if !digits.is_empty() && digits.len() <= most && are_digits_of(base, digits) && value <= 255 {
        Some(value as u8)
    } else {
        None
    }
}

/// The value of what stands behind a backslash.
fn escaped(text: &[u8]) -> Option<u8>
    ensures { result ≡ spec.escaped text.now }
{
    match text {
        [] => None,
        [e] => {
            if digit_value(*e) < 8 {
                code(8, 3, text)
            } else {
                simple_escape(*e)
            }
        }
        [b'x', more @ ..] => code(16, 2, more),
        _ => code(8, 3, text),
    }
}

/// The value of what stands between two quotes.
fn character(text: &[u8]) -> Option<u8>
    ensures { result ≡ spec.character text.now }
{
    match text {
        [c] => {
            if 32 <= *c && *c <= 126 && *c != b'\'' && *c != b'\\' {
                Some(*c)
            } else {
                None
            }
        }
        [b'\\', more @ ..] => escaped(more),
        _ => None,
    }
}

/// What a `'` and these bytes are; the quote alone is no token.
pub fn quoted(text: &[u8]) -> Option<Item>
    ensures { result ≡ spec.quoted text.now }
{
    let Some(last) = text.last() else {
        return Some(Item::Bad(Fault::BadChar));
    };
    if *last != b'\'' {
        return None;
    }
    match character(&text[..text.len() - 1]) {
        Some(value) => Some(Item::Token(TokenKind::Char(value))),
        None => None,
    }
}
