//! Classes of bytes.
ghost use Rattle.std.specs.Prelude.{◌≡◌, ◌+◌, ◌<◌, ◌≤◌, length, min};
ghost use Rattle.std.specs.List.{list_all};
ghost use Rattle.c_lex.specs.Bytes as spec;
ghost use Rattle.c_lex.specs.Measures.{span};

/// A digit, `0` to `9`.
pub fn is_digit(b: u8) -> bool
    ensures { result ≡ spec.is_digit b }
{
    b.is_ascii_digit()
}

/// A letter of ASCII or `_` (C99 6.4.2.1).
pub fn is_letter(b: u8) -> bool
    ensures { result ≡ spec.is_letter b }
{
    b.is_ascii_lowercase() || b.is_ascii_uppercase() || b == b'_'
}

/// What may stand in a name or a number past its first byte.
pub fn continues(b: u8) -> bool
    ensures { result ≡ spec.continues b }
{
    is_letter(b) || is_digit(b)
}

/// Any byte but a line feed.
pub fn in_line(b: u8) -> bool
    ensures { result ≡ spec.in_line b }
{
    b != b'\n'
}

/// A space, a tab, a carriage return, a form feed or a vertical tab.
pub fn is_line_blank(b: u8) -> bool
    ensures { result ≡ spec.is_line_blank b }
{
    b == b' ' || b == b'\t' || b == b'\r' || b == 12 || b == 11
}

/// A blank within a line, or a line feed (C99 6.4).
pub fn is_blank(b: u8) -> bool
    ensures { result ≡ spec.is_blank b }
{
    is_line_blank(b) || b == b'\n'
}

/// What a digit is worth, to base 16, and 16 for any other byte.
pub fn digit_value(b: u8) -> u32
    ensures value { result ≡ spec.digit_value b }
    ensures small { result ≤ 16 }
{
    if is_digit(b) {
        u32::from(b - b'0')
    } else if b'a' <= b && b <= b'f' {
        u32::from(b - b'a') + 10
    } else if b'A' <= b && b <= b'F' {
        u32::from(b - b'A') + 10
    } else {
        16
    }
}

/// How many bytes in front may stand in a name or a number.
#[tactic(auto, using(crate::proofs::Spanned::span_more, crate::proofs::Spanned::span_stops, crate::proofs::Spanned::span_ends))]
pub fn word_len(text: &[u8]) -> usize
    ensures value { result ≡ span spec.continues text.now }
    ensures within { result ≤ length text.now }
{
    for (i, b) in text.iter().enumerate() {
        if !continues(*b) {
            return i;
        }
    }
    text.len()
}

/// How many bytes in front are blanks.
#[tactic(auto, using(crate::proofs::Spanned::span_more, crate::proofs::Spanned::span_stops, crate::proofs::Spanned::span_ends))]
pub fn blank_len(text: &[u8]) -> usize
    ensures value { result ≡ span spec.is_blank text.now }
    ensures within { result ≤ length text.now }
{
    for (i, b) in text.iter().enumerate() {
        if !is_blank(*b) {
            return i;
        }
    }
    text.len()
}

/// How many bytes there are to the line's end, its line feed not counted.
#[tactic(auto, using(crate::proofs::Spanned::span_more, crate::proofs::Spanned::span_stops, crate::proofs::Spanned::span_ends))]
pub fn line_len(text: &[u8]) -> usize
    ensures value { result ≡ span spec.in_line text.now }
    ensures within { result ≤ length text.now }
{
    for (i, b) in text.iter().enumerate() {
        if !in_line(*b) {
            return i;
        }
    }
    text.len()
}

/// What digits of a base from 2 to 16 are worth, and 65536 for more than that.
#[tactic(auto, using(crate::proofs::Values::value_more))]
pub fn value_of(base: u32, digits: &[u8]) -> u32
    requires low { 2 ≤ base }
    requires high { base ≤ 16 }
    ensures { result ≡ min (spec.value base digits.now) 65536 }
{
    let mut value: u32 = 0;
    for b in digits {
        value = (base * value + digit_value(*b)).min(65536);
    }
    value
}

/// Whether all bytes are digits of a base.
pub fn are_digits_of(base: u32, digits: &[u8]) -> bool
    ensures { result ≡ list_all (spec.is_digit_of base) digits.now }
{
    digits.iter().all(|b| digit_value(*b) < base)
}
