ghost use Rattle.std.specs.Prelude.{◌≡◌, ◌^◌, ◌-◌, ◌<◌, ◌≤◌, ◌==◌, [], ◌∷◌, IfOk, IfSome, MatchOption, map, min, position, length};
ghost use Rattle.std.specs.List.{list_all, slice_split};
ghost use Rattle.std.specs.Char.{is_ascii_digit};
ghost use Rattle.std.specs.Str.Lines.{lines, strip_carriage_return};
ghost use Rattle.world.specs.Text.{fields, is_padded, is_skipped, decimal, is_number, number_in};

use base16::NoMemory;
use std::alloc::Global;

/// The line without a carriage return at its end.
fn without_return(line: &[u8]) -> &[u8]
    ensures { result.now ≡ strip_carriage_return line.now }
{
    match line {
        [front @ .., b'\r'] => front,
        _ => line,
    }
}

/// The place of the first byte that equals `mark`.
fn place_of(mark: u8, bytes: &[u8]) -> Option<usize>
    ensures { result ≡ position (λ b. b == mark) bytes.now }
{
    bytes.iter().position(|b| *b == mark)
}

/// What stands before the first byte that equals `mark`, and what stands after it.
#[tactic(auto, using(crate::proofs::TextLemmas::split_found, crate::proofs::TextLemmas::split_none, crate::proofs::TextLemmas::place_found))]
fn cut(mark: u8, bytes: &[u8]) -> Option<(&[u8], &[u8])>
    ensures parts { MatchOption result (slice_split (λ b. b == mark) bytes.now ≡ bytes.now ∷ [])
        (λ p. slice_split (λ b. b == mark) bytes.now ≡ p.0.now ∷ slice_split (λ b. b == mark) p.1.now) }
    ensures shorter { IfSome result (λ p. length p.1.now < length bytes.now) }
{
    match place_of(mark, bytes) {
        None => None,
        Some(place) => Some((&bytes[..place], &bytes[place + 1..])),
    }
}

/// The lines of a text.
#[tactic(auto, using(crate::proofs::TextLemmas::lines_more, crate::proofs::TextLemmas::lines_last))]
pub(crate) fn lines_of(alloc: Global, text: &[u8]) -> Result<Vec<&[u8]>, NoMemory>
    ensures { IfOk result (λ v. map (λ line. line.now) v.items ≡ lines text.now) }
{
    let mut found = Vec::new(alloc);
    let mut rest = text;
    while let Some((line, others)) = cut(b'\n', rest) {
        found.push(without_return(line))?;
        rest = others;
    }
    if !rest.is_empty() {
        found.push(rest)?;
    }
    Ok(found)
}

/// The fields of a line, which stand apart by one or more spaces.
#[tactic(auto, using(crate::proofs::TextLemmas::fields_more, crate::proofs::TextLemmas::fields_last))]
pub(crate) fn fields_of(alloc: Global, line: &[u8]) -> Result<Vec<&[u8]>, NoMemory>
    ensures { IfOk result (λ v. map (λ field. field.now) v.items ≡ fields line.now) }
{
    let mut found = Vec::new(alloc);
    let mut rest = line;
    while let Some((field, others)) = cut(b' ', rest) {
        if !field.is_empty() {
            found.push(field)?;
        }
        rest = others;
    }
    if !rest.is_empty() {
        found.push(rest)?;
    }
    Ok(found)
}

/// Whether the line begins or ends with a space.
pub(crate) fn begins_or_ends_with_space(line: &[u8]) -> bool
    ensures { result ≡ is_padded line.now }
{
    line.first() == Some(&b' ') || line.last() == Some(&b' ')
}

/// Whether the line says nothing: an empty one, or one that begins with `#`.
pub(crate) fn says_nothing(line: &[u8]) -> bool
    ensures { result ≡ is_skipped line.now }
{
    match line {
        [] => true,
        [first, ..] => *first == b'#',
    }
}

/// The number that decimal digits write, or 2^64 - 1 for a greater one.
fn capped_decimal(digits: &[u8]) -> u64
    ensures { result ≡ min (decimal digits.now) (2 ^ 64 - 1) }
{
    let mut number: u64 = 0;
    for digit in digits {
        number = number
            .saturating_mul(10)
            .saturating_add(u64::from(digit.saturating_sub(b'0')));
    }
    number
}

/// Whether each byte is a decimal digit.
fn are_digits(field: &[u8]) -> bool
    ensures { result ≡ list_all is_ascii_digit field.now }
{
    field.iter().all(|b| b.is_ascii_digit())
}

/// Whether the field is 1 to 10 decimal digits.
fn reads_as_number(field: &[u8]) -> bool
    ensures { result ≡ is_number field.now }
{
    !field.is_empty() && field.len() <= 10 && are_digits(field)
}

/// The number that a field says, where it is one and lies in the range.
#[tactic(auto, unfolding(crate::specs::Text::number_in))]
pub(crate) fn number_within(least: u32, most: u32, field: &[u8]) -> Option<u32>
    ensures value { result ≡ number_in least most field.now }
    ensures range { IfSome result (λ number. (least ≤ number) × (number ≤ most)) }
{
    if !reads_as_number(field) {
        return None;
    }
    let number = capped_decimal(field);
    if u64::from(least) <= number && number <= u64::from(most) {
        Some(number as u32)
    } else {
        None
    }
}
