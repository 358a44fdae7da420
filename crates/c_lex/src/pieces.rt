//! What bytes are as one piece, and the length of the longest piece in front of a text.
ghost use Rattle.std.specs.Prelude.{◌≡◌, ◌<◌, ◌≤◌, ◌∷◌, length, min, IfOk, MatchOption, ⊤, if◌then◌else◌};
ghost use Rattle.std.specs.List.{list_all};
ghost use Rattle.c_lex.specs.Bytes as bytes_spec;
ghost use Rattle.c_lex.specs.Pieces as spec;
ghost use Rattle.c_lex.specs.Measures as measure;
ghost use Rattle.c_lex.specs.Spelling.{note_of, mark_of};

use crate::bytes::{
    blank_len, continues, in_line, is_blank, is_digit, is_letter, is_line_blank, line_len, word_len,
};
use crate::item::{Fault, Item};
use crate::numbers::{number, quoted};
use crate::spelling::{keyword_of, mark_of, note_of};
use crate::token::TokenKind;
use base16::{Name, NoMemory};
use std::alloc::Global;

fn all_continue(text: &[u8]) -> bool
    ensures { result ≡ list_all bytes_spec.continues text.now }
{
    text.iter().all(|b| continues(*b))
}

fn all_blank(text: &[u8]) -> bool
    ensures { result ≡ list_all bytes_spec.is_blank text.now }
{
    text.iter().all(|b| is_blank(*b))
}

fn all_in_line(text: &[u8]) -> bool
    ensures { result ≡ list_all bytes_spec.in_line text.now }
{
    text.iter().all(|b| in_line(*b))
}

/// A keyword or a name.
fn word(alloc: Global, text: &[u8]) -> Result<TokenKind, NoMemory>
    ensures { IfOk result (λ kind. kind ≡ spec.word text.now) }
{
    match keyword_of(text) {
        Some(keyword) => Ok(TokenKind::Keyword(keyword)),
        None => Ok(TokenKind::Word(Name::new(alloc, text)?)),
    }
}

fn note_item(text: &[u8]) -> Option<Item>
    ensures { result ≡ spec.note_item (note_of text.now) }
{
    match note_of(text) {
        Some(note) => Some(Item::Token(TokenKind::Note(note))),
        None => None,
    }
}

fn mark_item(text: &[u8]) -> Option<Item>
    ensures { result ≡ spec.mark_item (mark_of text.now) }
{
    match mark_of(text) {
        Some(mark) => Some(Item::Token(TokenKind::Mark(mark))),
        None => None,
    }
}

/// A character constant, an annotation or a mark.
#[tactic(auto, unfolding(crate::specs::Pieces::short))]
fn short(text: &[u8]) -> Option<Item>
    ensures { result ≡ spec.short text.now }
{
    match text {
        [] => None,
        [b'\'', more @ ..] => quoted(more),
        [b'@', ..] => note_item(text),
        _ => mark_item(text),
    }
}

/// Whether two bytes end a comment.
fn ends_here(last: u8, b: u8) -> bool
    ensures { result ≡ spec.ends_here last b }
{
    last == b'*' && b == b'/'
}

/// How many bytes of a comment there are behind its `/*`, or nothing where it has no end.
#[tactic(auto, using(crate::proofs::Closing::close_more, crate::proofs::Closing::close_stops, crate::proofs::Closing::close_ends))]
fn close(text: &[u8]) -> Option<usize>
    ensures value { result ≡ spec.close 0 text.now }
    ensures within { MatchOption result ⊤ (λ n. n ≤ length text.now) }
{
    let mut last = 0;
    for (i, b) in text.iter().enumerate() {
        if ends_here(last, *b) {
            return Some(i + 1);
        }
        last = *b;
    }
    None
}

/// What a `/*` and these bytes are.
fn comment(text: &[u8]) -> Option<Item>
    ensures { result ≡ spec.comment (spec.close 0 text.now) (length text.now) }
{
    match close(text) {
        None => Some(Item::Bad(Fault::OpenComment)),
        Some(n) => {
            if n == text.len() {
                Some(Item::Skip)
            } else {
                None
            }
        }
    }
}

fn skip_if(all: bool) -> Option<Item>
    ensures { result ≡ (if all then Some Item.Skip else None) }
{
    if all { Some(Item::Skip) } else { None }
}

/// What a `/` and more bytes are; `text` begins with the `/`.
fn slash(text: &[u8], more: &[u8]) -> Option<Item>
    requires { text.now ≡ 47 ∷ more.now }
    ensures { result ≡ spec.slash more.now }
{
    match more {
        [b'*', rest @ ..] => comment(rest),
        [b'/', rest @ ..] => skip_if(all_in_line(rest)),
        _ => short(text),
    }
}

/// Whether blanks and then a decimal digit stand in front.
#[tactic(auto, using(crate::proofs::Closing::follows_more, crate::proofs::Closing::follows_here, crate::proofs::Closing::follows_stops, crate::proofs::Closing::follows_ends))]
fn digit_follows(text: &[u8]) -> bool
    ensures { result ≡ spec.digit_follows text.now }
{
    for b in text {
        if is_digit(*b) {
            return true;
        }
        if !is_line_blank(*b) {
            return false;
        }
    }
    false
}

/// What a `#` and these bytes are, behind a line that is blank so far or not.
fn marker(fresh: bool, text: &[u8]) -> Option<Item>
    ensures { result ≡ spec.marker fresh text.now }
{
    skip_if(fresh && digit_follows(text) && all_in_line(text))
}

/// What the bytes are, all of them as one piece, behind a line that is blank so far or not.
#[tactic(auto, unfolding(crate::specs::Pieces::piece))]
pub fn piece(alloc: Global, fresh: bool, text: &[u8]) -> Result<Option<Item>, NoMemory>
    ensures { IfOk result (λ found. found ≡ spec.piece fresh text.now) }
{
    let [a, more @ ..] = text else {
        return Ok(None);
    };
    if is_letter(*a) {
        if !all_continue(more) {
            return Ok(None);
        }
        return Ok(Some(Item::Token(word(alloc, text)?)));
    }
    if is_digit(*a) {
        if !all_continue(more) {
            return Ok(None);
        }
        return Ok(Some(number(text)));
    }
    if is_blank(*a) {
        return Ok(skip_if(all_blank(more)));
    }
    Ok(match *a {
        b'#' => marker(fresh, more),
        b'/' => slash(text, more),
        _ => short(text),
    })
}

/// How many bytes a character constant, an annotation or a mark has at most, by its first one.
fn most(a: u8) -> usize
    ensures { result ≡ measure.most a }
{
    match a {
        b'\'' => 6,
        b'@' => 14,
        _ => 3,
    }
}

fn is_short(text: &[u8]) -> bool
    ensures { result ≡ measure.is_short text.now }
{
    short(text).is_some()
}

/// The length of the longest character constant, annotation or mark in front, and 0 without one.
#[tactic(auto, unfolding(crate::specs::Measures::short_len), using(crate::proofs::Closing::greatest_here, crate::proofs::Closing::greatest_below, crate::proofs::Closing::greatest_none))]
fn short_len(text: &[u8]) -> usize
    ensures value { result ≡ measure.short_len text.now }
    ensures within { result ≤ length text.now }
{
    let [a, ..] = text else {
        return 0;
    };
    let mut n = most(*a).min(text.len());
    while n > 0 && !is_short(&text[..n]) {
        n -= 1;
    }
    n
}

/// The length of the longest piece that is `/` and more bytes; `text` begins with the `/`.
#[tactic(auto, unfolding(crate::specs::Measures::slash_len))]
fn slash_len(text: &[u8], more: &[u8]) -> usize
    requires { text.now ≡ 47 ∷ more.now }
    ensures value { result ≡ measure.slash_len more.now }
    ensures within { result ≤ length text.now }
{
    match more {
        [b'*', rest @ ..] => 2 + close(rest).unwrap_or(rest.len()),
        [b'/', rest @ ..] => 2 + line_len(rest),
        _ => short_len(text),
    }
}

/// The length of the longest piece in front, and 0 where none begins.
#[tactic(auto, unfolding(crate::specs::Measures::piece_len))]
pub fn piece_len(fresh: bool, text: &[u8]) -> usize
    ensures value { result ≡ measure.piece_len fresh text.now }
    ensures within { result ≤ length text.now }
{
    let [a, more @ ..] = text else {
        return 0;
    };
    if is_letter(*a) || is_digit(*a) {
        return 1 + word_len(more);
    }
    if is_blank(*a) {
        return 1 + blank_len(more);
    }
    match *a {
        b'#' => {
            if fresh && digit_follows(more) {
                1 + line_len(more)
            } else {
                0
            }
        }
        b'/' => slash_len(text, more),
        _ => short_len(text),
    }
}
