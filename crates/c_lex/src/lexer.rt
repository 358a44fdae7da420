//! The tokens of a source.
ghost use Rattle.std.specs.Prelude.{◌≡◌, ◌≢◌, ◌<◌, ◌≤◌, ◌+◌, ◌-◌, ◌++◌, ◌^◌, ℕ, List, Ok, Err, length, IfOk, IfErr, MatchResult};
ghost use Rattle.c_lex.specs.declared.token.Token.{Token as AToken};
ghost use Rattle.c_lex.specs.declared.item.LexErr.TheVariants as err;
ghost use Rattle.c_lex.specs.declared.item.LexErr.{LexErr as ALexErr};
ghost use Rattle.c_lex.specs.Spelling.{AreKeywordsRead, AreNotesRead, AreMarksRead};
ghost use Rattle.c_lex.specs.Tokens as spec;
ghost use Rattle.c_lex.specs.Measures as measure;

use crate::bytes::is_blank;
use crate::item::{Fault, Item, LexErr};
use crate::pieces::{piece, piece_len};
use crate::token::Token;
use base16::NoMemory;
use std::alloc::{AllocFailed, Global};

impl From<NoMemory> for LexErr {
    ghost from_gives = { λ _ e. e ≡ err.NoMemory };

    fn from(_: NoMemory) -> LexErr {
        LexErr::NoMemory
    }
}

impl<T: Drop> From<AllocFailed<T>> for LexErr {
    ghost from_gives = { λ _ e. e ≡ err.NoMemory };

    fn from(_: AllocFailed<T>) -> LexErr {
        LexErr::NoMemory
    }
}

/// How a piece at a place that is no token is answered.
fn refusal(fault: Fault, at: u32) -> LexErr
    ensures { result ≡ spec.refusal fault at }
{
    match fault {
        Fault::OpenComment => LexErr::OpenComment { at },
        Fault::BadNumber => LexErr::BadNumber { at },
        Fault::BadChar => LexErr::BadChar { at },
    }
}

/// How many line feeds there are.
fn line_feeds(text: &[u8]) -> usize
    ensures value { result ≡ spec.line_feeds text.now }
    ensures within { result ≤ length text.now }
{
    text.iter().filter(|b| **b == b'\n').count()
}

/// The line of a place of a source, from 1.
pub fn line_at(source: &[u8], at: u32) -> u32
    requires { length source.now < 2 ^ 32 - 1 }
    ensures { result ≡ spec.line_at source.now at }
{
    let front = &source[..source.len().min(at as usize)];
    line_feeds(front) as u32 + 1
}

/// The line of the token of this number, from 0; past the last token the last one's line; 1 where there are no tokens.
pub fn line_of_token(tokens: &[Token], number: u32) -> u32
    ensures { result ≡ spec.line_of_token tokens.now number }
{
    let last = tokens.len().saturating_sub(1);
    match tokens.get(last.min(number as usize)) {
        Some(token) => token.line,
        None => 1,
    }
}

/// Whether a line has nothing but blanks behind these bytes, which begin in a line that is so or not.
fn blank_after(before: bool, text: &[u8]) -> bool
    ensures { result ≡ spec.blank_after before text.now }
{
    let mut blank = before;
    for b in text {
        blank = *b == b'\n' || (blank && is_blank(*b));
    }
    blank
}

/// Keeps a token; a piece that is none is answered.
fn keep(
    found: &mut Vec<Token>,
    item: Option<Item>,
    start: u32,
    end: u32,
    line: u32,
) -> Result<(), LexErr>
    ensures kept { MatchResult result (λ _. measure.kept item start end line found.old.items ≡ Ok found.new.items)
        (λ fault. fault ≢ err.NoMemory → measure.kept item start end line found.old.items ≡ Err fault) }
{
    match item {
        Some(Item::Skip) => Ok(()),
        Some(Item::Token(kind)) => {
            found.push(Token {
                kind,
                start,
                end,
                line,
            })?;
            Ok(())
        }
        Some(Item::Bad(fault)) => Err(refusal(fault, start)),
        None => Err(LexErr::BadByte { at: start }),
    }
}

fn read(alloc: Global, source: &[u8]) -> Result<Vec<Token>, LexErr>
    requires { length source.now < 2 ^ 32 }
    ensures tokens { IfOk result (λ found. spec.Lexes source.now 0 found.items) }
    ensures refused { IfErr result (λ fault. fault ≢ err.NoMemory → spec.Refuses source.now 0 fault) }
{
    let mut found = Vec::new(alloc);
    let mut at = 0;
    let mut lines = 0;
    let mut fresh = true;
    while at < source.len() {
        let text = &source[at..];
        let n = piece_len(fresh, text);
        let front = &text[..n];
        let item = piece(alloc, fresh, front)?;
        keep(
            &mut found,
            item,
            at as u32,
            (at + n) as u32,
            (lines + 1) as u32,
        )?;
        lines += line_feeds(front);
        fresh = blank_after(fresh, front);
        at += n;
    }
    Ok(found)
}

/// The tokens of a source of fewer than 2^32 bytes (C99 6.4), each with its span and its line, or the first place
/// where there is none.
/// At each place the longest piece is taken; blanks, comments and line markers are skipped.
pub fn lex(alloc: Global, source: &[u8]) -> Result<Vec<Token>, LexErr>
    requires { length source.now < 2 ^ 32 }
    // The source is these tokens.
    ensures tokens { IfOk result (λ found. spec.Lexes source.now 0 found.items) }
    // What the source is, is answered, unless memory runs out.
    ensures only_tokens { (ts : List AToken) → spec.Lexes source.now 0 ts
        → MatchResult result (λ found. found.items ≡ ts) (λ fault. fault ≡ err.NoMemory) }

    // A fault stands at the first place where the source is no tokens.
    ensures refused { IfErr result (λ fault. fault ≢ err.NoMemory → spec.Refuses source.now 0 fault) }
    // Where there is such a place, it is answered, unless memory runs out.
    ensures only_refusal { (e : ALexErr) → spec.Refuses source.now 0 e
        → MatchResult result (λ _. ⊥) (λ fault. fault ≢ err.NoMemory → fault ≡ e) }

    // The spans are within the source and in order, each text is the slice of its source, each line is that of the first byte.
    ensures in_order { IfOk result (λ found. spec.InOrder source.now 0 found.items) }
    ensures slices { IfOk result (λ found. spec.AreSlices source.now found.items) }
    ensures counted { IfOk result (λ found. spec.AreCounted source.now found.items) }
{
    read(alloc, source)
}

/// Each source is one list of tokens or has one refusal, and none has both.
pub fn each_source_is_read_in_one_way()
    ensures one_list { (source : List ℕ) (ts us : List AToken) → spec.Lexes source 0 ts → spec.Lexes source 0 us → ts ≡ us }
    ensures one_refusal { (source : List ℕ) (e f : ALexErr) → spec.Refuses source 0 e → spec.Refuses source 0 f → e ≡ f }
    ensures not_both { (source : List ℕ) (ts : List AToken) (e : ALexErr) → spec.Lexes source 0 ts → spec.Refuses source 0 e → ⊥ }
    ensures decided { (source : List ℕ) → spec.IsDecided source 0 }
{}

/// Each keyword, annotation and mark is what its own text is read as.
pub fn each_spelling_is_read()
    ensures keywords { AreKeywordsRead }
    ensures notes { AreNotesRead }
    ensures marks { AreMarksRead }
{}
