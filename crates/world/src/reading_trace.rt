ghost use Rattle.std.specs.Prelude.{◌≡◌, ◌+◌, ◌<◌, ◌^◌, Some, None, Ok, length, map, IfOk, IfErr, MatchBool, true, is_some};
ghost use Rattle.std.specs.Str.Lines.{lines};
ghost use Rattle.world.specs.Refusal.{IsRefusalOf};
ghost use Rattle.world.specs.TraceFile.{is_first, with_start, with_rate, with_period, with_entry, with_fields, with_line, read_from, no_line, IsRanged, HasRanges};

use crate::draft::Draft;
use crate::entry::{Entry, is_word, read_entry};
use crate::error::TraceErr;
use crate::text::{begins_or_ends_with_space, fields_of, lines_of, says_nothing};
use base16::{NoMemory, Sequence};
use std::alloc::Global;

/// Takes the number of a line that may be said once; false where it was said before.
fn set_once(place: &mut Option<u32>, number: u32) -> bool
    ensures { MatchBool result ((place.old ≡ None) × (place.new ≡ Some number)) ((is_some place.old ≡ true) × (place.new ≡ place.old)) }
{
    match place {
        Some(_) => false,
        None => {
            *place = Some(number);
            true
        }
    }
}

/// Takes what a line says; false where it says a second time what may be said once.
fn take_entry(draft: &mut Draft, entry: Entry) -> Result<bool, NoMemory>
    requires { IsRanged entry }
    ensures ranged { IfOk result (λ good. HasRanges draft.old → HasRanges draft.new) }
    ensures value { IfOk result (λ good. MatchBool good (with_entry draft.old entry ≡ Some draft.new) (with_entry draft.old entry ≡ None)) }
{
    match entry {
        Entry::Start(ms) => Ok(set_once(&mut draft.start, ms)),
        Entry::Rate(ticks) => Ok(set_once(&mut draft.rate, ticks)),
        Entry::Period(ticks) => Ok(set_once(&mut draft.period, ticks)),
        Entry::Sense(line) => {
            draft.senses.push(line)?;
            Ok(true)
        }
        Entry::Cycle(line) => {
            draft.cycles.push(line)?;
            Ok(true)
        }
    }
}

/// Whether the fields are those of the first line.
fn begins_trace(fields: &[&[u8]]) -> bool
    ensures { result ≡ is_first (map (λ f. f.now) fields.now) }
{
    match fields {
        [word, version] => is_word(word, b"tics-trace") && is_word(version, b"1"),
        _ => false,
    }
}

/// Takes the fields of a line; false where the line is bad.
#[tactic(auto, unfolding(crate::specs::TraceFile::with_fields))]
fn take_fields(alloc: Global, draft: &mut Draft, fields: &[&[u8]]) -> Result<bool, NoMemory>
    ensures ranged { IfOk result (λ good. HasRanges draft.old → HasRanges draft.new) }
    ensures value { IfOk result (λ good. MatchBool good
        (with_fields draft.old (map (λ f. f.now) fields.now) ≡ Some draft.new)
        (with_fields draft.old (map (λ f. f.now) fields.now) ≡ None)) }
{
    if !draft.begun {
        draft.begun = begins_trace(fields);
        return Ok(draft.begun);
    }
    match read_entry(alloc, fields)? {
        Some(entry) => take_entry(draft, entry),
        None => Ok(false),
    }
}

/// Takes a line; false where it is bad.
#[tactic(auto, unfolding(crate::specs::TraceFile::with_line))]
fn take_line(alloc: Global, draft: &mut Draft, line: &[u8]) -> Result<bool, NoMemory>
    ensures ranged { IfOk result (λ good. HasRanges draft.old → HasRanges draft.new) }
    ensures value { IfOk result (λ good. MatchBool good (with_line draft.old line.now ≡ Some draft.new) (with_line draft.old line.now ≡ None)) }
{
    if says_nothing(line) {
        return Ok(true);
    }
    if begins_or_ends_with_space(line) {
        return Ok(false);
    }
    let fields = fields_of(alloc, line)?;
    take_fields(alloc, draft, fields.as_slice())
}

/// What all lines say, or the first bad one.
fn read_lines(alloc: Global, lines: &[&[u8]]) -> Result<Draft, TraceErr>
    requires { length lines.now < 2 ^ 32 }
    ensures ok { IfOk result (λ draft. read_from 1 no_line (map (λ l. l.now) lines.now) ≡ Ok draft) }
    ensures ranged { IfOk result HasRanges }
    ensures bad { IfErr result (IsRefusalOf (read_from 1 no_line (map (λ l. l.now) lines.now))) }
{
    let mut draft = Draft {
        begun: false,
        start: None,
        rate: None,
        period: None,
        senses: Sequence::new(alloc),
        cycles: Sequence::new(alloc),
    };
    for (i, line) in lines.iter().enumerate() {
        if !take_line(alloc, &mut draft, line)? {
            return Err(TraceErr::BadLine { line: i as u32 + 1 });
        }
    }
    if draft.begun {
        Ok(draft)
    } else {
        Err(TraceErr::BadLine { line: 1 })
    }
}

/// What a text says, or its first bad line.
pub(crate) fn read_draft(alloc: Global, text: &[u8]) -> Result<Draft, TraceErr>
    requires { length (lines text.now) < 2 ^ 32 }
    ensures ok { IfOk result (λ draft. read_from 1 no_line (lines text.now) ≡ Ok draft) }
    ensures ranged { IfOk result HasRanges }
    ensures bad { IfErr result (IsRefusalOf (read_from 1 no_line (lines text.now))) }
{
    let lines = lines_of(alloc, text)?;
    read_lines(alloc, lines.as_slice())
}
