ghost use Rattle.std.specs.Prelude.{◌≡◌, ◌+◌, ◌<◌, ◌^◌, Some, None, Ok, length, map, IfOk, IfErr, IfSome, MatchBool};
ghost use Rattle.std.specs.Str.Lines.{lines};
ghost use Rattle.base16.specs.Readings.{IsReadings};
ghost use Rattle.world.specs.Refusal.{IsRefusalOf};
ghost use Rattle.world.specs.ReadingsFile.{sensed_of, sensed_with, clock_of, reading_of, with_reading, with_reading_line, readings_from, no_reading, readings_of, IsInRange, IsKept};

use crate::entry::{MOST_MS, is_word};
use crate::error::TraceErr;
use crate::readings_draft::ReadingsDraft;
use crate::text::{begins_or_ends_with_space, fields_of, lines_of, number_within, says_nothing};
use crate::trace::MOST_BYTES;
use base16::{NoMemory, Reading, Sequence};
use std::alloc::Global;

/// The most readings of a readings file.
const MOST_READINGS: usize = 65_536;

/// `CHANNEL VALUE` after `sense`.
fn sensed(args: &[&[u8]]) -> Option<Reading>
    ensures value { result ≡ sensed_of (map (λ f. f.now) args.now) }
    ensures range { IfSome result IsInRange }
{
    match args {
        [channel, value] => {
            match (
                number_within(0, 15, channel),
                number_within(0, 65535, value),
            ) {
                (Some(channel), Some(value)) => Some(Reading::Sense {
                    channel: channel as u8,
                    value: value as u16,
                }),
                _ => None,
            }
        }
        _ => None,
    }
}

/// `MS` after `clock`.
fn clock(args: &[&[u8]]) -> Option<Reading>
    ensures value { result ≡ clock_of (map (λ f. f.now) args.now) }
    ensures range { IfSome result IsInRange }
{
    match args {
        [ms] => match number_within(0, MOST_MS, ms) {
            Some(ms) => Some(Reading::Clock { ms }),
            None => None,
        },
        _ => None,
    }
}

/// What the fields of a line say, if they say a reading.
#[tactic(auto, unfolding(crate::specs::ReadingsFile::reading_of))]
fn read_reading(fields: &[&[u8]]) -> Option<Reading>
    ensures value { result ≡ reading_of (map (λ f. f.now) fields.now) }
    ensures range { IfSome result IsInRange }
{
    match fields {
        [] => None,
        [word, args @ ..] => {
            if is_word(word, b"sense") {
                sensed(args)
            } else if is_word(word, b"clock") {
                clock(args)
            } else {
                None
            }
        }
    }
}

/// Takes the value of a sensor.
fn take_sense(draft: &mut ReadingsDraft, channel: u8, value: u16) -> Result<bool, NoMemory>
    requires { channel < 16 }
    ensures kept { IfOk result (λ _. IsKept draft.old → IsKept draft.new) }
    ensures value { IfOk result (λ good. MatchBool good (with_reading draft.old (Reading.Sense channel value) ≡ Some draft.new) ⊥) }
{
    draft.readings.push(Reading::Sense { channel, value })?;
    Ok(true)
}

/// Takes a clock; false where it is below the last one.
fn take_clock(draft: &mut ReadingsDraft, ms: u32) -> Result<bool, NoMemory>
    requires { ms < 2 ^ 31 }
    ensures kept { IfOk result (λ _. IsKept draft.old → IsKept draft.new) }
    ensures value { IfOk result (λ good. MatchBool good
        (with_reading draft.old (Reading.Clock ms) ≡ Some draft.new) (with_reading draft.old (Reading.Clock ms) ≡ None)) }
{
    if ms < draft.clock {
        return Ok(false);
    }
    draft.readings.push(Reading::Clock { ms })?;
    draft.clock = ms;
    Ok(true)
}

/// Takes a reading; false where it is a clock below the last one.
fn take_reading(draft: &mut ReadingsDraft, reading: Reading) -> Result<bool, NoMemory>
    requires { IsInRange reading }
    ensures kept { IfOk result (λ _. IsKept draft.old → IsKept draft.new) }
    ensures value { IfOk result (λ good. MatchBool good (with_reading draft.old reading ≡ Some draft.new) (with_reading draft.old reading ≡ None)) }
{
    match reading {
        Reading::Sense { channel, value } => take_sense(draft, channel, value),
        Reading::Clock { ms } => take_clock(draft, ms),
    }
}

/// Takes a line; false where it is bad.
#[tactic(auto, unfolding(crate::specs::ReadingsFile::with_reading_line))]
fn take_reading_line(
    alloc: Global,
    draft: &mut ReadingsDraft,
    line: &[u8],
) -> Result<bool, NoMemory>
    ensures kept { IfOk result (λ _. IsKept draft.old → IsKept draft.new) }
    ensures value { IfOk result (λ good. MatchBool good
        (with_reading_line draft.old line.now ≡ Some draft.new) (with_reading_line draft.old line.now ≡ None)) }
{
    if says_nothing(line) {
        return Ok(true);
    }
    if begins_or_ends_with_space(line) {
        return Ok(false);
    }
    let fields = fields_of(alloc, line)?;
    match read_reading(fields.as_slice()) {
        Some(reading) => take_reading(draft, reading),
        None => Ok(false),
    }
}

/// The readings that all lines say, or the first bad line.
fn read_reading_lines(alloc: Global, lines: &[&[u8]]) -> Result<ReadingsDraft, TraceErr>
    requires { length lines.now < 2 ^ 32 }
    ensures ok { IfOk result (λ draft. readings_from 1 no_reading (map (λ l. l.now) lines.now) ≡ Ok draft) }
    ensures kept { IfOk result IsKept }
    ensures bad { IfErr result (IsRefusalOf (readings_from 1 no_reading (map (λ l. l.now) lines.now))) }
{
    let mut draft = ReadingsDraft {
        readings: Sequence::new(alloc),
        clock: 0,
    };
    for (i, line) in lines.iter().enumerate() {
        if !take_reading_line(alloc, &mut draft, line)? {
            return Err(TraceErr::BadLine { line: i as u32 + 1 });
        }
    }
    Ok(draft)
}

/// Reads a readings file of less than 2^32 lines. A refusal names the first line that is not in the form of a readings
/// file; where no line is bad it says that a total is passed.
#[tactic(auto, unfolding(crate::specs::ReadingsFile::readings_of))]
pub fn parse_readings(alloc: Global, text: &[u8]) -> Result<Vec<Reading>, TraceErr>
    requires { length (lines text.now) < 2 ^ 32 }
    ensures ok { IfOk result (λ readings. readings_of text.now ≡ Ok readings.items) }
    ensures readings { IfOk result (λ readings. IsReadings readings.items) }
    ensures refused { IfErr result (IsRefusalOf (readings_of text.now)) }
{
    let lines = lines_of(alloc, text)?;
    let draft = read_reading_lines(alloc, lines.as_slice())?;
    if text.len() > MOST_BYTES || draft.readings.len() > MOST_READINGS {
        return Err(TraceErr::TooLong);
    }
    Ok(draft.readings.into_vec())
}
