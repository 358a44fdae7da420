ghost use Rattle.std.specs.Prelude.{◌≡◌, IfOk, IfSome, Some, None, map};
ghost use Rattle.std.specs.Str.{bytes_eq};
ghost use Rattle.world.specs.TraceFile.{start_of, rate_of, period_of, values_of, sense_of, sense_with, cycle_of, cycle_with, entry_of, IsRanged};

use crate::text::number_within;
use base16::{NoMemory, Sequence};
use std::alloc::Global;

/// The greatest number of milliseconds, and of a clock.
pub(crate) const MOST_MS: u32 = 2_147_483_647;

/// The most ticks of a power cycle, a millisecond and a period, and of all cycles.
pub(crate) const MOST_TICKS: u32 = 4_000_000;

/// The most power cycles.
pub(crate) const MOST_CYCLES: u32 = 10_000;

/// A line that continues the values of a sensor channel.
#[derive(Drop)]
pub(crate) struct SenseLine {
    pub channel: u8,
    pub values: Sequence<u16>,
}

/// A line that stands for equal power cycles.
#[derive(Clone, Copy)]
pub(crate) struct CycleLine {
    pub ticks: u32,
    pub off: u32,
    pub count: u32,
}

/// What a line of a trace says.
#[derive(Drop)]
pub(crate) enum Entry {
    Start(u32),
    Rate(u32),
    Period(u32),
    Sense(SenseLine),
    Cycle(CycleLine),
}

/// Whether the field is this word.
pub(crate) fn is_word(field: &[u8], word: &[u8]) -> bool
    ensures { result ≡ bytes_eq field.now word.now }
{
    field == word
}

/// `MS` after `start`.
fn start(args: &[&[u8]]) -> Option<Entry>
    ensures value { result ≡ start_of (map (λ f. f.now) args.now) }
    ensures ranged { IfSome result IsRanged }
{
    match args {
        [ms] => match number_within(0, MOST_MS, ms) {
            Some(ms) => Some(Entry::Start(ms)),
            None => None,
        },
        _ => None,
    }
}

/// `TICKS` after `rate`.
fn rate(args: &[&[u8]]) -> Option<Entry>
    ensures value { result ≡ rate_of (map (λ f. f.now) args.now) }
    ensures ranged { IfSome result IsRanged }
{
    match args {
        [ticks] => match number_within(1, MOST_TICKS, ticks) {
            Some(ticks) => Some(Entry::Rate(ticks)),
            None => None,
        },
        _ => None,
    }
}

/// `TICKS` after `period`.
fn period(args: &[&[u8]]) -> Option<Entry>
    ensures value { result ≡ period_of (map (λ f. f.now) args.now) }
    ensures ranged { IfSome result IsRanged }
{
    match args {
        [ticks] => match number_within(1, MOST_TICKS, ticks) {
            Some(ticks) => Some(Entry::Period(ticks)),
            None => None,
        },
        _ => None,
    }
}

/// The values of a sensor line, if each of them is one.
fn values(alloc: Global, args: &[&[u8]]) -> Result<Option<Sequence<u16>>, NoMemory>
    ensures { IfOk result (λ values. values ≡ values_of (map (λ f. f.now) args.now)) }
{
    let mut values = Sequence::new(alloc);
    for field in args {
        match number_within(0, 65535, field) {
            Some(value) => values.push(value as u16)?,
            None => return Ok(None),
        }
    }
    Ok(Some(values))
}

/// `VALUE ..` after a channel.
fn sense_on(alloc: Global, args: &[&[u8]], channel: u8) -> Result<Option<Entry>, NoMemory>
    ensures value { IfOk result (λ entry. entry ≡ sense_with (map (λ f. f.now) args.now) channel) }
    ensures ranged { IfOk result (λ entry. IfSome entry IsRanged) }
{
    match values(alloc, args)? {
        Some(values) => Ok(Some(Entry::Sense(SenseLine { channel, values }))),
        None => Ok(None),
    }
}

/// `CHANNEL VALUE ..` after `sense`.
fn sense(alloc: Global, args: &[&[u8]]) -> Result<Option<Entry>, NoMemory>
    ensures value { IfOk result (λ entry. entry ≡ sense_of (map (λ f. f.now) args.now)) }
    ensures ranged { IfOk result (λ entry. IfSome entry IsRanged) }
{
    match args {
        [channel, values @ ..] if !values.is_empty() => match number_within(0, 15, channel) {
            Some(channel) => sense_on(alloc, values, channel as u8),
            None => Ok(None),
        },
        _ => Ok(None),
    }
}

/// A line of power cycles, if each of its numbers is one.
fn cycle_line(ticks: Option<u32>, off: Option<u32>, count: Option<u32>) -> Option<Entry>
    ensures value { result ≡ cycle_with ticks off count }
    ensures ranged { IfSome result IsRanged }
{
    match (ticks, off, count) {
        (Some(ticks), Some(off), Some(count)) => {
            Some(Entry::Cycle(CycleLine { ticks, off, count }))
        }
        _ => None,
    }
}

/// `TICKS OFF [COUNT]` after `cycle`.
fn cycle(args: &[&[u8]]) -> Option<Entry>
    ensures value { result ≡ cycle_of (map (λ f. f.now) args.now) }
    ensures ranged { IfSome result IsRanged }
{
    match args {
        [ticks, off] => cycle_line(
            number_within(0, MOST_TICKS, ticks),
            number_within(0, MOST_MS, off),
            Some(1),
        ),
        [ticks, off, count] => cycle_line(
            number_within(0, MOST_TICKS, ticks),
            number_within(0, MOST_MS, off),
            number_within(1, MOST_CYCLES, count),
        ),
        _ => None,
    }
}

/// What the fields of a line say, if they say something.
#[tactic(auto, unfolding(crate::specs::TraceFile::entry_of))]
pub(crate) fn read_entry(alloc: Global, fields: &[&[u8]]) -> Result<Option<Entry>, NoMemory>
    ensures value { IfOk result (λ entry. entry ≡ entry_of (map (λ f. f.now) fields.now)) }
    ensures ranged { IfOk result (λ entry. IfSome entry IsRanged) }
{
    match fields {
        [] => Ok(None),
        [word, args @ ..] => {
            if is_word(word, b"start") {
                Ok(start(args))
            } else if is_word(word, b"rate") {
                Ok(rate(args))
            } else if is_word(word, b"period") {
                Ok(period(args))
            } else if is_word(word, b"sense") {
                sense(alloc, args)
            } else if is_word(word, b"cycle") {
                Ok(cycle(args))
            } else {
                Ok(None)
            }
        }
    }
}
