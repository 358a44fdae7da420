ghost use Rattle.std.specs.Prelude.{◌≡◌, ◌<◌, ◌*◌, ◌-◌, ◌^◌, ◌++◌, min, IfOk, OnErr, map, length, replicate, sum_by};
ghost use Rattle.world.specs.TraceFile.{channel_of, channels_below, copies_of, cycles_of};

use crate::cycle::PowerCycle;
use crate::entry::{CycleLine, MOST_CYCLES, MOST_TICKS, SenseLine};
use base16::{NoMemory, Sequence};
use std::alloc::Global;

/// The most sensor values.
const MOST_VALUES: u64 = 65_536;

/// What the clock stays below, in milliseconds.
const CLOCK_END: u64 = 2_147_483_648;

/// How many sensor channels there are.
const CHANNELS: u8 = 16;

/// What the lines of a trace have said so far.
#[derive(Drop)]
pub(crate) struct Draft {
    /// Whether the first line came.
    pub begun: bool,
    pub start: Option<u32>,
    pub rate: Option<u32>,
    pub period: Option<u32>,
    pub senses: Sequence<SenseLine>,
    pub cycles: Sequence<CycleLine>,
}

/// How many cycles the lines stand for, or 2^64 - 1 for more.
fn capped_cycles(lines: &[CycleLine]) -> u64
    ensures { result ≡ min (sum_by (λ c. c.count) lines.now) (2 ^ 64 - 1) }
{
    let mut total: u64 = 0;
    for line in lines {
        total = total.saturating_add(u64::from(line.count));
    }
    total
}

/// How many ticks the lines stand for, or 2^64 - 1 for more.
fn capped_ticks(lines: &[CycleLine]) -> u64
    ensures { result ≡ min (sum_by (λ c. c.ticks * c.count) lines.now) (2 ^ 64 - 1) }
{
    let mut total: u64 = 0;
    for line in lines {
        let ticks = u64::from(line.ticks).saturating_mul(u64::from(line.count));
        total = total.saturating_add(ticks);
    }
    total
}

/// The off times that the lines stand for, or 2^64 - 1 for more.
fn capped_off(lines: &[CycleLine]) -> u64
    ensures { result ≡ min (sum_by (λ c. c.off * c.count) lines.now) (2 ^ 64 - 1) }
{
    let mut total: u64 = 0;
    for line in lines {
        let off = u64::from(line.off).saturating_mul(u64::from(line.count));
        total = total.saturating_add(off);
    }
    total
}

/// How many values the lines give, or 2^64 - 1 for more.
fn capped_values(lines: &[SenseLine]) -> u64
    ensures { result ≡ min (sum_by (λ s. length s.values) lines.now) (2 ^ 64 - 1) }
{
    let mut total: u64 = 0;
    for line in lines {
        total = total.saturating_add(line.values.len() as u64);
    }
    total
}

impl Draft {
    ghost use Rattle.world.specs.TraceFile.{start_clock, ticks_in_ms, is_within, HasRanges};

    /// The clock at the beginning in milliseconds.
    pub fn start_clock(&self) -> u32
        ensures { result ≡ start_clock self.now }
    {
        self.start.unwrap_or(0)
    }

    /// The ticks in a millisecond.
    pub fn ticks_in_ms(&self) -> u32
        requires { HasRanges self.now }
        ensures value { result ≡ ticks_in_ms self.now }
        ensures positive { 0 < result }
    {
        self.rate.unwrap_or(1000)
    }

    /// Whether no total is passed.
    pub fn is_within_limits(&self) -> bool
        requires { HasRanges self.now }
        ensures { result ≡ is_within self.now }
    {
        let cycles = capped_cycles(self.cycles.as_slice());
        let ticks = capped_ticks(self.cycles.as_slice());
        let off = capped_off(self.cycles.as_slice());
        let values = capped_values(self.senses.as_slice());
        if cycles > u64::from(MOST_CYCLES)
            || ticks > u64::from(MOST_TICKS)
            || values > MOST_VALUES
        {
            return false;
        }
        let clock = u64::from(self.start_clock()) + ticks / u64::from(self.ticks_in_ms());
        clock.saturating_add(off) < CLOCK_END
    }
}

/// The values of a channel, those of all its lines one after another.
fn channel_values(alloc: Global, lines: &[SenseLine], channel: u8) -> Result<Vec<u16>, NoMemory>
    ensures { IfOk result (λ values. values.items ≡ channel_of lines.now channel) }
{
    let mut values = Vec::new(alloc);
    for line in lines {
        if line.channel == channel {
            values.extend_from_slice(line.values.as_slice())?;
        }
    }
    Ok(values)
}

/// The values of each channel.
#[tactic(auto, unfolding(crate::specs::TraceFile::channels_below))]
pub(crate) fn channels(alloc: Global, lines: &[SenseLine]) -> Result<Vec<Vec<u16>>, NoMemory>
    ensures { IfOk result (λ channels. map (λ c. c.items) channels.items ≡ channels_below 16 lines.now) }
{
    let mut channels = Vec::new(alloc);
    for channel in 0..CHANNELS {
        channels.push(channel_values(alloc, lines, channel)?)?;
    }
    Ok(channels)
}

/// Adds the cycles that a line stands for.
fn push_copies(cycles: &mut Vec<PowerCycle>, line: &CycleLine) -> Result<(), NoMemory>
    ensures { IfOk result (λ _. cycles.new.items ≡ cycles.old.items ++ copies_of line.now) }
{
    let cycle = PowerCycle {
        ticks: line.ticks,
        off: line.off,
    };
    for _ in 0..line.count {
        cycles.push(cycle)?;
    }
    Ok(())
}

/// The cycles that all lines stand for.
pub(crate) fn cycles(alloc: Global, lines: &[CycleLine]) -> Result<Vec<PowerCycle>, NoMemory>
    ensures { IfOk result (λ cycles. cycles.items ≡ cycles_of lines.now) }
{
    let mut cycles = Vec::new(alloc);
    for line in lines {
        push_copies(&mut cycles, line)?;
    }
    Ok(cycles)
}
