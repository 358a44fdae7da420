ghost use Rattle.std.specs.Prelude.{◌≡◌, ◌<◌, ◌≤◌, ◌^◌, Some, Ok, length, IfOk, IfErr, IsTrue};
ghost use Rattle.std.specs.Str.Lines.{lines};
ghost use Rattle.world.specs.Plan.{ticks_of};
ghost use Rattle.world.specs.Refusal.{IsRefusalOf};
ghost use Rattle.world.specs.TraceWorld.{value_at};
ghost use Rattle.world.specs.TraceFile.{trace_of, plan_of, is_within, HasRanges};

use crate::cycle::PowerCycle;
use crate::draft::{Draft, channels, cycles};
use crate::error::TraceErr;
use crate::reading_trace::read_draft;
use base16::NoMemory;
use std::alloc::Global;
use std::marker::Model;

/// The most bytes of a trace or a readings file.
pub(crate) const MOST_BYTES: usize = 1_048_576;

/// What a trace says of the outside: the clock at the beginning, the power cycles and the sensor values.
#[derive(Drop)]
pub struct Trace {
    pub(crate) start: u32,
    pub(crate) rate: u32,
    pub(crate) period: u32,
    pub(crate) channels: Vec<Vec<u16>>,
    pub(crate) cycles: Vec<PowerCycle>,
}

impl Model for Trace {
    ghost use Rattle.std.specs.Prelude.{map};
    ghost use Rattle.world.specs.Plan.{Plan, IsPlan};

    ghost Value = { Plan };

    ghost view = { λ t. record { start = t.start; rate = t.rate; period = t.period; channels = map (λ c. c.items) t.channels.items; cycles = t.cycles.items } };

    ghost invariant = { λ t. IsPlan (record { start = t.start; rate = t.rate; period = t.period; channels = map (λ c. c.items) t.channels.items; cycles = t.cycles.items }) };
}

impl Trace {
    ghost use Rattle.std.specs.Prelude.{◌-◌, ◌+◌, slice_get, take};
    ghost use Rattle.world.specs.Plan.{IsPlan, ticks_of, off_of};
    ghost use Rattle.world.specs.TraceWorld.{values_of, value_at};

    /// The clock at the beginning in milliseconds, below 2^31.
    pub(crate) fn start(&self) -> u32
        ensures value { result ≡ (self.now).start }
        ensures plan { IsPlan self.now }
    {
        self.start
    }

    /// The ticks in a millisecond, 1 to 4,000,000.
    pub(crate) fn rate(&self) -> u32
        ensures { result ≡ (self.now).rate }
    {
        self.rate
    }

    /// The ticks between two checkpoints that the user asks for, 1 to 4,000,000.
    pub(crate) fn period(&self) -> u32
        ensures { result ≡ (self.now).period }
    {
        self.period
    }

    /// How many power cycles there are, at most 10,000.
    pub(crate) fn cycle_count(&self) -> u32
        ensures { result ≡ length (self.now).cycles }
    {
        self.cycles.len() as u32
    }

    /// A power cycle, by its place from 0.
    pub(crate) fn cycle(&self, place: u32) -> PowerCycle
        requires { place < length (self.now).cycles }
        ensures { slice_get (self.now).cycles place ≡ Some result }
    {
        self.cycles[place as usize]
    }

    /// The off time of the last of the cycles that have begun, or 0 before the first one, in milliseconds.
    #[tactic(auto, using(crate::proofs::TraceWorldLemmas::off_last))]
    pub(crate) fn off_behind(&self, begun: u32) -> u32
        requires { begun ≤ length (self.now).cycles }
        ensures { off_of (take begun (self.now).cycles) ≡ off_of (take (begun - 1) (self.now).cycles) + result }
    {
        if begun == 0 {
            0
        } else {
            self.cycle(begun - 1).off
        }
    }

    /// The ticks of all power cycles, at most 4,000,000.
    pub(crate) fn ticks(&self) -> u32
        ensures { result ≡ ticks_of (self.now).cycles }
    {
        sum_of_ticks(self.cycles.as_slice())
    }

    /// The value at a place of a channel, from 0: the last one repeats, and a channel without values gives 0.
    pub(crate) fn value(&self, channel: u8, place: u32) -> u16
        requires { channel < 16 }
        ensures { result ≡ value_at (values_of self.now channel) place }
    {
        value_or_last(self.channels[channel as usize].as_slice(), place)
    }
}

/// The ticks of these power cycles.
fn sum_of_ticks(cycles: &[PowerCycle]) -> u32
    requires { ticks_of cycles.now ≤ 4000000 }
    ensures { result ≡ ticks_of cycles.now }
{
    let mut total: u32 = 0;
    for cycle in cycles {
        total += cycle.ticks;
    }
    total
}

/// The value at a place, the last one past the end, and 0 of no values.
fn value_or_last(values: &[u16], place: u32) -> u16
    ensures { result ≡ value_at values.now place }
{
    if values.is_empty() {
        return 0;
    }
    values[(place as usize).min(values.len() - 1)]
}

/// The trace that the lines make, none of whose totals is passed.
#[tactic(auto, using(crate::proofs::PlanLemmas::plan_is_plan), unfolding(crate::specs::TraceFile::plan_of))]
fn trace_from(alloc: Global, draft: Draft) -> Result<Trace, NoMemory>
    requires ranged { HasRanges draft }
    requires within { IsTrue (is_within draft) }
    ensures { IfOk result (λ trace. trace ≡ plan_of draft) }
{
    let channels = channels(alloc, draft.senses.as_slice())?;
    let cycles = cycles(alloc, draft.cycles.as_slice())?;
    Ok(Trace {
        start: draft.start_clock(),
        rate: draft.ticks_in_ms(),
        period: draft.period.unwrap_or(1000),
        channels,
        cycles,
    })
}

/// Reads a trace of less than 2^32 lines. A refusal names the first line that is not in the form of a trace, or line
/// 1 where no line says anything; where no line is bad it says that a total is passed.
#[tactic(auto, unfolding(crate::specs::TraceFile::trace_of))]
pub fn parse_trace(alloc: Global, text: &[u8]) -> Result<Trace, TraceErr>
    requires { length (lines text.now) < 2 ^ 32 }
    ensures ok { IfOk result (λ trace. trace_of text.now ≡ Ok trace) }
    ensures refused { IfErr result (IsRefusalOf (trace_of text.now)) }
{
    let draft = read_draft(alloc, text)?;
    if text.len() > MOST_BYTES || !draft.is_within_limits() {
        return Err(TraceErr::TooLong);
    }
    Ok(trace_from(alloc, draft)?)
}
