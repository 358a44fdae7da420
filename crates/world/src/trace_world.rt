ghost use Rattle.std.specs.Prelude.{◌≡◌, ◌<◌, ◌≤◌, ◌++◌, ◌∷◌, [], vec_len, IfOk};
ghost use Rattle.std.specs.Vec.{vec_capacity};
ghost use Rattle.world.specs.TraceWorld.{world_of};

use crate::outside::{Off, World};
use crate::trace::Trace;
use base16::{NoMemory, Reading};
use std::alloc::Global;
use std::marker::Model;

/// The outside that a trace stands for. It holds room for a reading and its tick for each tick of the trace, so that no
/// call but `new` takes memory.
#[derive(Drop)]
pub struct TraceWorld {
    trace: Trace,
    /// Power cycles that have begun.
    begun: u32,
    spent: u32,
    left: u32,
    clock: u32,
    /// Ticks until the next millisecond, at least 1.
    until: u32,
    /// How many values each sensor channel has given.
    taken: [u32; 16],
    readings: Vec<Reading>,
    times: Vec<u32>,
    /// How many readings had been given when each power cycle began.
    firsts: Vec<u32>,
}

impl Model for TraceWorld {
    ghost use Rattle.std.specs.Prelude.{◌≤◌, length};
    ghost use Rattle.std.specs.Vec.{vec_capacity};
    ghost use Rattle.world.specs.Plan.{ticks_of};
    ghost use Rattle.world.specs.World.{WorldState};
    ghost use Rattle.world.specs.TraceWorld.{world_of, Kept};

    ghost Value = { WorldState };

    ghost view = { λ w. world_of w.trace w.begun w.spent w.left w.clock w.readings.items w.times.items w.firsts.items };

    ghost invariant = { λ w.
        Kept w.trace w.begun w.spent w.left w.clock w.until w.taken w.readings.items w.times.items w.firsts.items
        × (ticks_of w.trace.cycles ≤ vec_capacity w.readings) × (ticks_of w.trace.cycles ≤ vec_capacity w.times)
        × (length w.trace.cycles ≤ vec_capacity w.firsts) };
}

impl TraceWorld {
    /// The outside before the first power cycle.
    pub fn new(alloc: Global, trace: Trace) -> Result<TraceWorld, NoMemory>
        ensures { IfOk result (λ world. world ≡ world_of trace 0 0 0 trace.start [] [] []) }
    {
        let room = trace.ticks() as usize;
        let clock = trace.start();
        let until = trace.rate();
        let readings = Vec::with_capacity(alloc, room)?;
        let times = Vec::with_capacity(alloc, room)?;
        let firsts = Vec::with_capacity(alloc, trace.cycle_count() as usize)?;
        Ok(TraceWorld {
            trace,
            begun: 0,
            spent: 0,
            left: 0,
            clock,
            until,
            taken: [0; 16],
            readings,
            times,
            firsts,
        })
    }
}

/// Adds an element where there is room for it.
fn push_within<T: Drop>(items: &mut Vec<T>, item: T)
    requires { vec_len items.old < vec_capacity items.old }
    ensures items { items.new.items ≡ items.old.items ++ item ∷ [] }
    ensures capacity { vec_capacity items.old ≤ vec_capacity items.new }
{
    let _ = items.push(item);
}

impl World for TraceWorld {
    ghost use Rattle.std.specs.Prelude.{OnOk, OnErr, length, Some, slice_get};
    ghost use Rattle.std.specs.Bool.{OnTrue, OnFalse};
    ghost use Rattle.base16.specs.declared.reading.Reading.TheVariants.{Sense};
    ghost use Rattle.world.specs.World.{IsLawful, Spends, Gives, Wakes};
    ghost use Rattle.world.specs.TraceWorld.{Follows, next_value};

    ghost state = { λ w. w };

    fn tick(&mut self) -> Result<(), Off> {
        if self.left == 0 {
            return Err(Off);
        }
        self.left -= 1;
        self.spent += 1;
        if self.until > 1 {
            self.until -= 1;
        } else {
            self.until = self.trace.rate();
            self.clock += 1;
        }
        Ok(())
    }

    fn sense(&mut self, channel: u8) -> u16
        requires channel { channel < 16 }
        requires given { length (self.old).readings < (self.old).spent }
        ensures value { result ≡ next_value (self.old).plan (self.old).readings channel }
        ensures reading { Gives (Sense channel result) self.old self.new }
        ensures lawful { IsLawful self.new }
    {
        let place = self.taken[channel as usize];
        let value = self.trace.value(channel, place);
        self.taken[channel as usize] = place + 1;
        push_within(&mut self.readings, Reading::Sense { channel, value });
        push_within(&mut self.times, self.spent);
        value
    }

    fn now(&mut self) -> u32 {
        let ms = self.clock;
        push_within(&mut self.readings, Reading::Clock { ms });
        push_within(&mut self.times, self.spent);
        ms
    }

    fn clock(&self) -> u32
        ensures value { result ≡ (self.now).clock }
        ensures lawful { IsLawful self.now }
        ensures follows { Follows self.now }
    {
        self.clock
    }

    fn wake(&mut self) -> bool {
        if self.begun >= self.trace.cycle_count() {
            return false;
        }
        self.clock += self.trace.off_behind(self.begun);
        self.left = self.trace.cycle(self.begun).ticks;
        self.begun += 1;
        let given = self.readings.len();
        push_within(&mut self.firsts, given as u32);
        true
    }

    fn spent(&self) -> u32
        ensures value { result ≡ (self.now).spent }
        ensures lawful { IsLawful self.now }
        ensures follows { Follows self.now }
    {
        self.spent
    }

    fn period(&self) -> u32 {
        self.trace.period()
    }

    fn given(&self) -> u32 {
        self.readings.len() as u32
    }

    fn reading(&self, i: u32) -> Reading {
        self.readings[i as usize]
    }
}
