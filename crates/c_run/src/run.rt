ghost use Rattle.std.specs.Prelude.{◌≡◌, ◌+◌, ◌<◌, ◌^◌, length, IfOk};
ghost use Rattle.c_values.specs.Objects as objects;
ghost use Rattle.c_run.specs.Runs as spec;
ghost use Rattle.c_run.specs.Actions as act;
ghost use Rattle.c_run.specs.Gives.{Gives};
ghost use Rattle.c_run.specs.Runs.{Stopped, Ended};
ghost use Rattle.base16.specs.declared.end.EndKind.TheVariants.{Done};

use crate::block;
use crate::fresh::fresh_objects;
use crate::halt::Halt;
use crate::put::{clear_scalars, put_at, put_params, put_scalar};
use crate::timed::{Timed, is_older, some_expired};
use base16::board::{FIRST_STACK_POINTER, MOST_OUTPUTS};
use base16::{EndKind, Kind, Reading, Sequence, frame_below};
use c_values::{Call, Location, State, Value, accessed, integer, storable, word_of};
use core_tree::Slot;
use std::alloc::Global;
use std::marker::Model;

/// The marks of a block store at most so many words.
const MOST_BLOCK_WORDS: u16 = 128;

/// A run that goes on: its state, how many readings it took, how many marks it may make before the one that stops it,
/// and how many objects came to life.
#[derive(Drop)]
pub struct Run {
    state: State,
    used: usize,
    left: u32,
    next: u64,
}

impl Model for Run {
    ghost use Rattle.std.specs.Prelude.{◌+◌, ◌*◌, ◌<◌, ◌^◌};
    ghost use Rattle.c_run.specs.Runs.{Run as ARun};

    ghost Value = { ARun };

    ghost view = { λ r. record { state = r.state; used = r.used; left = r.left; next = r.next } };

    ghost invariant = { λ r. (r.state.marks + r.left + 1 < 2 ^ 32) × (r.next + (r.left + 1) * 2 ^ 30 < 2 ^ 63) };
}

impl Run {
    /// The run of a state in which no mark was made, which may make so many marks before the one that stops it.
    pub fn new(state: State, left: u32, born: u64) -> Run
        requires marks { state.marks + left + 1 < 2 ^ 32 }
        requires born { born < 2 ^ 32 }
        ensures { result ≡ record { state = state; used = 0; left = left; next = born } }
    {
        Run {
            state,
            used: 0,
            left,
            next: born,
        }
    }

    /// The state, of which the run is spent.
    pub fn into_state(self) -> State
        ensures { result ≡ self.state }
    {
        let Run { state, .. } = self;
        state
    }

    /// How many readings were taken.
    pub fn used(&self) -> usize
        ensures { result ≡ self.now.used }
    {
        self.used
    }

    /// How many marks may be made before the one that stops.
    pub fn left(&self) -> u32
        ensures { result ≡ self.now.left }
    {
        self.left
    }

    /// Counts a mark, just after its effect.
    #[tactic(auto, unfolding(crate::specs::Runs::mark))]
    pub fn mark(&mut self) -> Result<(), Halt>
        ensures { Gives (spec.mark self.old) result self.new }
    {
        if self.left == 0 {
            return Err(Halt::Live);
        }
        self.left -= 1;
        self.state.marks += 1;
        Ok(())
    }

    /// The value of a scalar.
    #[tactic(auto, unfolding(crate::specs::Actions::load))]
    pub fn load(&self, node: u32, place: Location, kind: Kind) -> Result<Value, Halt>
        ensures { Gives (act.load node place kind self.now) result self.now }
    {
        match accessed(&self.state, place, kind) {
            Ok(Value::Undefined) => Err(Halt::Broken { rule: 8, node }),
            Ok(value) => Ok(value),
            Err(rule) => Err(Halt::Broken { rule, node }),
        }
    }

    /// Where a block is open, counts the words that a mark stores.
    #[tactic(auto, unfolding(crate::specs::Actions::count))]
    pub fn count(&mut self, words: u16) -> Result<(), Halt>
        requires { words < 4 }
        ensures { Gives (act.count words self.old) result self.new }
    {
        if let Some(saved) = &mut self.state.block {
            if saved.words > MOST_BLOCK_WORDS - words {
                return Err(Halt::Ended(EndKind::BlockFull));
            }
            saved.words += words;
        }
        Ok(())
    }

    /// Stores a value, which is answered as the scalar has it.
    #[tactic(auto, unfolding(crate::specs::Actions::store))]
    pub fn store(
        &mut self,
        alloc: Global,
        node: u32,
        place: Location,
        kind: Kind,
        value: Value,
        marked: bool,
    ) -> Result<Value, Halt>
        ensures { Gives (act.store node place kind value marked self.old) result self.new }
    {
        let stored = match storable(&self.state, place, kind, value) {
            Ok(stored) => stored,
            Err(rule) => return Err(Halt::Broken { rule, node }),
        };
        if marked {
            self.count(1)?;
            put_at(alloc, &mut self.state, place, stored);
            self.mark()?;
        } else {
            put_at(alloc, &mut self.state, place, stored);
        }
        Ok(stored)
    }

    /// The next reading, which is to be of a channel.
    #[tactic(auto, unfolding(crate::specs::Actions::sense_reading))]
    fn sense_reading(&mut self, readings: &[Reading], channel: u8) -> Result<u16, Halt>
        ensures { Gives (act.sense_reading readings.now channel self.old) result self.new }
    {
        match readings.get(self.used) {
            Some(Reading::Sense { channel: of, value }) if *of == channel => {
                self.used += 1;
                Ok(*value)
            }
            _ => Err(Halt::NeedsReading),
        }
    }

    /// A reading of a channel.
    #[tactic(auto, unfolding(crate::specs::Actions::sense))]
    pub fn sense(&mut self, readings: &[Reading], channel: u8) -> Result<Value, Halt>
        ensures { Gives (act.sense readings.now channel self.old) result self.new }
    {
        let value = self.sense_reading(readings, channel)?;
        self.mark()?;
        Ok(Value::Int(i64::from(value)))
    }

    /// An output.
    #[tactic(auto, unfolding(crate::specs::Actions::emit))]
    pub fn emit(&mut self, node: u32, value: Value) -> Result<Value, Halt>
        ensures { Gives (act.emit node value self.old) result self.new }
    {
        let number = match integer(value) {
            Ok(number) => number,
            Err(rule) => return Err(Halt::Broken { rule, node }),
        };
        if self.state.outputs.len() >= usize::from(MOST_OUTPUTS) {
            return Err(Halt::Ended(EndKind::OutputFull));
        }
        self.count(2)?;
        self.state.outputs.push(word_of(number))?;
        self.mark()?;
        Ok(Value::Undefined)
    }

    /// The state.
    pub fn state(&self) -> &State
        ensures { result.now ≡ self.now.state }
    {
        &self.state
    }

    /// The stack pointer of the youngest call.
    fn top(&self) -> u16
        ensures { result ≡ act.top_of self.now.state }
    {
        let calls = self.state.calls.as_slice();
        let mut top = FIRST_STACK_POINTER;
        for call in calls {
            top = call.frame;
        }
        top
    }

    /// Enters a function with so many bytes of frame and these objects; the answer is the number of the first.
    #[tactic(auto, unfolding(crate::specs::Actions::enter, crate::specs::Runs::mark))]
    pub fn enter(
        &mut self,
        alloc: Global,
        function: u16,
        bytes: u32,
        objects: &[Sequence<Slot>],
    ) -> Result<u64, Halt>
        requires { length objects.now < 2 ^ 30 }
        ensures gives { Gives (act.enter function bytes objects.now self.old) result self.new }
        ensures low { IfOk result (λ first. first < 2 ^ 63) }
    {
        let Some(frame) = frame_below(self.top(), bytes) else {
            return Err(Halt::Ended(EndKind::StackFull));
        };
        let first = self.next;
        let locals = fresh_objects(alloc, first, objects)?;
        self.state.calls.push(Call {
            function,
            frame,
            locals,
        })?;
        self.mark()?;
        self.next += objects.len() as u64;
        Ok(first)
    }

    /// The youngest call is over and its objects are gone.
    #[tactic(auto, using(crate::proofs::Changing::last_gone), unfolding(crate::specs::Actions::leave))]
    pub fn leave(&mut self) -> Result<(), Halt>
        ensures { Gives (act.leave self.old) result self.new }
    {
        self.drop_call();
        self.mark()
    }

    #[tactic(auto, using(crate::proofs::Changing::last_gone))]
    fn drop_call(&mut self)
        ensures { self.new ≡ record self.old { state = act.left_call self.old.state } }
    {
        let _call = self.state.calls.pop();
    }

    /// Sets the scalar at the beginning of an object.
    pub fn put(&mut self, alloc: Global, number: u64, value: Value)
        ensures { self.new ≡ record self.old { state = objects.with_scalar number 0 value self.old.state } }
    {
        put_scalar(alloc, &mut self.state, number, 0, value);
    }

    /// Gives the objects of parameters, numbered from the first, their values.
    pub fn put_params(&mut self, alloc: Global, first: u64, kinds: &[Kind], values: &[Value])
        requires { first + length kinds.now < 2 ^ 64 }
        ensures { self.new ≡ record self.old { state = act.with_params first kinds.now values.now self.old.state } }
    {
        put_params(alloc, &mut self.state, first, kinds, values);
    }

    /// Makes the scalars of an object undefined.
    pub fn clear(&mut self, alloc: Global, number: u64)
        ensures { self.new ≡ record self.old { state = objects.with_cleared number self.old.state } }
    {
        clear_scalars(alloc, &mut self.state, number);
    }

    /// The outermost call is over, and with it the run: its last state, whose last mark is counted.
    #[tactic(auto, unfolding(crate::specs::Actions::finish))]
    pub fn finish(self) -> State
        ensures { act.finish {A = Unit {0}} self ≡ Stopped (Ended Done result self.used) }
    {
        let mut run = self;
        run.drop_call();
        let mut state = run.into_state();
        state.marks += 1;
        state
    }

    /// The next reading, which is to be of the clock, in milliseconds.
    #[tactic(auto, unfolding(crate::specs::Actions::clock_reading))]
    fn clock_reading(&mut self, readings: &[Reading]) -> Result<u32, Halt>
        ensures { Gives (act.clock_reading readings.now self.old) result self.new }
    {
        match readings.get(self.used) {
            Some(Reading::Clock { ms }) => {
                self.used += 1;
                Ok(*ms)
            }
            _ => Err(Halt::NeedsReading),
        }
    }

    /// A stamped assignment, the stamp being given by its place among all stamps.
    #[tactic(auto, unfolding(crate::specs::Actions::stamped))]
    pub fn stamped(
        &mut self,
        alloc: Global,
        readings: &[Reading],
        node: u32,
        place: Location,
        kind: Kind,
        stamp: u32,
        value: Value,
    ) -> Result<(), Halt>
        ensures { Gives (act.stamped readings.now node place kind stamp value self.old) result self.new }
    {
        let stored = match storable(&self.state, place, kind, value) {
            Ok(stored) => stored,
            Err(rule) => return Err(Halt::Broken { rule, node }),
        };
        self.count(3)?;
        let now = self.clock_reading(readings)?;
        put_at(alloc, &mut self.state, place, stored);
        self.put_stamp(stamp, now);
        self.mark()
    }

    /// Sets a stamp, if there is one at this place.
    #[tactic(auto, using(std::proofs::lemmas::List::set_past))]
    fn put_stamp(&mut self, stamp: u32, now: u32)
        ensures { self.new ≡ record self.old { state = act.with_stamp stamp now self.old.state } }
    {
        let at = stamp as usize;
        if at < self.state.stamps.len() {
            self.state.stamps.set(at, Some(now));
        }
    }

    /// Whether the stamp of a scalar is young enough.
    #[tactic(auto, unfolding(crate::specs::Actions::timely))]
    pub fn timely(
        &mut self,
        readings: &[Reading],
        node: u32,
        place: Location,
        kind: Kind,
        stamp: u32,
        limit: u64,
    ) -> Result<bool, Halt>
        ensures { Gives (act.timely readings.now node place kind stamp limit self.old) result self.new }
    {
        if let Err(rule) = accessed(&self.state, place, kind) {
            return Err(Halt::Broken { rule, node });
        }
        let now = self.clock_reading(readings)?;
        self.mark()?;
        Ok(!is_older(now, limit, stamp, self.state.stamps.as_slice()))
    }

    /// Opens a block, unless a named scalar is expired; whether it opened.
    #[tactic(auto, unfolding(crate::specs::Actions::open_block))]
    pub fn open_block(
        &mut self,
        alloc: Global,
        readings: &[Reading],
        names: &[Timed],
    ) -> Result<bool, Halt>
        ensures { Gives (act.open_block readings.now names.now self.old) result self.new }
    {
        let now = self.clock_reading(readings)?;
        let late = some_expired(now, names, self.state.stamps.as_slice());
        if !late {
            let saved = block::kept(alloc, &self.state)?;
            self.state.block = Some(saved);
        }
        self.mark()?;
        Ok(!late)
    }

    /// Checks the named scalars of the open block, which is undone where one is expired; whether none is.
    #[tactic(auto, unfolding(crate::specs::Actions::check_block))]
    pub fn check_block(&mut self, readings: &[Reading], names: &[Timed]) -> Result<bool, Halt>
        ensures { Gives (act.check_block readings.now names.now self.old) result self.new }
    {
        let now = self.clock_reading(readings)?;
        let late = some_expired(now, names, self.state.stamps.as_slice());
        if late {
            block::undo(&mut self.state);
        }
        self.mark()?;
        Ok(!late)
    }

    /// The check at a block's end, which closes it, undone where a named scalar is expired; whether none is.
    #[tactic(auto, unfolding(crate::specs::Actions::close_block))]
    pub fn close_block(&mut self, readings: &[Reading], names: &[Timed]) -> Result<bool, Halt>
        ensures { Gives (act.close_block readings.now names.now self.old) result self.new }
    {
        let now = self.clock_reading(readings)?;
        let late = some_expired(now, names, self.state.stamps.as_slice());
        if late {
            block::undo(&mut self.state);
        } else {
            self.state.block = None;
        }
        self.mark()?;
        Ok(!late)
    }
}
