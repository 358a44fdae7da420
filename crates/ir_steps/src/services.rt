//! The steps that branch and that ask the outside.

ghost use Rattle.std.specs.Prelude.{◌≡◌, IfOk};
ghost use Rattle.c_run.specs.Gives.{Gives};
ghost use Rattle.ir.specs.Machine as form;
ghost use Rattle.ir_steps.specs.Doing as spec;
ghost use Rattle.ir_steps.specs.Giving.{Moves};

use crate::asked::{STUCK, behind, given, tested};
use crate::stamps::stamp_in;
use crate::temporaries::{at_depth, gave, operand_of, target_of, test_of, top_value};
use crate::values::Made;
use base16::{IntType, Kind, NoMemory};
use c_run::{Halt, Run};
use c_values::{Location, Value, integer, numbered};
use ir::{Operand, Stack, Target, Temporary, Test};

/// Where a branch goes.
fn branch(holds: bool, when: bool, to: u32, next: u32) -> u32
    ensures { result ≡ form.branch holds when to next }
{
    match (holds, when) {
        (true, true) | (false, false) => to,
        (true, false) | (false, true) => next,
    }
}

/// The next step where something is fine, else another place.
fn fine_or(position: u32, to: u32, fine: bool) -> Result<u32, NoMemory>
    ensures { IfOk result (λ place. place ≡ spec.fine_or position to fine) }
{
    if fine { behind(position) } else { Ok(to) }
}

/// A place is in a variable.
#[tactic(auto, unfolding(crate::specs::Doing::in_variable))]
fn in_variable(_run: &Run, number: u32, place: Location) -> Result<(), Halt>
    ensures { Gives (spec.in_variable number place _run.now) result _run.now }
{
    match place.object {
        Some(object) => {
            if object == u64::from(number) {
                Ok(())
            } else {
                Err(STUCK)
            }
        }
        None => Err(STUCK),
    }
}

impl Made<'_> {
    /// A jump where a test comes out as asked.
    pub fn branch(
        &self,
        run: &Run,
        temporaries: &mut Stack<Temporary>,
        depth: u32,
        test: Test,
        of: IntType,
        when: bool,
        to: u32,
    ) -> Result<u32, Halt>
        ensures { Moves (spec.branch_step self.now.ir.now self.now.readings.now self.now.node self.now.position self.now.first
            depth test of when to temporaries.old run.now) result temporaries.new run.now }
    {
        let value = test_of(run, temporaries, self.node, self.first, test)?;
        at_depth(run, depth, temporaries)?;
        let holds = tested(run, self.node, of, value)?;
        Ok(branch(holds, when, to, behind(self.position)?))
    }

    /// A jump where the topmost temporary is a number.
    pub fn case(
        &self,
        run: &Run,
        temporaries: &mut Stack<Temporary>,
        depth: u32,
        of: IntType,
        number: i64,
        to: u32,
    ) -> Result<u32, Halt>
        ensures { Moves (spec.case_step self.now.ir.now self.now.readings.now self.now.node self.now.position self.now.first
            depth of number to temporaries.old run.now) result temporaries.new run.now }
    {
        let value = top_value(run, temporaries)?;
        at_depth(run, depth, temporaries)?;
        let found = given(run, self.node, integer(numbered(of, value)))?;
        if found == number {
            Ok(to)
        } else {
            gave(temporaries, self.position, value)
        }
    }

    /// A mark before the test of a loop.
    pub fn turn(&self, run: &mut Run, _temporaries: &Stack<Temporary>) -> Result<u32, Halt>
        ensures { Moves (spec.turn_step self.now.ir.now self.now.readings.now self.now.node self.now.position self.now.first
            _temporaries.now run.old) result _temporaries.now run.new }
    {
        run.mark()?;
        Ok(behind(self.position)?)
    }

    /// The next reading of a channel.
    pub fn sense(
        &self,
        run: &mut Run,
        temporaries: &mut Stack<Temporary>,
        depth: u32,
        channel: u8,
    ) -> Result<u32, Halt>
        ensures { Moves (spec.sense_step self.now.ir.now self.now.readings.now self.now.node self.now.position self.now.first
            depth channel temporaries.old run.old) result temporaries.new run.new }
    {
        at_depth(run, depth, temporaries)?;
        let value = run.sense(self.readings, channel)?;
        gave(temporaries, self.position, value)
    }

    /// An output.
    pub fn emit(
        &self,
        run: &mut Run,
        temporaries: &mut Stack<Temporary>,
        depth: u32,
        value: Operand,
    ) -> Result<u32, Halt>
        ensures { Moves (spec.emit_step self.now.ir.now self.now.readings.now self.now.node self.now.position self.now.first
            depth value temporaries.old run.old) result temporaries.new run.new }
    {
        let value = operand_of(run, temporaries, self.node, self.first, value)?;
        at_depth(run, depth, temporaries)?;
        let value = run.emit(self.node, value)?;
        gave(temporaries, self.position, value)
    }

    /// A mark that the program asks for.
    pub fn checkpoint(
        &self,
        run: &mut Run,
        temporaries: &mut Stack<Temporary>,
        depth: u32,
    ) -> Result<u32, Halt>
        ensures { Moves (spec.checkpoint_step self.now.ir.now self.now.readings.now self.now.node self.now.position self.now.first
            depth temporaries.old run.old) result temporaries.new run.new }
    {
        at_depth(run, depth, temporaries)?;
        run.mark()?;
        gave(temporaries, self.position, Value::Undefined)
    }

    /// A store with a stamp.
    pub fn stamp(
        &self,
        run: &mut Run,
        temporaries: &mut Stack<Temporary>,
        depth: u32,
        global: u32,
        target: Target,
        kind: Kind,
        value: Operand,
    ) -> Result<u32, Halt>
        ensures { Moves (spec.stamp_step self.now.ir.now self.now.readings.now self.now.node self.now.position self.now.first
            depth global target kind value temporaries.old run.old) result temporaries.new run.new }
    {
        let value = operand_of(run, temporaries, self.node, self.first, value)?;
        let place = target_of(run, temporaries, self.first, target)?;
        at_depth(run, depth, temporaries)?;
        in_variable(run, global, place)?;
        let stamp = stamp_in(self.ir.globals.as_slice(), global, place.offset)?;
        run.stamped(
            self.alloc,
            self.readings,
            self.node,
            place,
            kind,
            stamp,
            value,
        )?;
        Ok(behind(self.position)?)
    }

    /// A jump where a stamp is too old.
    pub fn timely(
        &self,
        run: &mut Run,
        temporaries: &mut Stack<Temporary>,
        depth: u32,
        global: u32,
        target: Target,
        kind: Kind,
        limit: u64,
        to: u32,
    ) -> Result<u32, Halt>
        ensures { Moves (spec.timely_step self.now.ir.now self.now.readings.now self.now.node self.now.position self.now.first
            depth global target kind limit to temporaries.old run.old) result temporaries.new run.new }
    {
        let place = target_of(run, temporaries, self.first, target)?;
        at_depth(run, depth, temporaries)?;
        in_variable(run, global, place)?;
        let stamp = stamp_in(self.ir.globals.as_slice(), global, place.offset)?;
        let fine = run.timely(self.readings, self.node, place, kind, stamp, limit)?;
        Ok(fine_or(self.position, to, fine)?)
    }

    /// Opens a block.
    #[tactic(auto, unfolding(crate::specs::Doing::found_in))]
    pub fn open(
        &self,
        run: &mut Run,
        _temporaries: &Stack<Temporary>,
        table: u32,
        to: u32,
    ) -> Result<u32, Halt>
        ensures { Moves (spec.open_step self.now.ir.now self.now.readings.now self.now.node self.now.position self.now.first
            table to _temporaries.now run.old) result _temporaries.now run.new }
    {
        let Some(names) = self.ir.tables.as_slice().get(table as usize) else {
            return Err(STUCK);
        };
        let fine = run.open_block(self.alloc, self.readings, names.as_slice())?;
        Ok(fine_or(self.position, to, fine)?)
    }

    /// Checks a block.
    #[tactic(auto, unfolding(crate::specs::Doing::found_in))]
    pub fn check(
        &self,
        run: &mut Run,
        _temporaries: &Stack<Temporary>,
        table: u32,
        to: u32,
    ) -> Result<u32, Halt>
        ensures { Moves (spec.check_step self.now.ir.now self.now.readings.now self.now.node self.now.position self.now.first
            table to _temporaries.now run.old) result _temporaries.now run.new }
    {
        let Some(names) = self.ir.tables.as_slice().get(table as usize) else {
            return Err(STUCK);
        };
        let fine = run.check_block(self.readings, names.as_slice())?;
        Ok(fine_or(self.position, to, fine)?)
    }

    /// Closes a block.
    #[tactic(auto, unfolding(crate::specs::Doing::found_in))]
    pub fn close(
        &self,
        run: &mut Run,
        _temporaries: &Stack<Temporary>,
        table: u32,
        to: u32,
    ) -> Result<u32, Halt>
        ensures { Moves (spec.close_step self.now.ir.now self.now.readings.now self.now.node self.now.position self.now.first
            table to _temporaries.now run.old) result _temporaries.now run.new }
    {
        let Some(names) = self.ir.tables.as_slice().get(table as usize) else {
            return Err(STUCK);
        };
        let fine = run.close_block(self.readings, names.as_slice())?;
        Ok(fine_or(self.position, to, fine)?)
    }
}
