//! The steps that read and store scalars.

ghost use Rattle.std.specs.Prelude.{◌≡◌, ◌+◌, OnOk, IfOk};
ghost use Rattle.c_values.specs.Pointers.{at};
ghost use Rattle.c_run.specs.Gives.{Gives};
ghost use Rattle.ir.specs.Machine as form;
ghost use Rattle.ir_steps.specs.Doing as spec;
ghost use Rattle.ir_steps.specs.Giving.{Moves};

use crate::asked::{behind, computed, object};
use crate::temporaries::{at_depth, before_of, gave, operand_of, target_of, top_place};
use crate::values::Made;
use base16::{Kind, NoMemory};
use c_run::{Halt, Run};
use c_values::{Location, Value};
use ir::{Keep, Operand, Operation, Stack, Target, Temporary};
use std::alloc::Global;

/// Puts what a store leaves on top of the temporaries.
fn leave(
    temporaries: &mut Stack<Temporary>,
    keep: Keep,
    stored: Value,
    before: Value,
) -> Result<(), NoMemory>
    ensures { OnOk result (temporaries.new ≡ form.kept keep stored before temporaries.old) }
{
    match keep {
        Keep::Nothing => Ok(()),
        Keep::Stored => temporaries.push(Temporary::Value(stored)),
        Keep::Before => temporaries.push(Temporary::Value(before)),
    }
}

/// A scalar of a call's local.
fn local_at(first: u64, local: u32, offset: u16) -> Result<Location, NoMemory>
    ensures { IfOk result (λ place. place ≡ at (first + local) offset) }
{
    Ok(Location {
        object: Some(object(first, local)?),
        offset: u32::from(offset),
    })
}

/// Stores what is computed of the scalar at a place and a value: the new and the old value of the scalar.
#[tactic(auto, unfolding(ir::specs::Machine::update))]
fn update(
    alloc: Global,
    run: &mut Run,
    node: u32,
    place: Location,
    kind: Kind,
    operation: Operation,
    value: Value,
    marked: bool,
) -> Result<(Value, Value), Halt>
    ensures { Gives (form.update node place kind operation value marked run.old) result run.new }
{
    let before = run.load(node, place, kind)?;
    let after = computed(run, node, operation, before, value)?;
    let stored = run.store(alloc, node, place, kind, after, marked)?;
    Ok((stored, before))
}

impl Made<'_> {
    /// The scalar at a place, which gives way to it.
    pub fn load(
        &self,
        run: &Run,
        temporaries: &mut Stack<Temporary>,
        depth: u32,
        kind: Kind,
    ) -> Result<u32, Halt>
        ensures { Moves (spec.load_step self.now.ir.now self.now.readings.now self.now.node self.now.position self.now.first
            depth kind temporaries.old run.now) result temporaries.new run.now }
    {
        let place = top_place(run, temporaries)?;
        at_depth(run, depth, temporaries)?;
        let value = run.load(self.node, place, kind)?;
        gave(temporaries, self.position, value)
    }

    /// The scalar at a place, which stays below it.
    pub fn peek(
        &self,
        run: &Run,
        temporaries: &mut Stack<Temporary>,
        depth: u32,
        kind: Kind,
    ) -> Result<u32, Halt>
        ensures { Moves (spec.peek_step self.now.ir.now self.now.readings.now self.now.node self.now.position self.now.first
            depth kind temporaries.old run.now) result temporaries.new run.now }
    {
        let place = top_place(run, temporaries)?;
        at_depth(run, depth, temporaries)?;
        let value = run.load(self.node, place, kind)?;
        temporaries.push(Temporary::Place(place))?;
        gave(temporaries, self.position, value)
    }

    /// A store with a mark.
    pub fn store(
        &self,
        run: &mut Run,
        temporaries: &mut Stack<Temporary>,
        depth: u32,
        target: Target,
        kind: Kind,
        value: Operand,
        keep: Keep,
    ) -> Result<u32, Halt>
        ensures { Moves (spec.store_step self.now.ir.now self.now.readings.now self.now.node self.now.position self.now.first
            depth target kind value keep temporaries.old run.old) result temporaries.new run.new }
    {
        let value = operand_of(run, temporaries, self.node, self.first, value)?;
        let before = before_of(run, temporaries, self.node, keep)?;
        let place = target_of(run, temporaries, self.first, target)?;
        at_depth(run, depth, temporaries)?;
        let stored = run.store(self.alloc, self.node, place, kind, value, true)?;
        leave(temporaries, keep, stored, before)?;
        Ok(behind(self.position)?)
    }

    /// A store without a mark.
    pub fn store_local(
        &self,
        run: &mut Run,
        temporaries: &mut Stack<Temporary>,
        depth: u32,
        local: u32,
        offset: u16,
        kind: Kind,
        value: Operand,
        keep: Keep,
    ) -> Result<u32, Halt>
        ensures { Moves (spec.store_local_step self.now.ir.now self.now.readings.now self.now.node self.now.position
            self.now.first depth local offset kind value keep temporaries.old run.old) result temporaries.new run.new }
    {
        let value = operand_of(run, temporaries, self.node, self.first, value)?;
        let before = before_of(run, temporaries, self.node, keep)?;
        at_depth(run, depth, temporaries)?;
        let place = local_at(self.first, local, offset)?;
        let stored = run.store(self.alloc, self.node, place, kind, value, false)?;
        leave(temporaries, keep, stored, before)?;
        Ok(behind(self.position)?)
    }

    /// A store with a mark of what is computed of the scalar and a value.
    pub fn update(
        &self,
        run: &mut Run,
        temporaries: &mut Stack<Temporary>,
        depth: u32,
        target: Target,
        kind: Kind,
        operation: Operation,
        value: Operand,
        keep: Keep,
    ) -> Result<u32, Halt>
        ensures { Moves (spec.update_step self.now.ir.now self.now.readings.now self.now.node self.now.position self.now.first
            depth target kind operation value keep temporaries.old run.old) result temporaries.new run.new }
    {
        let value = operand_of(run, temporaries, self.node, self.first, value)?;
        let place = target_of(run, temporaries, self.first, target)?;
        at_depth(run, depth, temporaries)?;
        let (stored, before) = update(
            self.alloc, run, self.node, place, kind, operation, value, true,
        )?;
        leave(temporaries, keep, stored, before)?;
        Ok(behind(self.position)?)
    }

    /// The same without a mark.
    pub fn update_local(
        &self,
        run: &mut Run,
        temporaries: &mut Stack<Temporary>,
        depth: u32,
        local: u32,
        offset: u16,
        kind: Kind,
        operation: Operation,
        value: Operand,
        keep: Keep,
    ) -> Result<u32, Halt>
        ensures { Moves (spec.update_local_step self.now.ir.now self.now.readings.now self.now.node self.now.position
            self.now.first depth local offset kind operation value keep temporaries.old run.old) result temporaries.new run.new }
    {
        let value = operand_of(run, temporaries, self.node, self.first, value)?;
        at_depth(run, depth, temporaries)?;
        let place = local_at(self.first, local, offset)?;
        let (stored, before) = update(
            self.alloc, run, self.node, place, kind, operation, value, false,
        )?;
        leave(temporaries, keep, stored, before)?;
        Ok(behind(self.position)?)
    }

    /// The scalars of a local are undefined.
    pub fn undefine(
        &self,
        run: &mut Run,
        _temporaries: &Stack<Temporary>,
        local: u32,
    ) -> Result<u32, Halt>
        ensures { Moves (spec.undefine_step self.now.ir.now self.now.readings.now self.now.node self.now.position self.now.first
            local _temporaries.now run.old) result _temporaries.now run.new }
    {
        let number = object(self.first, local)?;
        run.clear(self.alloc, number);
        Ok(behind(self.position)?)
    }
}
