//! The steps that make values.

ghost use Rattle.std.specs.Prelude.{◌≡◌};
ghost use Rattle.ir_steps.specs.Doing as spec;
ghost use Rattle.ir_steps.specs.Giving.{Moves};

use crate::asked::{behind, computed, given, tested};
use crate::temporaries::{at_depth, gave, operand_of, operands_of, top_any, top_value};
use base16::{IntType, Reading, UnaryOp};
use c_run::{Halt, Run};
use c_values::{Value, converted, operated_one};
use ir::{Ir, Operand, Operation, Stack, Temporary};
use std::alloc::Global;

/// A step that is made: the form that is run on a list of readings, the node of the step and its place in its function,
/// and the number of the first object of the call.
#[derive(Clone, Copy)]
pub struct Made<'a> {
    pub alloc: Global,
    pub ir: &'a Ir,
    pub readings: &'a [Reading],
    pub node: u32,
    pub position: u32,
    pub first: u64,
}

impl Made<'_> {
    /// The step gives a value.
    pub fn put(
        &self,
        run: &Run,
        temporaries: &mut Stack<Temporary>,
        depth: u32,
        value: Operand,
    ) -> Result<u32, Halt>
        ensures { Moves (spec.put_step self.now.ir.now self.now.readings.now self.now.node self.now.position self.now.first
            depth value temporaries.old run.now) result temporaries.new run.now }
    {
        let value = operand_of(run, temporaries, self.node, self.first, value)?;
        at_depth(run, depth, temporaries)?;
        gave(temporaries, self.position, value)
    }

    /// It gives what nothing may use.
    pub fn nothing(
        &self,
        run: &Run,
        temporaries: &mut Stack<Temporary>,
        depth: u32,
    ) -> Result<u32, Halt>
        ensures { Moves (spec.nothing_step self.now.ir.now self.now.readings.now self.now.node self.now.position self.now.first
            depth temporaries.old run.now) result temporaries.new run.now }
    {
        at_depth(run, depth, temporaries)?;
        gave(temporaries, self.position, Value::Undefined)
    }

    /// It takes a temporary away.
    pub fn drop_top(
        &self,
        run: &Run,
        temporaries: &mut Stack<Temporary>,
        depth: u32,
    ) -> Result<u32, Halt>
        ensures { Moves (spec.drop_step self.now.ir.now self.now.readings.now self.now.node self.now.position self.now.first
            depth temporaries.old run.now) result temporaries.new run.now }
    {
        top_any(run, temporaries)?;
        at_depth(run, depth, temporaries)?;
        Ok(behind(self.position)?)
    }

    /// What an operation makes of the two topmost values, of which the lower one stays.
    pub fn beside(
        &self,
        run: &Run,
        temporaries: &mut Stack<Temporary>,
        depth: u32,
        operation: Operation,
    ) -> Result<u32, Halt>
        ensures { Moves (spec.beside_step self.now.ir.now self.now.readings.now self.now.node self.now.position self.now.first
            depth operation temporaries.old run.now) result temporaries.new run.now }
    {
        let right = top_value(run, temporaries)?;
        let left = top_value(run, temporaries)?;
        at_depth(run, depth, temporaries)?;
        let value = computed(run, self.node, operation, left, right)?;
        temporaries.push(Temporary::Value(left))?;
        gave(temporaries, self.position, value)
    }

    /// It converts a value.
    pub fn convert(
        &self,
        run: &Run,
        temporaries: &mut Stack<Temporary>,
        depth: u32,
        to: IntType,
        value: Operand,
    ) -> Result<u32, Halt>
        ensures { Moves (spec.convert_step self.now.ir.now self.now.readings.now self.now.node self.now.position self.now.first
            depth to value temporaries.old run.now) result temporaries.new run.now }
    {
        let value = operand_of(run, temporaries, self.node, self.first, value)?;
        at_depth(run, depth, temporaries)?;
        let value = given(run, self.node, converted(to, value))?;
        gave(temporaries, self.position, value)
    }

    /// A unary operator.
    pub fn unary(
        &self,
        run: &Run,
        temporaries: &mut Stack<Temporary>,
        depth: u32,
        op: UnaryOp,
        at: IntType,
        value: Operand,
    ) -> Result<u32, Halt>
        ensures { Moves (spec.unary_step self.now.ir.now self.now.readings.now self.now.node self.now.position self.now.first
            depth op at value temporaries.old run.now) result temporaries.new run.now }
    {
        let value = operand_of(run, temporaries, self.node, self.first, value)?;
        at_depth(run, depth, temporaries)?;
        let value = given(run, self.node, operated_one(run.state(), op, at, value))?;
        gave(temporaries, self.position, value)
    }

    /// An operation on two values.
    pub fn binary(
        &self,
        run: &Run,
        temporaries: &mut Stack<Temporary>,
        depth: u32,
        operation: Operation,
        left: Operand,
        right: Operand,
    ) -> Result<u32, Halt>
        ensures { Moves (spec.binary_step self.now.ir.now self.now.readings.now self.now.node self.now.position self.now.first
            depth operation left right temporaries.old run.now) result temporaries.new run.now }
    {
        let (left, right) = operands_of(run, temporaries, self.node, self.first, left, right)?;
        at_depth(run, depth, temporaries)?;
        let value = computed(run, self.node, operation, left, right)?;
        gave(temporaries, self.position, value)
    }

    /// Whether a value is not zero.
    pub fn truth(
        &self,
        run: &Run,
        temporaries: &mut Stack<Temporary>,
        depth: u32,
        of: IntType,
        value: Operand,
    ) -> Result<u32, Halt>
        ensures { Moves (spec.truth_step self.now.ir.now self.now.readings.now self.now.node self.now.position self.now.first
            depth of value temporaries.old run.now) result temporaries.new run.now }
    {
        let value = operand_of(run, temporaries, self.node, self.first, value)?;
        at_depth(run, depth, temporaries)?;
        let holds = tested(run, self.node, of, value)?;
        gave(
            temporaries,
            self.position,
            Value::Int(if holds { 1 } else { 0 }),
        )
    }
}
