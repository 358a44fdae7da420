//! The steps that make places.

ghost use Rattle.std.specs.Prelude.{◌≡◌};
ghost use Rattle.ir_steps.specs.Doing as spec;
ghost use Rattle.ir_steps.specs.Giving.{Moves};

use crate::asked::{given, known};
use crate::temporaries::{at_depth, gave, operand_of, operands_of, placed, top_place};
use crate::values::Made;
use base16::IntType;
use c_run::{Halt, Run};
use c_values::{address, element, member_at, numbered, pointed, sum_of};
use ir::{Base, Operand, Stack, Temporary};

impl Made<'_> {
    /// It gives a known place.
    pub fn address(
        &self,
        run: &Run,
        temporaries: &mut Stack<Temporary>,
        depth: u32,
        of: Base,
        offset: u16,
    ) -> Result<u32, Halt>
        ensures { Moves (spec.address_step self.now.ir.now self.now.readings.now self.now.node self.now.position self.now.first
            depth of offset temporaries.old run.now) result temporaries.new run.now }
    {
        at_depth(run, depth, temporaries)?;
        let place = known(self.first, of, offset)?;
        placed(temporaries, self.position, place)
    }

    /// The place to which a pointer points.
    pub fn follow(
        &self,
        run: &Run,
        temporaries: &mut Stack<Temporary>,
        depth: u32,
        value: Operand,
    ) -> Result<u32, Halt>
        ensures { Moves (spec.follow_step self.now.ir.now self.now.readings.now self.now.node self.now.position self.now.first
            depth value temporaries.old run.now) result temporaries.new run.now }
    {
        let value = operand_of(run, temporaries, self.node, self.first, value)?;
        at_depth(run, depth, temporaries)?;
        let place = given(run, self.node, pointed(value))?;
        placed(temporaries, self.position, place)
    }

    /// A part of a place.
    pub fn member(
        &self,
        run: &Run,
        temporaries: &mut Stack<Temporary>,
        depth: u32,
        offset: u32,
    ) -> Result<u32, Halt>
        ensures { Moves (spec.member_step self.now.ir.now self.now.readings.now self.now.node self.now.position self.now.first
            depth offset temporaries.old run.now) result temporaries.new run.now }
    {
        let place = top_place(run, temporaries)?;
        at_depth(run, depth, temporaries)?;
        placed(temporaries, self.position, member_at(place, offset))
    }

    /// An element of the array at a place.
    pub fn element(
        &self,
        run: &Run,
        temporaries: &mut Stack<Temporary>,
        depth: u32,
        size: u32,
        own: IntType,
        index: Operand,
    ) -> Result<u32, Halt>
        ensures { Moves (spec.element_step self.now.ir.now self.now.readings.now self.now.node self.now.position self.now.first
            depth size own index temporaries.old run.now) result temporaries.new run.now }
    {
        let index = operand_of(run, temporaries, self.node, self.first, index)?;
        let place = top_place(run, temporaries)?;
        at_depth(run, depth, temporaries)?;
        let place = given(
            run,
            self.node,
            element(run.state(), size, place, numbered(own, index)),
        )?;
        placed(temporaries, self.position, place)
    }

    /// The place to which the sum of a pointer and an integer points.
    pub fn sum(
        &self,
        run: &Run,
        temporaries: &mut Stack<Temporary>,
        depth: u32,
        size: u32,
        left_type: IntType,
        right_type: IntType,
        swapped: bool,
        left: Operand,
        right: Operand,
    ) -> Result<u32, Halt>
        ensures { Moves (spec.sum_step self.now.ir.now self.now.readings.now self.now.node self.now.position self.now.first
            depth size left_type right_type swapped left right temporaries.old run.now) result temporaries.new run.now }
    {
        let (left, right) = operands_of(run, temporaries, self.node, self.first, left, right)?;
        at_depth(run, depth, temporaries)?;
        let left = numbered(left_type, left);
        let right = numbered(right_type, right);
        let place = given(
            run,
            self.node,
            sum_of(run.state(), swapped, false, size, left, right),
        )?;
        placed(temporaries, self.position, place)
    }

    /// The pointer to a place.
    pub fn point_to(
        &self,
        run: &Run,
        temporaries: &mut Stack<Temporary>,
        depth: u32,
    ) -> Result<u32, Halt>
        ensures { Moves (spec.point_to_step self.now.ir.now self.now.readings.now self.now.node self.now.position self.now.first
            depth temporaries.old run.now) result temporaries.new run.now }
    {
        let place = top_place(run, temporaries)?;
        at_depth(run, depth, temporaries)?;
        let value = given(run, self.node, address(run.state(), place))?;
        gave(temporaries, self.position, value)
    }
}
