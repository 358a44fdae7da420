//! The steps that stay in their function.

ghost use Rattle.std.specs.Prelude.{◌≡◌};
ghost use Rattle.ir_steps.specs.Doing as spec;
ghost use Rattle.ir_steps.specs.Giving.{Moves};

use crate::asked::STUCK;
use crate::values::Made;
use c_run::{Halt, Run};
use ir::{Stack, StepKind, Temporary};

impl Made<'_> {
    /// What a step does that stays in its function; the answer is the place to which it leads.
    pub fn does(
        &self,
        run: &mut Run,
        temporaries: &mut Stack<Temporary>,
        kind: StepKind,
    ) -> Result<u32, Halt>
        ensures { Moves (spec.does self.now.ir.now self.now.readings.now self.now.node kind self.now.position self.now.first
            temporaries.old run.old) result temporaries.new run.new }
    {
        match kind {
            StepKind::Put { depth, value } => self.put(run, temporaries, depth, value),
            StepKind::Nothing { depth } => self.nothing(run, temporaries, depth),
            StepKind::Drop { depth } => self.drop_top(run, temporaries, depth),
            StepKind::Beside { depth, operation } => self.beside(
                run,
                temporaries,
                depth,
                operation,
            ),
            StepKind::Convert { depth, to, value } => self.convert(
                run,
                temporaries,
                depth,
                to,
                value,
            ),
            StepKind::Unary {
                depth,
                op,
                at,
                value,
            } => self.unary(run, temporaries, depth, op, at, value),
            StepKind::Binary {
                depth,
                operation,
                left,
                right,
            } => self.binary(run, temporaries, depth, operation, left, right),
            StepKind::Truth { depth, of, value } => self.truth(run, temporaries, depth, of, value),
            StepKind::Address { depth, of, offset } => self.address(
                run,
                temporaries,
                depth,
                of,
                offset,
            ),
            StepKind::Follow { depth, value } => self.follow(run, temporaries, depth, value),
            StepKind::Member { depth, offset } => self.member(run, temporaries, depth, offset),
            StepKind::Element {
                depth,
                size,
                own,
                index,
            } => self.element(run, temporaries, depth, size, own, index),
            StepKind::Sum {
                depth,
                size,
                left_type,
                right_type,
                swapped,
                left,
                right,
            } => self.sum(
                run,
                temporaries,
                depth,
                size,
                left_type,
                right_type,
                swapped,
                left,
                right,
            ),
            StepKind::PointTo { depth } => self.point_to(run, temporaries, depth),
            StepKind::Load { depth, kind } => self.load(run, temporaries, depth, kind),
            StepKind::Peek { depth, kind } => self.peek(run, temporaries, depth, kind),
            StepKind::Store {
                depth,
                target,
                kind,
                value,
                keep,
            } => self.store(run, temporaries, depth, target, kind, value, keep),
            StepKind::StoreLocal {
                depth,
                local,
                offset,
                kind,
                value,
                keep,
            } => self.store_local(run, temporaries, depth, local, offset, kind, value, keep),
            StepKind::Update {
                depth,
                target,
                kind,
                operation,
                value,
                keep,
            } => self.update(
                run,
                temporaries,
                depth,
                target,
                kind,
                operation,
                value,
                keep,
            ),
            StepKind::UpdateLocal {
                depth,
                local,
                offset,
                kind,
                operation,
                value,
                keep,
            } => self.update_local(
                run,
                temporaries,
                depth,
                local,
                offset,
                kind,
                operation,
                value,
                keep,
            ),
            StepKind::Undefine { local } => self.undefine(run, temporaries, local),
            StepKind::Jump { to } => Ok(to),
            StepKind::Branch {
                depth,
                test,
                of,
                when,
                to,
            } => self.branch(run, temporaries, depth, test, of, when, to),
            StepKind::Case {
                depth,
                of,
                value,
                to,
            } => self.case(run, temporaries, depth, of, value, to),
            StepKind::Turn => self.turn(run, temporaries),
            StepKind::Sense { depth, channel } => self.sense(run, temporaries, depth, channel),
            StepKind::Emit { depth, value } => self.emit(run, temporaries, depth, value),
            StepKind::Checkpoint { depth } => self.checkpoint(run, temporaries, depth),
            StepKind::Stamp {
                depth,
                global,
                target,
                kind,
                value,
            } => self.stamp(run, temporaries, depth, global, target, kind, value),
            StepKind::Timely {
                depth,
                global,
                target,
                kind,
                limit,
                to,
            } => self.timely(run, temporaries, depth, global, target, kind, limit, to),
            StepKind::Open { table, to } => self.open(run, temporaries, table, to),
            StepKind::Check { table, to } => self.check(run, temporaries, table, to),
            StepKind::Close { table, to } => self.close(run, temporaries, table, to),
            StepKind::Call { .. }
            | StepKind::Result { .. }
            | StepKind::Enter { .. }
            | StepKind::Return { .. }
            | StepKind::ReturnNothing => Err(STUCK),
        }
    }
}
