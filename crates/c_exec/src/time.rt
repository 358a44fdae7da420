//! Time: stamps, their age, and blocks that are undone where something has expired.

ghost use Rattle.std.specs.Prelude.{◌≡◌};
ghost use Rattle.c_run.specs.Gives.{Gives};
ghost use Rattle.c_run.specs.Actions as actions;
ghost use Rattle.c_meaning.specs.Statements as spec;
ghost use Rattle.c_meaning.specs.After as whole;
ghost use Rattle.c_eval.specs.Calling.{Calling};
ghost use Rattle.c_exec.specs.Timing as timing;

use base16::{Reading, Sequence};
use c_eval::Body;
use c_meaning::Flow;
use c_run::{Halt, Run, Timed};
use c_stamps::timed_at;
use c_values::Value;
use core_tree::{Core, Expr, Place, kind_of};
use std::alloc::Global;

/// A stamped assignment.
pub fn stamp<
    F: Fn(Global, &Core, &[Reading], u64, u16, Sequence<Value>, &mut Run) -> Result<Value, Halt>,
>(body: &Body<'_, F>, run: &mut Run, node: u32, place: &Place, value: &Expr) -> Result<Flow, Halt>
    requires { Calling body.now.core.now body.now.readings.now body.now.depth (F.pre body.now.call) (F.post body.now.call) }
    ensures { let core = body.now.core.now in
        let calls = whole.calls core body.now.readings.now body.now.depth in
        Gives (timing.stamp core body.now.readings.now calls body.now.first node place.now value.now run.old) result run.new }
{
    let at = body.place(run, place)?;
    let value = body.expr(run, value)?;
    let timed = timed_at(body.alloc, body.core, at)?;
    let kind = kind_of(&place.ty);
    run.stamped(
        body.alloc,
        body.readings,
        node,
        at,
        kind,
        timed.stamp,
        value,
    )?;
    Ok(Flow::Normal)
}

/// Whether the stamp of a place is at most so many milliseconds old.
pub fn is_young<
    F: Fn(Global, &Core, &[Reading], u64, u16, Sequence<Value>, &mut Run) -> Result<Value, Halt>,
>(body: &Body<'_, F>, run: &mut Run, node: u32, place: &Place, limit: u64) -> Result<bool, Halt>
    requires { Calling body.now.core.now body.now.readings.now body.now.depth (F.pre body.now.call) (F.post body.now.call) }
    ensures { let core = body.now.core.now in
        let calls = whole.calls core body.now.readings.now body.now.depth in
        Gives (timing.is_young core body.now.readings.now calls body.now.first node place.now limit run.old) result run.new }
{
    let at = body.place(run, place)?;
    let timed = timed_at(body.alloc, body.core, at)?;
    run.timely(
        body.readings,
        node,
        at,
        kind_of(&place.ty),
        timed.stamp,
        limit,
    )
}

/// The scalars that a block names.
#[tactic(auto, using(crate::proofs::Blocks::named_turn, crate::proofs::Blocks::named_end))]
pub fn named<
    F: Fn(Global, &Core, &[Reading], u64, u16, Sequence<Value>, &mut Run) -> Result<Value, Halt>,
>(body: &Body<'_, F>, run: &mut Run, names: &[Place]) -> Result<Sequence<Timed>, Halt>
    requires { Calling body.now.core.now body.now.readings.now body.now.depth (F.pre body.now.call) (F.post body.now.call) }
    ensures { let core = body.now.core.now in
        let calls = whole.calls core body.now.readings.now body.now.depth in
        Gives (spec.named core body.now.readings.now calls body.now.first names.now run.old) result run.new }
{
    let mut all = Sequence::new(body.alloc);
    for name in names {
        let at = body.place(run, name)?;
        all.push(timed_at(body.alloc, body.core, at)?)?;
    }
    Ok(all)
}

/// The names of the block in whose text a statement stands.
fn names_in(text: &Option<Sequence<Timed>>) -> &[Timed]
    ensures { result.now ≡ timing.names_in text.now }
{
    match text {
        None => &[],
        Some(names) => names.as_slice(),
    }
}

/// Whether the block of a text opens, which it does where nothing has expired.
pub fn opens(
    alloc: Global,
    run: &mut Run,
    readings: &[Reading],
    text: &Option<Sequence<Timed>>,
) -> Result<bool, Halt>
    ensures { Gives (actions.open_block readings.now (timing.names_in text.now) run.old) result run.new }
{
    run.open_block(alloc, readings, names_in(text))
}

/// Whether nothing has expired by the end of the block of a text, which its statements left so.
pub fn ends_fine(
    run: &mut Run,
    readings: &[Reading],
    text: &Option<Sequence<Timed>>,
    flow: Flow,
) -> Result<bool, Halt>
    ensures { Gives (timing.ends_fine readings.now (timing.names_in text.now) flow run.old) result run.new }
{
    match flow {
        Flow::Caught => Ok(false),
        Flow::Normal => run.close_block(readings, names_in(text)),
        Flow::Break => run.close_block(readings, names_in(text)),
        Flow::Continue => run.close_block(readings, names_in(text)),
        Flow::Return(_) => run.close_block(readings, names_in(text)),
    }
}
