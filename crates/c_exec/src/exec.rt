//! The meaning of statements (C99 6.8).

ghost use Rattle.std.specs.Prelude.{drop};
ghost use Rattle.c_run.specs.Gives.{Gives};
ghost use Rattle.c_run.specs.Runs as runs;
ghost use Rattle.c_meaning.specs.Statements as spec;
ghost use Rattle.c_meaning.specs.After as whole;
ghost use Rattle.c_eval.specs.Calling.{Calling};
ghost use Rattle.c_exec.specs.Switching as switching;
ghost use Rattle.c_exec.specs.Timing as timing;

use crate::groups::chosen;
use crate::parts::{declare, holds, loop_holds, loop_step, switch_number};
use crate::text::{broken_out, turn, used};
use crate::time::{ends_fine, is_young, named, opens, stamp};
use base16::{Reading, Sequence};
use c_eval::Body;
use c_meaning::Flow;
use c_run::{Halt, Run, Timed};
use c_values::Value;
use core_tree::{Core, Expr, Group, Place, Stmt, StmtKind};
use std::alloc::Global;

/// What a statement does in a text.
#[cycle(stmt)]
pub fn stmt<
    F: Fn(Global, &Core, &[Reading], u64, u16, Sequence<Value>, &mut Run) -> Result<Value, Halt>,
>(
    body: &Body<'_, F>,
    run: &mut Run,
    of: &Stmt,
    text: &Option<Sequence<Timed>>,
) -> Result<Flow, Halt>
    requires { Calling body.now.core.now body.now.readings.now body.now.depth (F.pre body.now.call) (F.post body.now.call) }
    ensures { let core = body.now.core.now in
        let calls = whole.calls core body.now.readings.now body.now.depth in
        Gives (spec.stmt core body.now.readings.now calls body.now.first of.now text.now run.old) result run.new }
{
    let node = of.node;
    match &of.kind {
        StmtKind::Expr(expr) => {
            body.expr(run, expr)?;
            Ok(Flow::Normal)
        }
        StmtKind::Block(all) => stmts(body, run, all.as_slice(), text),
        StmtKind::If { test, yes, no } => {
            if holds(body, run, node, test)? {
                stmt(body, run, yes.get(), text)
            } else if let Some(no) = no {
                stmt(body, run, no.get(), text)
            } else {
                Ok(Flow::Normal)
            }
        }
        StmtKind::While { test, body: inner } => {
            while_loop(body, run, inner.get(), node, test, text)
        }
        StmtKind::Do { body: inner, test } => do_loop(body, run, inner.get(), node, test, text),
        StmtKind::For {
            first,
            test,
            step,
            body: inner,
        } => match first {
            None => for_loop(body, run, inner.get(), node, test, step, text),
            Some(first) => {
                let flow = stmt(body, run, first.get(), text)?;
                for_rest(body, run, inner.get(), flow, node, test, step, text)
            }
        },
        StmtKind::Switch { on, groups: all } => {
            switch(body, run, all.as_slice(), node, on, text)
        }
        StmtKind::Break => Ok(Flow::Break),
        StmtKind::Continue => Ok(Flow::Continue),
        StmtKind::Return(None) => Ok(Flow::Return(Value::Undefined)),
        StmtKind::Return(Some(expr)) => {
            let value = body.expr(run, expr)?;
            let value = used(run, node, value)?;
            Ok(Flow::Return(value))
        }
        StmtKind::Stamped { place, value } => stamp(body, run, node, place, value),
        StmtKind::Timely {
            place,
            limit,
            yes,
            no,
        } => {
            if is_young(body, run, node, place, *limit)? {
                stmt(body, run, yes.get(), text)
            } else if let Some(no) = no {
                stmt(body, run, no.get(), text)
            } else {
                Ok(Flow::Normal)
            }
        }
        StmtKind::Expires {
            names,
            body: inner,
            catch,
        } => {
            if block(body, run, inner.as_slice(), names.as_slice())? {
                Ok(Flow::Normal)
            } else {
                stmts(body, run, catch.as_slice(), text)
            }
        }
        StmtKind::Declare { local, init } => {
            declare(
                body,
                run,
                node,
                body.first + u64::from(*local),
                init.as_slice(),
            )?;
            Ok(Flow::Normal)
        }
    }
}

/// Statements in order.
#[cycle(stmt)]
#[tactic(auto, using(crate::proofs::OneLayer::stmts_turn))]
pub fn stmts<
    F: Fn(Global, &Core, &[Reading], u64, u16, Sequence<Value>, &mut Run) -> Result<Value, Halt>,
>(
    body: &Body<'_, F>,
    run: &mut Run,
    all: &[Stmt],
    text: &Option<Sequence<Timed>>,
) -> Result<Flow, Halt>
    requires { Calling body.now.core.now body.now.readings.now body.now.depth (F.pre body.now.call) (F.post body.now.call) }
    ensures { let core = body.now.core.now in
        let calls = whole.calls core body.now.readings.now body.now.depth in
        Gives (spec.stmts core body.now.readings.now calls body.now.first all.now text.now run.old) result run.new }
{
    for next in all {
        match stmt(body, run, next, text)? {
            Flow::Normal => {}
            Flow::Break => return Ok(Flow::Break),
            Flow::Continue => return Ok(Flow::Continue),
            Flow::Return(value) => return Ok(Flow::Return(value)),
            Flow::Caught => return Ok(Flow::Caught),
        }
    }
    Ok(Flow::Normal)
}

/// The statements of the groups of a switch from the one with a number on.
#[cycle(stmt)]
#[tactic(auto, using(crate::proofs::Switches::groups_turn))]
fn groups<
    F: Fn(Global, &Core, &[Reading], u64, u16, Sequence<Value>, &mut Run) -> Result<Value, Halt>,
>(
    body: &Body<'_, F>,
    run: &mut Run,
    all: &[Group],
    first: usize,
    text: &Option<Sequence<Timed>>,
) -> Result<Flow, Halt>
    requires { Calling body.now.core.now body.now.readings.now body.now.depth (F.pre body.now.call) (F.post body.now.call) }
    ensures { let core = body.now.core.now in
        let calls = whole.calls core body.now.readings.now body.now.depth in
        Gives (switching.groups core body.now.readings.now calls body.now.first (drop first all.now) text.now run.old)
        result run.new }
{
    for next in first..all.len() {
        match stmts(body, run, all[next].body.as_slice(), text)? {
            Flow::Normal => {}
            Flow::Break => return Ok(Flow::Break),
            Flow::Continue => return Ok(Flow::Continue),
            Flow::Return(value) => return Ok(Flow::Return(value)),
            Flow::Caught => return Ok(Flow::Caught),
        }
    }
    Ok(Flow::Normal)
}

/// A switch, which chooses one of its groups to begin with.
#[cycle(stmt)]
fn switch<
    F: Fn(Global, &Core, &[Reading], u64, u16, Sequence<Value>, &mut Run) -> Result<Value, Halt>,
>(
    body: &Body<'_, F>,
    run: &mut Run,
    all: &[Group],
    node: u32,
    on: &Expr,
    text: &Option<Sequence<Timed>>,
) -> Result<Flow, Halt>
    requires { Calling body.now.core.now body.now.readings.now body.now.depth (F.pre body.now.call) (F.post body.now.call) }
    ensures { let core = body.now.core.now in
        let calls = whole.calls core body.now.readings.now body.now.depth in
        Gives (switching.switched core body.now.readings.now calls body.now.first node on.now all.now text.now run.old)
        result run.new }
{
    let number = switch_number(body, run, node, on)?;
    let flow = groups(body, run, all, chosen(number, all), text)?;
    Ok(broken_out(flow))
}

/// A loop whose test comes first.
#[cycle(stmt)]
#[tactic(auto, using(crate::proofs::Turns::loop_is, crate::proofs::Turns::turns_turn, crate::proofs::Turns::turns_end))]
fn while_loop<
    F: Fn(Global, &Core, &[Reading], u64, u16, Sequence<Value>, &mut Run) -> Result<Value, Halt>,
>(
    body: &Body<'_, F>,
    run: &mut Run,
    inner: &Stmt,
    node: u32,
    test: &Expr,
    text: &Option<Sequence<Timed>>,
) -> Result<Flow, Halt>
    requires { Calling body.now.core.now body.now.readings.now body.now.depth (F.pre body.now.call) (F.post body.now.call) }
    ensures { let core = body.now.core.now in
        let calls = whole.calls core body.now.readings.now body.now.depth in
        Gives (spec.loop body.now.readings.now text.now
        (spec.run_test core body.now.readings.now calls body.now.first node test.now)
        (spec.stmt core body.now.readings.now calls body.now.first inner.now text.now)
        (runs.pure tt) run.old) result run.new }
{
    for _turn in 0..u64::from(run.left()) + 1 {
        if !turn(run, body.readings, text)? {
            return Ok(Flow::Caught);
        }
        if !holds(body, run, node, test)? {
            return Ok(Flow::Normal);
        }
        match stmt(body, run, inner, text)? {
            Flow::Normal | Flow::Continue => {}
            Flow::Break => return Ok(Flow::Normal),
            Flow::Return(value) => return Ok(Flow::Return(value)),
            Flow::Caught => return Ok(Flow::Caught),
        }
    }
    Err(Halt::Broken { rule: 0, node })
}

/// A loop whose test comes last.
#[cycle(stmt)]
fn do_loop<
    F: Fn(Global, &Core, &[Reading], u64, u16, Sequence<Value>, &mut Run) -> Result<Value, Halt>,
>(
    body: &Body<'_, F>,
    run: &mut Run,
    inner: &Stmt,
    node: u32,
    test: &Expr,
    text: &Option<Sequence<Timed>>,
) -> Result<Flow, Halt>
    requires { Calling body.now.core.now body.now.readings.now body.now.depth (F.pre body.now.call) (F.post body.now.call) }
    ensures { let core = body.now.core.now in
        let calls = whole.calls core body.now.readings.now body.now.depth in
        Gives (runs.and_then (spec.stmt core body.now.readings.now calls body.now.first inner.now text.now run.old) (λ flow.
        spec.after_body flow (spec.loop body.now.readings.now text.now
        (spec.run_test core body.now.readings.now calls body.now.first node test.now)
        (spec.stmt core body.now.readings.now calls body.now.first inner.now text.now)
        (runs.pure tt)))) result run.new }
{
    match stmt(body, run, inner, text)? {
        Flow::Normal => while_loop(body, run, inner, node, test, text),
        Flow::Continue => while_loop(body, run, inner, node, test, text),
        Flow::Break => Ok(Flow::Normal),
        Flow::Return(value) => Ok(Flow::Return(value)),
        Flow::Caught => Ok(Flow::Caught),
    }
}

/// A loop with a step, whose test may be left out.
#[cycle(stmt)]
#[tactic(auto, using(crate::proofs::Turns::loop_is, crate::proofs::Turns::turns_turn, crate::proofs::Turns::turns_end))]
fn for_loop<
    F: Fn(Global, &Core, &[Reading], u64, u16, Sequence<Value>, &mut Run) -> Result<Value, Halt>,
>(
    body: &Body<'_, F>,
    run: &mut Run,
    inner: &Stmt,
    node: u32,
    test: &Option<Expr>,
    step: &Option<Expr>,
    text: &Option<Sequence<Timed>>,
) -> Result<Flow, Halt>
    requires { Calling body.now.core.now body.now.readings.now body.now.depth (F.pre body.now.call) (F.post body.now.call) }
    ensures { let core = body.now.core.now in
        let calls = whole.calls core body.now.readings.now body.now.depth in
        Gives (spec.loop body.now.readings.now text.now
        (spec.loop_test core body.now.readings.now calls body.now.first node test.now)
        (spec.stmt core body.now.readings.now calls body.now.first inner.now text.now)
        (spec.loop_step core body.now.readings.now calls body.now.first step.now) run.old) result run.new }
{
    for _turn in 0..u64::from(run.left()) + 1 {
        if !turn(run, body.readings, text)? {
            return Ok(Flow::Caught);
        }
        if !loop_holds(body, run, node, test)? {
            return Ok(Flow::Normal);
        }
        match stmt(body, run, inner, text)? {
            Flow::Normal | Flow::Continue => {}
            Flow::Break => return Ok(Flow::Normal),
            Flow::Return(value) => return Ok(Flow::Return(value)),
            Flow::Caught => return Ok(Flow::Caught),
        }
        loop_step(body, run, step)?;
    }
    Err(Halt::Broken { rule: 0, node })
}

/// A loop with a step behind its first statement, which left so.
#[cycle(stmt)]
fn for_rest<
    F: Fn(Global, &Core, &[Reading], u64, u16, Sequence<Value>, &mut Run) -> Result<Value, Halt>,
>(
    body: &Body<'_, F>,
    run: &mut Run,
    inner: &Stmt,
    flow: Flow,
    node: u32,
    test: &Option<Expr>,
    step: &Option<Expr>,
    text: &Option<Sequence<Timed>>,
) -> Result<Flow, Halt>
    requires { Calling body.now.core.now body.now.readings.now body.now.depth (F.pre body.now.call) (F.post body.now.call) }
    ensures { let core = body.now.core.now in
        let calls = whole.calls core body.now.readings.now body.now.depth in
        Gives (spec.then_flow flow (spec.loop body.now.readings.now text.now
        (spec.loop_test core body.now.readings.now calls body.now.first node test.now)
        (spec.stmt core body.now.readings.now calls body.now.first inner.now text.now)
        (spec.loop_step core body.now.readings.now calls body.now.first step.now)) run.old) result run.new }
{
    match flow {
        Flow::Normal => for_loop(body, run, inner, node, test, step, text),
        Flow::Break => Ok(Flow::Break),
        Flow::Continue => Ok(Flow::Continue),
        Flow::Return(value) => Ok(Flow::Return(value)),
        Flow::Caught => Ok(Flow::Caught),
    }
}

/// A block with the scalars that it names; whether nothing expired up to its end.
#[cycle(stmt)]
fn block<
    F: Fn(Global, &Core, &[Reading], u64, u16, Sequence<Value>, &mut Run) -> Result<Value, Halt>,
>(body: &Body<'_, F>, run: &mut Run, inner: &[Stmt], names: &[Place]) -> Result<bool, Halt>
    requires { Calling body.now.core.now body.now.readings.now body.now.depth (F.pre body.now.call) (F.post body.now.call) }
    ensures { let core = body.now.core.now in
        let calls = whole.calls core body.now.readings.now body.now.depth in
        Gives (timing.block core body.now.readings.now calls body.now.first names.now inner.now run.old) result run.new }
{
    let text = Some(named(body, run, names)?);
    if !opens(body.alloc, run, body.readings, &text)? {
        return Ok(false);
    }
    let flow = stmts(body, run, inner, &text)?;
    ends_fine(run, body.readings, &text, flow)
}
