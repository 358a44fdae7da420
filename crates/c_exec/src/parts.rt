//! The parts of statements that evaluate expressions: tests, steps and initialisers.

ghost use Rattle.std.specs.Prelude.{◌≡◌};
ghost use Rattle.c_run.specs.Gives.{Gives};
ghost use Rattle.c_run.specs.Runs as runs;
ghost use Rattle.c_meaning.specs.Statements as spec;
ghost use Rattle.c_values.specs.Values as values;
ghost use Rattle.c_meaning.specs.After as whole;
ghost use Rattle.c_values.specs.Objects as objects;
ghost use Rattle.c_eval.specs.Calling.{Calling};
ghost use Rattle.c_exec.specs.Switching.{switch_number};

use base16::{Kind, Reading, Sequence};
use c_eval::{Body, at, given, tested};
use c_run::{Halt, Run};
use c_values::{Value, integer, kind_at, numbered, zero_of};
use core_tree::{Core, Expr, Init, int_type_of};
use std::alloc::Global;

/// Whether the test that a statement makes holds.
pub fn holds<
    F: Fn(Global, &Core, &[Reading], u64, u16, Sequence<Value>, &mut Run) -> Result<Value, Halt>,
>(body: &Body<'_, F>, run: &mut Run, node: u32, test: &Expr) -> Result<bool, Halt>
    requires { Calling body.now.core.now body.now.readings.now body.now.depth (F.pre body.now.call) (F.post body.now.call) }
    ensures { let core = body.now.core.now in
        let calls = whole.calls core body.now.readings.now body.now.depth in
        Gives (spec.run_test core body.now.readings.now calls body.now.first node test.now run.old) result run.new }
{
    let value = body.expr(run, test)?;
    tested(run, node, int_type_of(&test.ty), value)
}

/// Whether the test of a loop holds; one that is left out does.
pub fn loop_holds<
    F: Fn(Global, &Core, &[Reading], u64, u16, Sequence<Value>, &mut Run) -> Result<Value, Halt>,
>(body: &Body<'_, F>, run: &mut Run, node: u32, test: &Option<Expr>) -> Result<bool, Halt>
    requires { Calling body.now.core.now body.now.readings.now body.now.depth (F.pre body.now.call) (F.post body.now.call) }
    ensures { let core = body.now.core.now in
        let calls = whole.calls core body.now.readings.now body.now.depth in
        Gives (spec.loop_test core body.now.readings.now calls body.now.first node test.now run.old) result run.new }
{
    match test {
        None => Ok(true),
        Some(test) => holds(body, run, node, test),
    }
}

/// The number on which a switch chooses.
pub fn switch_number<
    F: Fn(Global, &Core, &[Reading], u64, u16, Sequence<Value>, &mut Run) -> Result<Value, Halt>,
>(body: &Body<'_, F>, run: &mut Run, node: u32, on: &Expr) -> Result<i64, Halt>
    requires { Calling body.now.core.now body.now.readings.now body.now.depth (F.pre body.now.call) (F.post body.now.call) }
    ensures { let core = body.now.core.now in
        let calls = whole.calls core body.now.readings.now body.now.depth in
        Gives (switch_number core body.now.readings.now calls body.now.first node on.now run.old) result run.new }
{
    let value = body.expr(run, on)?;
    given(node, integer(numbered(int_type_of(&on.ty), value)))
}

/// The step of a loop.
pub fn loop_step<
    F: Fn(Global, &Core, &[Reading], u64, u16, Sequence<Value>, &mut Run) -> Result<Value, Halt>,
>(body: &Body<'_, F>, run: &mut Run, step: &Option<Expr>) -> Result<(), Halt>
    requires { Calling body.now.core.now body.now.readings.now body.now.depth (F.pre body.now.call) (F.post body.now.call) }
    ensures { let core = body.now.core.now in
        let calls = whole.calls core body.now.readings.now body.now.depth in
        Gives (spec.loop_step core body.now.readings.now calls body.now.first step.now run.old) result run.new }
{
    if let Some(step) = step {
        body.expr(run, step)?;
    }
    Ok(())
}

/// The value of an initialiser's item, if it has one.
fn init_value<
    F: Fn(Global, &Core, &[Reading], u64, u16, Sequence<Value>, &mut Run) -> Result<Value, Halt>,
>(body: &Body<'_, F>, run: &mut Run, value: &Option<Expr>) -> Result<Option<Value>, Halt>
    requires { Calling body.now.core.now body.now.readings.now body.now.depth (F.pre body.now.call) (F.post body.now.call) }
    ensures { let core = body.now.core.now in
        let calls = whole.calls core body.now.readings.now body.now.depth in
        Gives (spec.init_value core body.now.readings.now calls body.now.first value.now run.old) result run.new }
{
    match value {
        None => Ok(None),
        Some(value) => Ok(Some(body.expr(run, value)?)),
    }
}

/// The kind of the scalar of an object at an offset.
fn kind_there(run: &Run, node: u32, object: u64, offset: u32) -> Result<Kind, Halt>
    ensures { Gives (runs.asked node (λ s. objects.kind_at s object offset) run.now) result run.now }
{
    given(node, kind_at(run.state(), object, offset))
}

/// The stores of an initialiser.
#[tactic(auto, using(crate::proofs::OneLayer::initialised_turn))]
fn initialise<
    F: Fn(Global, &Core, &[Reading], u64, u16, Sequence<Value>, &mut Run) -> Result<Value, Halt>,
>(body: &Body<'_, F>, run: &mut Run, node: u32, object: u64, inits: &[Init]) -> Result<(), Halt>
    requires { Calling body.now.core.now body.now.readings.now body.now.depth (F.pre body.now.call) (F.post body.now.call) }
    ensures { let core = body.now.core.now in
        let calls = whole.calls core body.now.readings.now body.now.depth in
        Gives (spec.initialised core body.now.readings.now calls body.now.first node object inits.now run.old) result run.new }
{
    for init in inits {
        let value = init_value(body, run, &init.value)?;
        let offset = u32::from(init.offset);
        let kind = kind_there(run, node, object, offset)?;
        let value = or_zero(kind, value);
        run.store(
            body.alloc,
            node,
            at(object, offset),
            kind,
            value,
            init.marked,
        )?;
    }
    Ok(())
}

/// A declaration of a local is reached.
pub fn declare<
    F: Fn(Global, &Core, &[Reading], u64, u16, Sequence<Value>, &mut Run) -> Result<Value, Halt>,
>(body: &Body<'_, F>, run: &mut Run, node: u32, object: u64, inits: &[Init]) -> Result<(), Halt>
    requires { Calling body.now.core.now body.now.readings.now body.now.depth (F.pre body.now.call) (F.post body.now.call) }
    ensures { let core = body.now.core.now in
        let calls = whole.calls core body.now.readings.now body.now.depth in
        Gives (spec.declared core body.now.readings.now calls body.now.first node object inits.now run.old) result run.new }
{
    if inits.is_empty() {
        run.clear(body.alloc, object);
        return Ok(());
    }
    initialise(body, run, node, object, inits)
}

fn or_zero(kind: Kind, value: Option<Value>) -> Value
    ensures { result ≡ spec.optional (values.zero_of kind) value }
{
    match value {
        None => zero_of(kind),
        Some(value) => value,
    }
}
