//! What stands before and behind the statements in a statement.

ghost use Rattle.std.specs.Prelude.{◌≡◌, ◌+◌, [], ◌∷◌, ◌++◌, length, map, IfOk, OnOk};
ghost use Rattle.core_tree.specs.Layout as layout;
ghost use Rattle.ir.specs.declared.form.StepKind.TheVariants as step;
ghost use Rattle.ir_gen.specs.Code as codes;
ghost use Rattle.ir_gen.specs.Body as spec;
ghost use Rattle.ir_build.specs.Grouping.{choosing, grouped};

use crate::cases::{case_steps, default_place};
use crate::emit::{further, next_place, put};
use crate::expressions::expr_steps;
use crate::sizes::expr_count;
use crate::stmt_parts::{
    guard_count, guard_steps, optional_guard_count, optional_guard_steps, part_count, part_steps,
};
use crate::stmt_sizes::{case_count, groups_count, stmt_count};
use base16::{NoMemory, Sequence};
use core_tree::{Expr, Group, Slot, Stmt, Struct, int_type_of};
use ir::{Step, StepKind};

/// The test of an `if`, and where its other side begins.
pub fn put_test(
    code: &mut Sequence<Step>,
    structs: &[Struct],
    objects: &[Sequence<Slot>],
    node: u32,
    test: &Expr,
    yes: &Stmt,
) -> Result<u32, NoMemory>
    ensures steps { IfOk result (λ other. code.new
        ≡ code.old ++ (spec.test_guard structs.now objects.now node test.now).steps (length code.old) other) }
    ensures size { IfOk result (λ other. length code.new
        ≡ length code.old + (spec.test_guard structs.now objects.now node test.now).size) }
    ensures other { IfOk result (λ other. other
        ≡ length code.old + (spec.test_guard structs.now objects.now node test.now).size
        + (spec.stmt structs.now objects.now yes.now).size + 1) }
{
    let start = further(
        next_place(code)?,
        guard_count(structs, objects, node, test)?,
    )?;
    let jump = further(start, stmt_count(structs, objects, yes)?)?;
    let other = further(jump, 1)?;
    guard_steps(code, structs, objects, node, test, other)?;
    Ok(other)
}

/// The jump to the body of a `do` over the turn and the test.
pub fn put_do(
    code: &mut Sequence<Step>,
    structs: &[Struct],
    objects: &[Sequence<Slot>],
    node: u32,
    test: &Expr,
) -> Result<(), NoMemory>
    ensures steps { OnOk result (code.new ≡ code.old ++ codes.at_node node
        (step.Jump (length code.old + 1 + 1 + (spec.test_guard structs.now objects.now node test.now).size)) ∷ []) }
    ensures size { OnOk result (length code.new ≡ length code.old + 1) }
{
    let turn = further(next_place(code)?, 1)?;
    let guard = further(turn, 1)?;
    let to = further(guard, guard_count(structs, objects, node, test)?)?;
    put(code, node, StepKind::Jump { to })?;
    Ok(())
}

/// The turn and the test of a loop without a step, and the places behind its body and behind it.
pub fn put_turn(
    code: &mut Sequence<Step>,
    structs: &[Struct],
    objects: &[Sequence<Slot>],
    node: u32,
    test: &Expr,
    body: &Stmt,
) -> Result<(u32, u32), NoMemory>
    ensures steps { IfOk result (λ places. code.new ≡ code.old ++ codes.at_node node step.Turn
        ∷ (spec.test_guard structs.now objects.now node test.now).steps (length code.old + 1) places.1) }
    ensures size { IfOk result (λ places. length code.new
        ≡ length code.old + 1 + (spec.test_guard structs.now objects.now node test.now).size) }
    ensures next { IfOk result (λ places. places.0 ≡ length code.old + 1
        + (spec.test_guard structs.now objects.now node test.now).size + (spec.stmt structs.now objects.now body.now).size) }
    ensures end { IfOk result (λ places. places.1 ≡ length code.old + 1
        + (spec.test_guard structs.now objects.now node test.now).size + (spec.stmt structs.now objects.now body.now).size + 1) }
{
    let guard = further(next_place(code)?, 1)?;
    let start = further(guard, guard_count(structs, objects, node, test)?)?;
    let next = further(start, stmt_count(structs, objects, body)?)?;
    let end = further(next, 1)?;
    put(code, node, StepKind::Turn)?;
    guard_steps(code, structs, objects, node, test, end)?;
    Ok((next, end))
}

/// The turn and the test of a loop, and the places behind its body and behind it.
pub fn put_for_turn(
    code: &mut Sequence<Step>,
    structs: &[Struct],
    objects: &[Sequence<Slot>],
    node: u32,
    test: &Option<Expr>,
    body: &Stmt,
    part: &Option<Expr>,
) -> Result<(u32, u32), NoMemory>
    ensures steps { IfOk result (λ places. code.new ≡ code.old ++ codes.at_node node step.Turn
        ∷ (spec.optional_guard structs.now objects.now node test.now).steps (length code.old + 1) places.1) }
    ensures size { IfOk result (λ places. length code.new
        ≡ length code.old + 1 + (spec.optional_guard structs.now objects.now node test.now).size) }
    ensures next { IfOk result (λ places. places.0 ≡ length code.old + 1
        + (spec.optional_guard structs.now objects.now node test.now).size + (spec.stmt structs.now objects.now body.now).size) }
    ensures end { IfOk result (λ places. places.1 ≡ length code.old + 1
        + (spec.optional_guard structs.now objects.now node test.now).size + (spec.stmt structs.now objects.now body.now).size
        + (spec.optional_part structs.now objects.now node part.now).size + 1) }
{
    let guard = further(next_place(code)?, 1)?;
    let start = further(guard, optional_guard_count(structs, objects, node, test)?)?;
    let step_at = further(start, stmt_count(structs, objects, body)?)?;
    let back = further(step_at, part_count(structs, objects, node, part)?)?;
    let end = further(back, 1)?;
    put(code, node, StepKind::Turn)?;
    optional_guard_steps(code, structs, objects, node, test, end)?;
    Ok((step_at, end))
}

/// The step of a loop, and the jump back to its turn.
pub fn put_step(
    code: &mut Sequence<Step>,
    structs: &[Struct],
    objects: &[Sequence<Slot>],
    node: u32,
    part: &Option<Expr>,
    turn: u32,
) -> Result<(), NoMemory>
    ensures steps { OnOk result (code.new ≡ code.old
        ++ ((spec.optional_part structs.now objects.now node part.now).steps (length code.old)
        ++ codes.at_node node (step.Jump turn) ∷ [])) }
    ensures size { OnOk result (length code.new
        ≡ length code.old + ((spec.optional_part structs.now objects.now node part.now).size + 1)) }
{
    part_steps(code, structs, objects, node, part)?;
    put(code, node, StepKind::Jump { to: turn })?;
    Ok(())
}

/// What stands before the groups of a `switch`, and the place behind them.
pub fn put_switch(
    code: &mut Sequence<Step>,
    structs: &[Struct],
    objects: &[Sequence<Slot>],
    node: u32,
    on: &Expr,
    groups: &[Group],
) -> Result<u32, NoMemory>
    ensures steps { IfOk result (λ end. code.new ≡ code.old
        ++ choosing node (layout.int_type_of on.now.ty) (codes.expr structs.now on.now)
        (map (grouped structs.now objects.now) groups.now) (length code.old)) }
    ensures size { IfOk result (λ end. length code.new
        ≡ spec.groups_at (length code.old) (codes.expr structs.now on.now) (map (grouped structs.now objects.now) groups.now)) }
    ensures end { IfOk result (λ end. end
        ≡ spec.groups_end (length code.old) (codes.expr structs.now on.now) (map (grouped structs.now objects.now) groups.now)) }
{
    let of = int_type_of(&on.ty);
    let labels = further(next_place(code)?, expr_count(structs, on)?)?;
    let drop = further(labels, case_count(structs, objects, groups)?)?;
    let jump = further(drop, 1)?;
    let start = further(jump, 1)?;
    let end = further(start, groups_count(structs, objects, groups)?)?;
    expr_steps(code, structs, on, 0)?;
    case_steps(code, structs, objects, node, of, start, groups)?;
    put(code, node, StepKind::Drop { depth: 0 })?;
    let to = default_place(structs, objects, start, groups)?;
    put(code, node, StepKind::Jump { to })?;
    Ok(end)
}
