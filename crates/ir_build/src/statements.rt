//! The steps of statements.

ghost use Rattle.std.specs.Prelude.{◌≡◌, ◌+◌, length, map, OnOk};
ghost use Rattle.core_tree.specs.Layout as layout;
ghost use Rattle.ir_gen.specs.Code as codes;
ghost use Rattle.ir_gen.specs.Body as spec;
ghost use Rattle.ir_build.specs.Grouping.{between, grouped};

use crate::emit::{further, next_place, put};
use crate::initialisers::declare_steps;
use crate::openings::{put_do, put_for_turn, put_step, put_switch, put_test, put_turn};
use crate::stmt_parts::taken_steps;
use crate::stmt_sizes::stmt_count;
use base16::{NoMemory, Sequence};
use core_tree::{Expr, Group, Slot, Stmt, StmtKind, Struct};
use ir::{Operand, Step, StepKind};

/// The steps of a statement, whose `break` and `continue` go to these places.
#[cycle(stmt)]
#[tactic(auto, using(crate::proofs::StmtEquations::block_steps, crate::proofs::StmtEquations::block_size))]
pub fn stmt_steps(
    code: &mut Sequence<Step>,
    structs: &[Struct],
    objects: &[Sequence<Slot>],
    stmt: &Stmt,
    brk: u32,
    cont: u32,
) -> Result<(), NoMemory>
    ensures steps { OnOk result (code.new ≡ between code.old (spec.stmt structs.now objects.now stmt.now) brk cont) }
    ensures size { OnOk result (length code.new ≡ length code.old + (spec.stmt structs.now objects.now stmt.now).size) }
{
    match &stmt.kind {
        StmtKind::Block(all) => {
            stmts_steps(code, structs, objects, all.as_slice(), brk, cont)?;
            Ok(())
        }
        StmtKind::If { .. } => {
            if_steps(code, structs, objects, stmt, brk, cont)?;
            Ok(())
        }
        StmtKind::While { .. } | StmtKind::Do { .. } => {
            while_steps(code, structs, objects, stmt, brk, cont)?;
            Ok(())
        }
        StmtKind::For { .. } => {
            for_steps(code, structs, objects, stmt, brk, cont)?;
            Ok(())
        }
        StmtKind::Switch { .. } => {
            switch_steps(code, structs, objects, stmt, brk, cont)?;
            Ok(())
        }
        StmtKind::Break => {
            put(code, stmt.node, StepKind::Jump { to: brk })?;
            Ok(())
        }
        StmtKind::Continue => {
            put(code, stmt.node, StepKind::Jump { to: cont })?;
            Ok(())
        }
        _ => {
            simple_steps(code, structs, objects, stmt, brk, cont)?;
            Ok(())
        }
    }
}

/// The steps of a `while` or a `do`.
#[cycle(stmt)]
#[tactic(auto, using(crate::proofs::Joining::loop_made, crate::proofs::Joining::do_made))]
fn while_steps(
    code: &mut Sequence<Step>,
    structs: &[Struct],
    objects: &[Sequence<Slot>],
    stmt: &Stmt,
    brk: u32,
    cont: u32,
) -> Result<(), NoMemory>
    ensures steps { OnOk result (code.new ≡ between code.old (spec.stmt structs.now objects.now stmt.now) brk cont) }
    ensures size { OnOk result (length code.new ≡ length code.old + (spec.stmt structs.now objects.now stmt.now).size) }
{
    let node = stmt.node;
    match &stmt.kind {
        StmtKind::While { test, body } => {
            let turn = next_place(code)?;
            let (next, end) = put_turn(code, structs, objects, node, test, body.get())?;
            stmt_steps(code, structs, objects, body.get(), end, next)?;
            put(code, node, StepKind::Jump { to: turn })?;
            Ok(())
        }
        StmtKind::Do { body, test } => {
            put_do(code, structs, objects, node, test)?;
            let turn = next_place(code)?;
            let (next, end) = put_turn(code, structs, objects, node, test, body.get())?;
            stmt_steps(code, structs, objects, body.get(), end, next)?;
            put(code, node, StepKind::Jump { to: turn })?;
            Ok(())
        }
        _ => Err(NoMemory),
    }
}

/// The steps of a `for`.
#[cycle(stmt)]
#[tactic(auto, using(crate::proofs::Joining::loop_made, crate::proofs::Joining::then_made))]
fn for_steps(
    code: &mut Sequence<Step>,
    structs: &[Struct],
    objects: &[Sequence<Slot>],
    stmt: &Stmt,
    brk: u32,
    cont: u32,
) -> Result<(), NoMemory>
    ensures steps { OnOk result (code.new ≡ between code.old (spec.stmt structs.now objects.now stmt.now) brk cont) }
    ensures size { OnOk result (length code.new ≡ length code.old + (spec.stmt structs.now objects.now stmt.now).size) }
{
    let node = stmt.node;
    let StmtKind::For {
        first,
        test,
        step,
        body,
    } = &stmt.kind
    else {
        return Err(NoMemory);
    };
    match first {
        None => {
            let turn = next_place(code)?;
            let (next, end) = put_for_turn(code, structs, objects, node, test, body.get(), step)?;
            stmt_steps(code, structs, objects, body.get(), end, next)?;
            put_step(code, structs, objects, node, step, turn)?;
            Ok(())
        }
        Some(first) => {
            stmt_steps(code, structs, objects, first.get(), brk, cont)?;
            let turn = next_place(code)?;
            let (next, end) = put_for_turn(code, structs, objects, node, test, body.get(), step)?;
            stmt_steps(code, structs, objects, body.get(), end, next)?;
            put_step(code, structs, objects, node, step, turn)?;
            Ok(())
        }
    }
}

/// The steps of an `if`.
#[cycle(stmt)]
#[tactic(auto, using(crate::proofs::Joining::one_side_made, crate::proofs::Joining::both_sides_made))]
fn if_steps(
    code: &mut Sequence<Step>,
    structs: &[Struct],
    objects: &[Sequence<Slot>],
    stmt: &Stmt,
    brk: u32,
    cont: u32,
) -> Result<(), NoMemory>
    ensures steps { OnOk result (code.new ≡ between code.old (spec.stmt structs.now objects.now stmt.now) brk cont) }
    ensures size { OnOk result (length code.new ≡ length code.old + (spec.stmt structs.now objects.now stmt.now).size) }
{
    let node = stmt.node;
    match &stmt.kind {
        StmtKind::If {
            test,
            yes,
            no: None,
        } => {
            let other = put_test(code, structs, objects, node, test, yes.get())?;
            stmt_steps(code, structs, objects, yes.get(), brk, cont)?;
            put(code, node, StepKind::Jump { to: other })?;
            Ok(())
        }
        StmtKind::If {
            test,
            yes,
            no: Some(no),
        } => {
            let other = put_test(code, structs, objects, node, test, yes.get())?;
            let end = further(other, stmt_count(structs, objects, no.get())?)?;
            stmt_steps(code, structs, objects, yes.get(), brk, cont)?;
            put(code, node, StepKind::Jump { to: end })?;
            stmt_steps(code, structs, objects, no.get(), brk, cont)?;
            Ok(())
        }
        _ => Err(NoMemory),
    }
}

/// The steps of a `switch`.
#[cycle(stmt)]
#[tactic(auto, using(crate::proofs::StmtEquations::switch_steps, crate::proofs::StmtEquations::switch_sized, crate::proofs::Joining::switch_made))]
fn switch_steps(
    code: &mut Sequence<Step>,
    structs: &[Struct],
    objects: &[Sequence<Slot>],
    stmt: &Stmt,
    brk: u32,
    cont: u32,
) -> Result<(), NoMemory>
    ensures steps { OnOk result (code.new ≡ between code.old (spec.stmt structs.now objects.now stmt.now) brk cont) }
    ensures size { OnOk result (length code.new ≡ length code.old + (spec.stmt structs.now objects.now stmt.now).size) }
{
    match &stmt.kind {
        StmtKind::Switch { on, groups } => {
            let groups = groups.as_slice();
            let end = put_switch(code, structs, objects, stmt.node, on, groups)?;
            groups_steps(code, structs, objects, groups, end, cont)?;
            Ok(())
        }
        _ => Err(NoMemory),
    }
}

/// The steps of a statement that has no other in it, and does not leave what is around it.
fn simple_steps(
    code: &mut Sequence<Step>,
    structs: &[Struct],
    objects: &[Sequence<Slot>],
    stmt: &Stmt,
    brk: u32,
    cont: u32,
) -> Result<(), NoMemory>
    ensures steps { OnOk result (code.new ≡ between code.old (spec.stmt structs.now objects.now stmt.now) brk cont) }
    ensures size { OnOk result (length code.new ≡ length code.old + (spec.stmt structs.now objects.now stmt.now).size) }
{
    let node = stmt.node;
    match &stmt.kind {
        StmtKind::Expr(expr) => {
            taken_steps(code, structs, node, StepKind::Drop { depth: 0 }, expr)?;
            Ok(())
        }
        StmtKind::Return(None) => {
            put(code, node, StepKind::ReturnNothing)?;
            Ok(())
        }
        StmtKind::Return(Some(value)) => {
            let step = StepKind::Return {
                depth: 0,
                value: Operand::Temporary,
            };
            taken_steps(code, structs, node, step, value)?;
            Ok(())
        }
        StmtKind::Stamped { .. } => Ok(()),
        StmtKind::Timely { .. } => Ok(()),
        StmtKind::Expires { .. } => Ok(()),
        StmtKind::Declare { local, init } => {
            declare_steps(code, structs, objects, node, *local, init.as_slice())?;
            Ok(())
        }
        _ => Err(NoMemory),
    }
}

/// The steps of statements one after another.
#[cycle(stmt)]
#[tactic(auto, using(crate::proofs::StmtTurns::stmts_steps_turn, crate::proofs::StmtTurns::stmts_size_turn))]
pub fn stmts_steps(
    code: &mut Sequence<Step>,
    structs: &[Struct],
    objects: &[Sequence<Slot>],
    all: &[Stmt],
    brk: u32,
    cont: u32,
) -> Result<(), NoMemory>
    ensures steps { OnOk result (code.new ≡ between code.old (spec.stmts structs.now objects.now all.now) brk cont) }
    ensures size { OnOk result (length code.new ≡ length code.old + (spec.stmts structs.now objects.now all.now).size) }
{
    for stmt in all {
        stmt_steps(code, structs, objects, stmt, brk, cont)?;
    }
    Ok(())
}

/// The steps of the groups of a `switch`.
#[cycle(stmt)]
#[tactic(auto, using(crate::proofs::StmtTurns::groups_steps_turn, crate::proofs::StmtTurns::groups_size_turn))]
fn groups_steps(
    code: &mut Sequence<Step>,
    structs: &[Struct],
    objects: &[Sequence<Slot>],
    groups: &[Group],
    brk: u32,
    cont: u32,
) -> Result<(), NoMemory>
    ensures steps { OnOk result (code.new
        ≡ between code.old (spec.groups_body (map (grouped structs.now objects.now) groups.now)) brk cont) }
    ensures size { OnOk result (length code.new
        ≡ length code.old + (spec.groups_body (map (grouped structs.now objects.now) groups.now)).size) }
{
    for group in groups {
        stmts_steps(code, structs, objects, group.body.as_slice(), brk, cont)?;
    }
    Ok(())
}
