//! How many steps statements have; 2^32 - 1 stands for every greater number.

ghost use Rattle.std.specs.Prelude.{◌≡◌, [], ◌∷◌, map, IfOk};
ghost use Rattle.core_tree.specs.Heights.{capped};
ghost use Rattle.ir_gen.specs.Body as spec;
ghost use Rattle.ir_build.specs.Grouping.{grouped};

use crate::emit::sum;
use crate::sizes::expr_size;
use base16::{NoMemory, Sequence};
use core_tree::{Expr, Group, Init, Slot, Stmt, StmtKind, Struct};

/// How many steps the test of a loop has.
pub fn guard_size(
    structs: &[Struct],
    objects: &[Sequence<Slot>],
    node: u32,
    test: &Option<Expr>,
) -> u32
    ensures { result ≡ capped (spec.optional_guard structs.now objects.now node test.now).size }
{
    match test {
        None => 0,
        Some(test) => sum(expr_size(structs, test), 1),
    }
}

/// How many steps the step of a loop has.
pub fn part_size(
    structs: &[Struct],
    objects: &[Sequence<Slot>],
    node: u32,
    step: &Option<Expr>,
) -> u32
    ensures { result ≡ capped (spec.optional_part structs.now objects.now node step.now).size }
{
    match step {
        None => 0,
        Some(step) => sum(expr_size(structs, step), 1),
    }
}

/// How many steps a store of an initialiser has.
fn init_size(
    structs: &[Struct],
    objects: &[Sequence<Slot>],
    node: u32,
    local: u32,
    init: &Init,
) -> u32
    ensures { result
        ≡ capped (spec.init_value structs.now objects.now node local init.now.offset init.now.marked init.now.value).size }
{
    match &init.value {
        None => 1,
        Some(value) => sum(expr_size(structs, value), 1),
    }
}

/// How many steps the stores of an initialiser have.
#[tactic(auto, using(crate::proofs::StmtTurns::inits_size_turn))]
fn inits_size(
    structs: &[Struct],
    objects: &[Sequence<Slot>],
    node: u32,
    local: u32,
    init: &[Init],
) -> u32
    ensures { result ≡ capped (spec.init_parts structs.now objects.now node local init.now).size }
{
    let mut size = 0;
    for one in init {
        size = sum(size, init_size(structs, objects, node, local, one));
    }
    size
}

/// How many steps a declaration has.
#[tactic(auto, using(crate::proofs::StmtTurns::declare_none, crate::proofs::StmtTurns::declare_some))]
fn declare_size(
    structs: &[Struct],
    objects: &[Sequence<Slot>],
    node: u32,
    local: u32,
    init: &[Init],
) -> u32
    ensures { result ≡ capped (spec.declare_part structs.now objects.now node local init.now).size }
{
    if init.len() == 0 {
        return 1;
    }
    inits_size(structs, objects, node, local, init)
}

/// 1 for a number.
fn counted(label: Option<i64>) -> u32
    ensures { result ≡ spec.label_count (label ∷ []) }
{
    match label {
        None => 0,
        Some(_) => 1,
    }
}

/// How many of the labels are numbers.
#[tactic(auto, using(crate::proofs::StmtTurns::label_count_turn))]
fn label_count(labels: &[Option<i64>]) -> u32
    ensures { result ≡ capped (spec.label_count labels.now) }
{
    let mut count = 0;
    for label in labels {
        count = sum(count, counted(*label));
    }
    count
}

/// How many labels of the groups are numbers.
#[tactic(auto, using(crate::proofs::StmtTurns::case_count_turn))]
fn case_size(structs: &[Struct], objects: &[Sequence<Slot>], groups: &[Group]) -> u32
    ensures { result ≡ capped (spec.case_count (map (grouped structs.now objects.now) groups.now)) }
{
    let mut count = 0;
    for group in groups {
        count = sum(count, label_count(group.labels.as_slice()));
    }
    count
}

/// How many steps a statement has.
#[cycle(stmt_size)]
#[tactic(auto, using(crate::proofs::StmtEquations::block_size, crate::proofs::StmtEquations::switch_size))]
pub fn stmt_size(structs: &[Struct], objects: &[Sequence<Slot>], stmt: &Stmt) -> u32
    ensures { result ≡ capped (spec.stmt structs.now objects.now stmt.now).size }
{
    let node = stmt.node;
    match &stmt.kind {
        StmtKind::Expr(expr) => sum(expr_size(structs, expr), 1),
        StmtKind::Block(all) => stmts_size(structs, objects, all.as_slice()),
        StmtKind::If {
            test,
            yes,
            no: None,
        } => {
            let test = expr_size(structs, test);
            let parts = sum(test, stmt_size(structs, objects, yes.get()));
            sum(parts, 2)
        }
        StmtKind::If {
            test,
            yes,
            no: Some(no),
        } => {
            let test = expr_size(structs, test);
            let parts = sum(test, stmt_size(structs, objects, yes.get()));
            sum(sum(parts, stmt_size(structs, objects, no.get())), 2)
        }
        StmtKind::While { test, body } => {
            let test = expr_size(structs, test);
            let parts = sum(test, stmt_size(structs, objects, body.get()));
            sum(parts, 3)
        }
        StmtKind::Do { body, test } => {
            let test = expr_size(structs, test);
            let parts = sum(test, stmt_size(structs, objects, body.get()));
            sum(parts, 4)
        }
        StmtKind::For {
            first: None,
            test,
            step,
            body,
        } => {
            let test = guard_size(structs, objects, node, test);
            let parts = sum(test, stmt_size(structs, objects, body.get()));
            sum(sum(parts, part_size(structs, objects, node, step)), 2)
        }
        StmtKind::For {
            first: Some(first),
            test,
            step,
            body,
        } => {
            let first = stmt_size(structs, objects, first.get());
            let test = guard_size(structs, objects, node, test);
            let parts = sum(test, stmt_size(structs, objects, body.get()));
            sum(
                first,
                sum(sum(parts, part_size(structs, objects, node, step)), 2),
            )
        }
        StmtKind::Switch { on, groups } => {
            let groups = groups.as_slice();
            let on = expr_size(structs, on);
            let parts = sum(on, case_size(structs, objects, groups));
            sum(sum(parts, groups_size(structs, objects, groups)), 2)
        }
        StmtKind::Break => 1,
        StmtKind::Continue => 1,
        StmtKind::Return(None) => 1,
        StmtKind::Return(Some(value)) => sum(expr_size(structs, value), 1),
        StmtKind::Stamped { .. } => 0,
        StmtKind::Timely { .. } => 0,
        StmtKind::Expires { .. } => 0,
        StmtKind::Declare { local, init } => {
            declare_size(structs, objects, node, *local, init.as_slice())
        }
    }
}

/// How many steps statements have.
#[cycle(stmt_size)]
#[tactic(auto, using(crate::proofs::StmtTurns::stmts_size_turn))]
pub fn stmts_size(structs: &[Struct], objects: &[Sequence<Slot>], all: &[Stmt]) -> u32
    ensures { result ≡ capped (spec.stmts structs.now objects.now all.now).size }
{
    let mut size = 0;
    for stmt in all {
        size = sum(size, stmt_size(structs, objects, stmt));
    }
    size
}

/// How many steps the groups of a `switch` have.
#[cycle(stmt_size)]
#[tactic(auto, using(crate::proofs::StmtTurns::groups_size_turn))]
fn groups_size(structs: &[Struct], objects: &[Sequence<Slot>], groups: &[Group]) -> u32
    ensures { result ≡ capped (spec.groups_body (map (grouped structs.now objects.now) groups.now)).size }
{
    let mut size = 0;
    for group in groups {
        size = sum(size, stmts_size(structs, objects, group.body.as_slice()));
    }
    size
}

/// How many steps a statement has, where the number has 32 bits.
pub fn stmt_count(
    structs: &[Struct],
    objects: &[Sequence<Slot>],
    stmt: &Stmt,
) -> Result<u32, NoMemory>
    ensures { IfOk result (λ count. count ≡ (spec.stmt structs.now objects.now stmt.now).size) }
{
    let size = stmt_size(structs, objects, stmt);
    if size == u32::MAX {
        return Err(NoMemory);
    }
    Ok(size)
}

/// How many steps statements have, where the number has 32 bits.
pub fn stmts_count(
    structs: &[Struct],
    objects: &[Sequence<Slot>],
    all: &[Stmt],
) -> Result<u32, NoMemory>
    ensures { IfOk result (λ count. count ≡ (spec.stmts structs.now objects.now all.now).size) }
{
    let size = stmts_size(structs, objects, all);
    if size == u32::MAX {
        return Err(NoMemory);
    }
    Ok(size)
}

/// How many steps the groups of a `switch` have, where the number has 32 bits.
pub fn groups_count(
    structs: &[Struct],
    objects: &[Sequence<Slot>],
    groups: &[Group],
) -> Result<u32, NoMemory>
    ensures { IfOk result (λ count. count ≡ (spec.groups_body (map (grouped structs.now objects.now) groups.now)).size) }
{
    let size = groups_size(structs, objects, groups);
    if size == u32::MAX {
        return Err(NoMemory);
    }
    Ok(size)
}

/// How many labels of the groups are numbers, where that number has 32 bits.
pub fn case_count(
    structs: &[Struct],
    objects: &[Sequence<Slot>],
    groups: &[Group],
) -> Result<u32, NoMemory>
    ensures { IfOk result (λ count. count ≡ spec.case_count (map (grouped structs.now objects.now) groups.now)) }
{
    let size = case_size(structs, objects, groups);
    if size == u32::MAX {
        return Err(NoMemory);
    }
    Ok(size)
}
