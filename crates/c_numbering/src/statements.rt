//! The nodes of statements.

ghost use Rattle.std.specs.Prelude.{◌≡◌, ◌+◌, map, IfOk};
ghost use Rattle.c_checking.specs.Numbering as spec;
ghost use Rattle.c_numbering.specs.Statements.{group_numbered};

use crate::expressions::{expr_numbered, place_numbered, taken};
use base16::NoMemory;
use core_tree::{Expr, Group, Init, Place, Stmt, StmtKind};
use sqlite_items::{Boxed, Items};
use std::alloc::Global;

/// An expression that may be left out, out of its box.
fn unboxed(expr: Option<Boxed<Expr>>) -> Option<Expr>
    ensures { result ≡ expr }
{
    match expr {
        None => None,
        Some(expr) => Some(expr.into_inner()),
    }
}

/// An expression that may be left out.
fn optional_numbered(
    alloc: Global,
    expr: &Option<Expr>,
    next: &mut u32,
) -> Result<Option<Boxed<Expr>>, NoMemory>
    ensures made { IfOk result (λ made. made ≡ (spec.maybe_expr expr.now next.old).0) }
    ensures next { IfOk result (λ made. next.new ≡ (spec.maybe_expr expr.now next.old).1) }
{
    match expr {
        None => Ok(None),
        Some(expr) => Ok(Some(expr_numbered(alloc, expr, next)?)),
    }
}

/// A store of an initialiser.
fn init_numbered(alloc: Global, init: &Init, next: &mut u32) -> Result<Boxed<Init>, NoMemory>
    ensures made { IfOk result (λ made. made ≡ (spec.init_numbered init.now next.old).0) }
    ensures next { IfOk result (λ made. next.new ≡ (spec.init_numbered init.now next.old).1) }
{
    let value = optional_numbered(alloc, &init.value, next)?;
    Ok(Boxed::new(
        alloc,
        Init {
            offset: init.offset,
            value: unboxed(value),
            marked: init.marked,
        },
    )?)
}

/// The stores of an initialiser.
#[tactic(auto, using(crate::proofs::Turns::inits_first, crate::proofs::Turns::inits_behind))]
fn inits_numbered(alloc: Global, all: &[Init], next: &mut u32) -> Result<Items<Init>, NoMemory>
    ensures made { IfOk result (λ made. made ≡ (spec.each (map spec.init_numbered all.now) next.old).0) }
    ensures next { IfOk result (λ made. next.new ≡ (spec.each (map spec.init_numbered all.now) next.old).1) }
{
    let mut made = Items::new(alloc);
    for init in all {
        let init = init_numbered(alloc, init, next)?;
        made.push(init.into_inner())?;
    }
    Ok(made)
}

/// Places one after another.
#[tactic(auto, using(crate::proofs::Turns::places_first, crate::proofs::Turns::places_behind))]
fn places_numbered(alloc: Global, all: &[Place], next: &mut u32) -> Result<Items<Place>, NoMemory>
    ensures made { IfOk result (λ made. made ≡ (spec.places_numbered all.now next.old).0) }
    ensures next { IfOk result (λ made. next.new ≡ (spec.places_numbered all.now next.old).1) }
{
    let mut made = Items::new(alloc);
    for place in all {
        let place = place_numbered(alloc, place, next)?;
        made.push(place.into_inner())?;
    }
    Ok(made)
}

/// A statement with its number.
fn stmt_with(alloc: Global, node: u32, line: u32, kind: StmtKind) -> Result<Boxed<Stmt>, NoMemory>
    ensures { IfOk result (λ made. made ≡ record { kind = kind; node = node; line = line }) }
{
    Ok(Boxed::new(alloc, Stmt { kind, node, line })?)
}

/// A statement with its nodes numbered from the next number on.
#[cycle(stmt)]
pub fn stmt_numbered(alloc: Global, stmt: &Stmt, next: &mut u32) -> Result<Boxed<Stmt>, NoMemory>
    ensures made { IfOk result (λ made. made ≡ (spec.stmt_numbered stmt.now next.old).0) }
    ensures next { IfOk result (λ made. next.new ≡ (spec.stmt_numbered stmt.now next.old).1) }
{
    let node = taken(next)?;
    let line = stmt.line;
    match &stmt.kind {
        StmtKind::Break => stmt_with(alloc, node, line, StmtKind::Break),
        StmtKind::Continue => stmt_with(alloc, node, line, StmtKind::Continue),
        StmtKind::Expr(expr) => {
            let expr = expr_numbered(alloc, expr, next)?;
            stmt_with(alloc, node, line, StmtKind::Expr(expr.into_inner()))
        }
        StmtKind::Return(expr) => {
            let expr = optional_numbered(alloc, expr, next)?;
            stmt_with(alloc, node, line, StmtKind::Return(unboxed(expr)))
        }
        StmtKind::Block(all) => {
            let all = stmts_numbered(alloc, all.as_slice(), next)?;
            stmt_with(alloc, node, line, StmtKind::Block(all))
        }
        StmtKind::If {
            test,
            yes,
            no: None,
        } => {
            let test = expr_numbered(alloc, test, next)?;
            let yes = stmt_numbered(alloc, yes.get(), next)?;
            let kind = StmtKind::If {
                test: test.into_inner(),
                yes,
                no: None,
            };
            stmt_with(alloc, node, line, kind)
        }
        StmtKind::If {
            test,
            yes,
            no: Some(no),
        } => {
            let test = expr_numbered(alloc, test, next)?;
            let yes = stmt_numbered(alloc, yes.get(), next)?;
            let no = stmt_numbered(alloc, no.get(), next)?;
            let kind = StmtKind::If {
                test: test.into_inner(),
                yes,
                no: Some(no),
            };
            stmt_with(alloc, node, line, kind)
        }
        StmtKind::While { test, body } => {
            let test = expr_numbered(alloc, test, next)?;
            let body = stmt_numbered(alloc, body.get(), next)?;
            let kind = StmtKind::While {
                test: test.into_inner(),
                body,
            };
            stmt_with(alloc, node, line, kind)
        }
        StmtKind::Do { body, test } => {
            let body = stmt_numbered(alloc, body.get(), next)?;
            let test = expr_numbered(alloc, test, next)?;
            let kind = StmtKind::Do {
                body,
                test: test.into_inner(),
            };
            stmt_with(alloc, node, line, kind)
        }
        StmtKind::For {
            first: None,
            test,
            step,
            body,
        } => {
            let test = optional_numbered(alloc, test, next)?;
            let step = optional_numbered(alloc, step, next)?;
            let body = stmt_numbered(alloc, body.get(), next)?;
            let kind = StmtKind::For {
                first: None,
                test: unboxed(test),
                step: unboxed(step),
                body,
            };
            stmt_with(alloc, node, line, kind)
        }
        StmtKind::For {
            first: Some(first),
            test,
            step,
            body,
        } => {
            let first = stmt_numbered(alloc, first.get(), next)?;
            let test = optional_numbered(alloc, test, next)?;
            let step = optional_numbered(alloc, step, next)?;
            let body = stmt_numbered(alloc, body.get(), next)?;
            let kind = StmtKind::For {
                first: Some(first),
                test: unboxed(test),
                step: unboxed(step),
                body,
            };
            stmt_with(alloc, node, line, kind)
        }
        StmtKind::Switch { on, groups } => {
            let on = expr_numbered(alloc, on, next)?;
            let groups = groups_numbered(alloc, groups.as_slice(), next)?;
            let kind = StmtKind::Switch {
                on: on.into_inner(),
                groups,
            };
            stmt_with(alloc, node, line, kind)
        }
        StmtKind::Stamped { place, value } => {
            let place = place_numbered(alloc, place, next)?;
            let value = expr_numbered(alloc, value, next)?;
            let kind = StmtKind::Stamped {
                place: place.into_inner(),
                value: value.into_inner(),
            };
            stmt_with(alloc, node, line, kind)
        }
        StmtKind::Timely {
            place,
            limit,
            yes,
            no: None,
        } => {
            let place = place_numbered(alloc, place, next)?;
            let yes = stmt_numbered(alloc, yes.get(), next)?;
            let kind = StmtKind::Timely {
                place: place.into_inner(),
                limit: *limit,
                yes,
                no: None,
            };
            stmt_with(alloc, node, line, kind)
        }
        StmtKind::Timely {
            place,
            limit,
            yes,
            no: Some(no),
        } => {
            let place = place_numbered(alloc, place, next)?;
            let yes = stmt_numbered(alloc, yes.get(), next)?;
            let no = stmt_numbered(alloc, no.get(), next)?;
            let kind = StmtKind::Timely {
                place: place.into_inner(),
                limit: *limit,
                yes,
                no: Some(no),
            };
            stmt_with(alloc, node, line, kind)
        }
        StmtKind::Expires { names, body, catch } => {
            let names = places_numbered(alloc, names.as_slice(), next)?;
            let body = stmts_numbered(alloc, body.as_slice(), next)?;
            let catch = stmts_numbered(alloc, catch.as_slice(), next)?;
            stmt_with(alloc, node, line, StmtKind::Expires { names, body, catch })
        }
        StmtKind::Declare { local, init } => {
            let init = inits_numbered(alloc, init.as_slice(), next)?;
            let local = *local;
            stmt_with(alloc, node, line, StmtKind::Declare { local, init })
        }
    }
}

/// Statements one after another.
#[cycle(stmt)]
#[tactic(auto, using(crate::proofs::Turns::stmts_first, crate::proofs::Turns::stmts_behind))]
pub fn stmts_numbered(alloc: Global, all: &[Stmt], next: &mut u32) -> Result<Items<Stmt>, NoMemory>
    ensures made { IfOk result (λ made. made ≡ (spec.each (map spec.stmt_numbered all.now) next.old).0) }
    ensures next { IfOk result (λ made. next.new ≡ (spec.each (map spec.stmt_numbered all.now) next.old).1) }
{
    let mut made = Items::new(alloc);
    for stmt in all {
        let stmt = stmt_numbered(alloc, stmt, next)?;
        made.push(stmt.into_inner())?;
    }
    Ok(made)
}

/// The labels of a group.
fn labels_of(alloc: Global, labels: &[Option<i64>]) -> Result<Items<Option<i64>>, NoMemory>
    ensures { IfOk result (λ made. made ≡ labels.now) }
{
    Ok(Items::from_slice(alloc, labels)?)
}

/// A group of a `switch`.
#[cycle(stmt)]
fn group_numbered(alloc: Global, group: &Group, next: &mut u32) -> Result<Boxed<Group>, NoMemory>
    ensures made { IfOk result (λ made. made ≡ (group_numbered group.now next.old).0) }
    ensures next { IfOk result (λ made. next.new ≡ (group_numbered group.now next.old).1) }
{
    let labels = labels_of(alloc, group.labels.as_slice())?;
    let body = stmts_numbered(alloc, group.body.as_slice(), next)?;
    Ok(Boxed::new(alloc, Group { labels, body })?)
}

/// The groups of a `switch`.
#[cycle(stmt)]
#[tactic(auto, using(crate::proofs::Turns::groups_first, crate::proofs::Turns::groups_behind))]
fn groups_numbered(alloc: Global, all: &[Group], next: &mut u32) -> Result<Items<Group>, NoMemory>
    ensures made { IfOk result (λ made. made ≡ (spec.each (map group_numbered all.now) next.old).0) }
    ensures next { IfOk result (λ made. next.new ≡ (spec.each (map group_numbered all.now) next.old).1) }
{
    let mut made = Items::new(alloc);
    for group in all {
        let group = group_numbered(alloc, group, next)?;
        made.push(group.into_inner())?;
    }
    Ok(made)
}
