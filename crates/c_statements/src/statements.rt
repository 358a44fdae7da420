//! What a statement is, or the first fault in it (C99 6.8).

ghost use Rattle.std.specs.Prelude.{◌≡◌, [], map};
ghost use Rattle.c_checking.specs.Walk.{Walks};
ghost use Rattle.c_checking.specs.Statements as spec;
ghost use Rattle.c_statements.specs.Sources as parts;

use crate::declarations::locals;
use base16::{IntType, Sequence};
use c_conversions::broken;
use c_declarators::leave;
use c_stmt_parts::{
    expr_stmt, extend, labels_of, maybe_test, maybe_value, return_stmt, statement_at, switched,
    test_of,
};
use c_tree::{
    BlockItem, Compound, Expr as Source, First, Group as SourceGroup, Statement, StatementKind,
};
use c_typing::{Env, Rule, Stop};
use core_tree::{Expr, Group, Stmt, StmtKind, int_type_of};
use sqlite_items::{Boxed, Items};
use std::alloc::Global;

/// What stands before the first `;` of a `for`.
#[tactic(auto, unfolding(c_checking::specs::Statements::first_of))]
fn first_of(
    alloc: Global,
    env: &mut Env,
    line: u32,
    first: &First,
) -> Result<Option<Boxed<Stmt>>, Stop>
    ensures { Walks (spec.first_of line first.now env.old) result env.new }
{
    match first {
        First::Expr(None) => Ok(None),
        First::Expr(Some(expr)) => Ok(Some(expr_stmt(alloc, env, line, expr)?)),
        First::Declaration(declaration) => {
            let all = locals(alloc, env, declaration)?;
            Ok(Some(statement_at(alloc, line, StmtKind::Block(all))?))
        }
    }
}

/// An expression out of its box.
fn unboxed(expr: Option<Boxed<Expr>>) -> Option<Expr>
    ensures { result ≡ expr }
{
    match expr {
        Some(expr) => Some(expr.into_inner()),
        None => None,
    }
}

/// The statement behind `else`, where there is one.
#[cycle(statement)]
fn other_stmt(
    alloc: Global,
    env: &mut Env,
    other: &Option<Boxed<Statement>>,
) -> Result<Option<Boxed<Stmt>>, Stop>
    ensures { Walks (spec.if_some (λ walk. walk) (parts.other_of other.now) env.old) result env.new }
{
    match other {
        Some(other) => Ok(Some(statement(alloc, env, other.get())?)),
        None => Ok(None),
    }
}

#[cycle(statement)]
#[tactic(auto, unfolding(c_checking::specs::Statements::while_stmt))]
fn while_stmt(
    alloc: Global,
    env: &mut Env,
    body: &Statement,
    line: u32,
    test: &Source,
) -> Result<Boxed<Stmt>, Stop>
    ensures { Walks (spec.while_stmt line test.now (spec.statement body.now) env.old) result env.new }
{
    let test = test_of(alloc, env, line, test)?;
    let body = statement(alloc, env, body)?;
    Ok(statement_at(
        alloc,
        line,
        StmtKind::While {
            test: test.into_inner(),
            body,
        },
    )?)
}

#[cycle(statement)]
#[tactic(auto, unfolding(c_checking::specs::Statements::do_stmt))]
fn do_stmt(
    alloc: Global,
    env: &mut Env,
    body: &Statement,
    line: u32,
    test: &Source,
) -> Result<Boxed<Stmt>, Stop>
    ensures { Walks (spec.do_stmt line (spec.statement body.now) test.now env.old) result env.new }
{
    let body = statement(alloc, env, body)?;
    let test = test_of(alloc, env, line, test)?;
    Ok(statement_at(
        alloc,
        line,
        StmtKind::Do {
            body,
            test: test.into_inner(),
        },
    )?)
}

/// What a `for` declares ends with it.
#[cycle(statement)]
#[tactic(auto, unfolding(c_checking::specs::Statements::for_stmt, c_checking::specs::Walk::scoped))]
fn for_stmt(
    alloc: Global,
    env: &mut Env,
    body: &Statement,
    line: u32,
    first: &First,
    test: &Option<Source>,
    step: &Option<Source>,
) -> Result<Boxed<Stmt>, Stop>
    ensures { Walks (spec.for_stmt line first.now test.now step.now (spec.statement body.now) env.old) result env.new }
{
    let start = env.start;
    let names = env.names.len();
    env.start = names;
    let first = first_of(alloc, env, line, first)?;
    let test = maybe_test(alloc, env, line, test)?;
    let step = maybe_value(alloc, env, line, step)?;
    let body = statement(alloc, env, body)?;
    leave(env, start, names);
    Ok(statement_at(
        alloc,
        line,
        StmtKind::For {
            first,
            test: unboxed(test),
            step: unboxed(step),
            body,
        },
    )?)
}

/// The names of a block end with it.
#[cycle(statement)]
#[tactic(auto, unfolding(c_checking::specs::Statements::block_stmt, c_checking::specs::Walk::scoped))]
fn block_stmt(alloc: Global, env: &mut Env, body: &Compound, line: u32) -> Result<Boxed<Stmt>, Stop>
    ensures { Walks (spec.block_stmt line (spec.compound body.now) env.old) result env.new }
{
    let start = env.start;
    let names = env.names.len();
    env.start = names;
    let body = compound(alloc, env, body)?;
    leave(env, start, names);
    Ok(statement_at(alloc, line, StmtKind::Block(body))?)
}

/// A part of a block.
#[cycle(statement)]
fn item(alloc: Global, env: &mut Env, item: &BlockItem) -> Result<Items<Stmt>, Stop>
    ensures { Walks (spec.block_item item.now env.old) result env.new }
{
    match item {
        BlockItem::Declaration(declaration) => locals(alloc, env, declaration),
        BlockItem::Statement(source) => {
            let stmt = statement(alloc, env, source)?;
            let mut found = Items::new(alloc);
            found.push(stmt.into_inner())?;
            Ok(found)
        }
    }
}

/// What stands in braces.
#[cycle(statement)]
#[tactic(auto, using(crate::proofs::Turns::nothing_yet, crate::proofs::Turns::items_turn, crate::proofs::Turns::items_break, crate::proofs::Turns::items_end, crate::proofs::Turns::compound_is))]
pub fn compound(alloc: Global, env: &mut Env, compound: &Compound) -> Result<Items<Stmt>, Stop>
    ensures { Walks (spec.compound compound.now env.old) result env.new }
{
    let mut found = Items::new(alloc);
    for part in compound.items.as_slice() {
        found.append(item(alloc, env, part)?)?;
    }
    Ok(found)
}

/// What a statement is, or the first fault in it.
#[cycle(statement)]
#[tactic(auto, unfolding(c_checking::specs::Statements::if_stmt))]
pub fn statement(alloc: Global, env: &mut Env, source: &Statement) -> Result<Boxed<Stmt>, Stop>
    ensures { Walks (spec.statement source.now env.old) result env.new }
{
    let line = source.line;
    match &source.kind {
        StatementKind::Compound(body) => block_stmt(alloc, env, body, line),
        StatementKind::Expr(None) => Ok(statement_at(
            alloc,
            line,
            StmtKind::Block(Items::new(alloc)),
        )?),
        StatementKind::Expr(Some(expr)) => expr_stmt(alloc, env, line, expr),
        StatementKind::If { test, yes, no } => {
            let test = test_of(alloc, env, line, test)?;
            let yes = statement(alloc, env, yes.get())?;
            let no = other_stmt(alloc, env, no)?;
            Ok(statement_at(
                alloc,
                line,
                StmtKind::If {
                    test: test.into_inner(),
                    yes,
                    no,
                },
            )?)
        }
        StatementKind::While { test, body } => while_stmt(alloc, env, body.get(), line, test),
        StatementKind::Do { body, test } => do_stmt(alloc, env, body.get(), line, test),
        StatementKind::For {
            first,
            test,
            step,
            body,
        } => for_stmt(alloc, env, body.get(), line, first, test, step),
        StatementKind::Break => Ok(statement_at(alloc, line, StmtKind::Break)?),
        StatementKind::Continue => Ok(statement_at(alloc, line, StmtKind::Continue)?),
        StatementKind::Return(expr) => return_stmt(alloc, env, line, expr),
        StatementKind::Switch { on, groups } => switch_stmt(
            alloc,
            env,
            groups.as_slice(),
            line,
            on,
        ),
        _ => Err(broken(Rule::WrongType, line)),
    }
}

/// Statements one after another.
#[cycle(statement)]
#[tactic(auto, using(crate::proofs::Turns::nothing_yet, crate::proofs::Turns::statements_turn, crate::proofs::Turns::statements_break, crate::proofs::Turns::statements_end))]
fn statements_of(alloc: Global, env: &mut Env, all: &[Statement]) -> Result<Items<Stmt>, Stop>
    ensures { Walks (parts.statements all.now env.old) result env.new }
{
    let mut found = Items::new(alloc);
    for source in all {
        let stmt = statement(alloc, env, source)?;
        found.push(stmt.into_inner())?;
    }
    Ok(found)
}

/// The groups of a `switch`.
#[cycle(statement)]
#[tactic(auto, using(crate::proofs::Turns::nothing_yet_groups, crate::proofs::Turns::groups_turn, crate::proofs::Turns::groups_label_break, crate::proofs::Turns::groups_body_break, crate::proofs::Turns::groups_end))]
fn groups_of(
    alloc: Global,
    env: &mut Env,
    groups: &[SourceGroup],
    line: u32,
    at_type: IntType,
) -> Result<Items<Group>, Stop>
    ensures { Walks (spec.groups_of line at_type [] (map parts.group_part groups.now) env.old) result env.new }
{
    let mut before = Sequence::new(alloc);
    let mut found = Items::new(alloc);
    for group in groups {
        let labels = labels_of(
            alloc,
            env,
            line,
            at_type,
            before.as_slice(),
            group.labels.as_slice(),
        )?;
        let body = statements_of(alloc, env, group.statements.as_slice())?;
        extend(&mut before, labels.as_slice())?;
        found.push(Group { labels, body })?;
    }
    Ok(found)
}

#[cycle(statement)]
#[tactic(auto, unfolding(c_checking::specs::Statements::switch_stmt))]
fn switch_stmt(
    alloc: Global,
    env: &mut Env,
    groups: &[SourceGroup],
    line: u32,
    on: &Source,
) -> Result<Boxed<Stmt>, Stop>
    ensures { Walks (spec.switch_stmt line on.now (map parts.group_part groups.now) env.old) result env.new }
{
    let on = switched(alloc, env, line, on)?;
    let at_type = int_type_of(&on.get().ty);
    let groups = groups_of(alloc, env, groups, line, at_type)?;
    Ok(statement_at(
        alloc,
        line,
        StmtKind::Switch {
            on: on.into_inner(),
            groups,
        },
    )?)
}
