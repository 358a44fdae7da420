//! Statements with no statements inside them (C99 6.8.3 and 6.8.6).

ghost use Rattle.c_parse_expr.specs.Nests.{Reads};
ghost use Rattle.c_parse_stmt.specs.StatementReading as spec;

use crate::statement_parts::{given, opened, semicolon};
use c_lex::{Mark, Note};
use c_parse_expr::{Cursor, ParseErr, Wanted, rank, read_expr};
use c_tree::{Expr, StatementKind};
use sqlite_items::Boxed;
use std::alloc::Global;

/// Behind `break`, which may stand there or not.
#[tactic(auto, unfolding(crate::specs::StatementReading::break_rest))]
pub fn break_rest(tokens: &mut Cursor<'_>, breaks: bool) -> Result<StatementKind, ParseErr>
    ensures { Reads (spec.break_rest breaks tokens.old) result tokens.new }
{
    if !breaks {
        return Err(tokens.refuse_taken());
    }
    semicolon(tokens)?;
    Ok(StatementKind::Break)
}

/// Behind `continue`, which may stand there or not.
#[tactic(auto, unfolding(crate::specs::StatementReading::continue_rest))]
pub fn continue_rest(tokens: &mut Cursor<'_>, continues: bool) -> Result<StatementKind, ParseErr>
    ensures { Reads (spec.continue_rest continues tokens.old) result tokens.new }
{
    if !continues {
        return Err(tokens.refuse_taken());
    }
    semicolon(tokens)?;
    Ok(StatementKind::Continue)
}

/// Behind `return`.
#[tactic(auto, unfolding(crate::specs::StatementReading::return_rest))]
pub fn return_rest(
    alloc: Global,
    tokens: &mut Cursor<'_>,
    depth: u16,
) -> Result<StatementKind, ParseErr>
    ensures { Reads (spec.return_rest depth (spec.statement depth) tokens.old) result tokens.new }
{
    let value = given(alloc, tokens, depth, Mark::Semicolon)?;
    semicolon(tokens)?;
    Ok(StatementKind::Return(opened(value)))
}

#[tactic(auto, unfolding(crate::specs::StatementReading::stamped_rest))]
fn stamped_rest(
    alloc: Global,
    tokens: &mut Cursor<'_>,
    depth: u16,
    place: Boxed<Expr>,
) -> Result<StatementKind, ParseErr>
    ensures { Reads (spec.stamped_rest depth (spec.statement depth) place tokens.old) result tokens.new }
{
    let value = read_expr(alloc, tokens, depth, 2)?;
    semicolon(tokens)?;
    Ok(StatementKind::Stamped {
        place: place.into_inner(),
        value: value.into_inner(),
    })
}

/// Behind `@=`, before which stands what may stand before `=`.
#[tactic(auto, unfolding(crate::specs::StatementReading::stamped))]
fn stamped(
    alloc: Global,
    tokens: &mut Cursor<'_>,
    depth: u16,
    place: Boxed<Expr>,
) -> Result<StatementKind, ParseErr>
    ensures { Reads (spec.stamped depth (spec.statement depth) place tokens.old) result tokens.new }
{
    if rank(place.get()) < 3 {
        return Err(tokens.refuse_taken());
    }
    stamped_rest(alloc, tokens, depth, place)
}

#[tactic(auto, unfolding(crate::specs::StatementReading::after_expression, crate::specs::StatementReading::plain))]
fn after_expression(
    alloc: Global,
    tokens: &mut Cursor<'_>,
    depth: u16,
    found: Boxed<Expr>,
) -> Result<StatementKind, ParseErr>
    ensures { Reads (spec.after_expression depth (spec.statement depth) found tokens.old) result tokens.new }
{
    if tokens.take_if(Wanted::Note(Note::StampedAssign)) {
        return stamped(alloc, tokens, depth, found);
    }
    semicolon(tokens)?;
    Ok(StatementKind::Expr(Some(found.into_inner())))
}

#[tactic(auto, unfolding(crate::specs::StatementReading::begun_by_expr))]
fn begun_by_expr(
    alloc: Global,
    tokens: &mut Cursor<'_>,
    depth: u16,
) -> Result<StatementKind, ParseErr>
    ensures { Reads (spec.begun_by_expr depth (spec.statement depth) tokens.old) result tokens.new }
{
    let found = read_expr(alloc, tokens, depth, 1)?;
    after_expression(alloc, tokens, depth, found)
}

/// An expression statement, the empty one, or a store with a stamp.
#[tactic(auto, unfolding(crate::specs::StatementReading::expression, crate::specs::StatementReading::plain))]
pub fn expression(
    alloc: Global,
    tokens: &mut Cursor<'_>,
    depth: u16,
) -> Result<StatementKind, ParseErr>
    ensures { Reads (spec.expression depth (spec.statement depth) tokens.old) result tokens.new }
{
    if tokens.mark_next(Mark::Semicolon) {
        semicolon(tokens)?;
        return Ok(StatementKind::Expr(None));
    }
    begun_by_expr(alloc, tokens, depth)
}
