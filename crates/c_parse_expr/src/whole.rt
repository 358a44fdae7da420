//! A whole list of tokens as one expression.

ghost use Rattle.std.specs.Prelude.{◌≡◌, ◌≤◌, [], IfOk, MatchResult};
ghost use Rattle.c_tree.specs.declared.expression.Expr.{Expr as AnExpr};
ghost use Rattle.c_tree.specs.Measure.{expr_height};
ghost use Rattle.c_parse_expr.specs.Answered.{Answers};
ghost use Rattle.c_parse_expr.specs.ExpressionReading as spec;
ghost use Rattle.c_parse_expr.specs.Grammar.{Spells};
ghost use Rattle.c_parse_expr.specs.declared.error.ParseErr.TheVariants as err;

use crate::cursor::Cursor;
use crate::error::ParseErr;
use crate::grammar::read_expr;
use c_lex::Token;
use c_tree::Expr;
use std::alloc::Global;

/// How high an expression may be, in nodes.
const MAX_HEIGHT: u16 = 400;

#[tactic(auto, unfolding(crate::specs::ExpressionReading::whole))]
fn whole(alloc: Global, tokens: &[Token]) -> Result<Expr, ParseErr>
    ensures { Answers (spec.whole tokens.now) result }
{
    let mut tokens = Cursor::new(tokens);
    let found = read_expr(alloc, &mut tokens, MAX_HEIGHT, 1)?;
    if tokens.left() > 0 {
        return Err(tokens.refuse());
    }
    Ok(found.into_inner())
}

/// The one expression of height at most 400 that the tokens spell, all of them (C99 6.5).
///
/// # Errors
/// `Syntax` if no such expression spells them; `NoMemory` if memory runs out.
pub fn parse_expression(alloc: Global, tokens: &[Token]) -> Result<Expr, ParseErr>
    // What is answered is spelled.
    ensures spelled { IfOk result (λ e. Spells e tokens.now []) }
    ensures low { IfOk result (λ e. expr_height e ≤ 400) }
    // What is spelled is answered, unless memory runs out: so it is the only one, and it is not refused.
    ensures only { (e : AnExpr) → Spells e tokens.now [] → expr_height e ≤ 400
        → MatchResult result (λ found. found ≡ e) (λ fault. fault ≡ err.NoMemory) }
{
    whole(alloc, tokens)
}
