//! A whole list of tokens as a source.

ghost use Rattle.std.specs.Prelude.{◌≡◌, ◌≤◌, IfOk, MatchResult};
ghost use Rattle.c_tree.specs.declared.unit.Tree.{Tree as ATree};
ghost use Rattle.c_tree.specs.Measure.{height};
ghost use Rattle.c_parse_expr.specs.Answered.{Answers};
ghost use Rattle.c_parse_expr.specs.declared.error.ParseErr.TheVariants as err;
ghost use Rattle.c_parse.specs.ExternalReading.{source};
ghost use Rattle.c_parse.specs.Externals.{SpellsTree};

use crate::externals::externals;
use c_lex::Token;
use c_parse_expr::{Cursor, ParseErr};
use c_tree::Tree;
use std::alloc::Global;

/// How high a tree may be, in nodes.
const MAX_HEIGHT: u16 = 400;

#[tactic(auto, unfolding(crate::specs::ExternalReading::source))]
fn whole_source(alloc: Global, tokens: &[Token]) -> Result<Tree, ParseErr>
    ensures { Answers (source 399 tokens.now) result }
{
    let mut tokens = Cursor::new(tokens);
    let externals = externals(alloc, &mut tokens, MAX_HEIGHT - 1)?;
    if tokens.left() > 0 {
        return Err(tokens.refuse());
    }
    Ok(Tree { externals })
}

/// The one tree of height at most 400 that the tokens spell, all of them (C99 6.9).
///
/// # Errors
/// `Syntax` if no such tree spells them; `NoMemory` if memory runs out.
pub fn parse(alloc: Global, tokens: &[Token]) -> Result<Tree, ParseErr>
    // What is answered is spelled.
    ensures spelled { IfOk result (λ tree. SpellsTree tree tokens.now) }
    ensures low { IfOk result (λ tree. height tree ≤ 400) }
    // What is spelled is answered, unless memory runs out: so it is the only one, and it is not refused.
    ensures only { (tree : ATree) → SpellsTree tree tokens.now → height tree ≤ 400
        → MatchResult result (λ found. found ≡ tree) (λ fault. fault ≡ err.NoMemory) }
{
    whole_source(alloc, tokens)
}
