//! The parameters and the end of a function (C99 6.7.5.3 and 6.9.1).

ghost use Rattle.std.specs.Prelude.{◌≡◌};
ghost use Rattle.c_parse_expr.specs.Nests.{Reads};
ghost use Rattle.c_parse_stmt.specs.Repeats.{all_commas};
ghost use Rattle.c_parse.specs.Externals as grammar;
ghost use Rattle.c_parse.specs.ExternalReading as spec;

use base16::Name;
use c_lex::{Keyword, Mark, TokenKind};
use c_parse_expr::{Cursor, ParseErr, Wanted, fits, read_bounds, read_expr, read_spec, read_stars};
use c_parse_stmt::read_compound;
use c_tree::{Compound, Expr, Param, Params};
use sqlite_items::{Boxed, Items};
use std::alloc::Global;

/// The name of a parameter, if it has one.
#[tactic(auto, unfolding(crate::specs::ExternalReading::title))]
fn title(alloc: Global, tokens: &mut Cursor<'_>) -> Result<Option<Name>, ParseErr>
    ensures { Reads (spec.title tokens.old) result tokens.new }
{
    let Some(token) = tokens.peek() else {
        return Ok(None);
    };
    match &token.kind {
        TokenKind::Word(name) => {
            let name = Name::new(alloc, name.bytes())?;
            tokens.skip();
            Ok(Some(name))
        }
        _ => Ok(None),
    }
}

/// The size in the first brackets of a parameter, if one stands there.
#[tactic(auto, unfolding(crate::specs::ExternalReading::size, crate::specs::ExternalReading::given_size))]
fn size(alloc: Global, tokens: &mut Cursor<'_>, depth: u16) -> Result<Option<Boxed<Expr>>, ParseErr>
    ensures { Reads (spec.size depth tokens.old) result tokens.new }
{
    if tokens.mark_next(Mark::RightBracket) {
        return Ok(None);
    }
    Ok(Some(read_expr(alloc, tokens, depth, 3)?))
}

#[tactic(auto, unfolding(crate::specs::ExternalReading::bracket_rest))]
fn bracket_rest(
    alloc: Global,
    tokens: &mut Cursor<'_>,
    depth: u16,
) -> Result<(Option<Option<Expr>>, Items<Expr>), ParseErr>
    ensures { Reads (spec.bracket_rest depth tokens.old) result tokens.new }
{
    let first = size(alloc, tokens, depth)?;
    tokens.expect(Wanted::Mark(Mark::RightBracket))?;
    let others = read_bounds(alloc, tokens, depth)?;
    let first = match first {
        Some(size) => Some(size.into_inner()),
        None => None,
    };
    Ok((Some(first), others))
}

/// The first pair of brackets of a parameter, and the sizes in the others.
#[tactic(auto, unfolding(crate::specs::ExternalReading::brackets))]
fn brackets(
    alloc: Global,
    tokens: &mut Cursor<'_>,
    depth: u16,
) -> Result<(Option<Option<Expr>>, Items<Expr>), ParseErr>
    ensures { Reads (spec.brackets depth tokens.old) result tokens.new }
{
    if tokens.take_if(Wanted::Mark(Mark::LeftBracket)) {
        return bracket_rest(alloc, tokens, depth);
    }
    Ok((None, Items::new(alloc)))
}

#[tactic(auto, unfolding(crate::specs::ExternalReading::param))]
fn param(alloc: Global, tokens: &mut Cursor<'_>, depth: u16) -> Result<Param, ParseErr>
    ensures { Reads (spec.param depth tokens.old) result tokens.new }
{
    let spec = read_spec(alloc, tokens)?;
    let stars = read_stars(alloc, tokens)?;
    let name = title(alloc, tokens)?;
    let (first_bound, bounds) = brackets(alloc, tokens, depth)?;
    Ok(Param {
        spec,
        stars,
        name,
        first_bound,
        bounds,
    })
}

#[tactic(auto, using(c_parse_stmt::proofs::ListTurns::commas_turn, c_parse_stmt::proofs::ListTurns::commas_end, c_parse_stmt::proofs::ListTurns::all_commas_is))]
fn param_list(alloc: Global, tokens: &mut Cursor<'_>, depth: u16) -> Result<Items<Param>, ParseErr>
    ensures { Reads (all_commas (spec.param depth) tokens.old) result tokens.new }
{
    let mut found = Items::new(alloc);
    for _turn in 0..tokens.left() {
        found.push(param(alloc, tokens, depth)?)?;
        if !tokens.take_if(Wanted::Mark(Mark::Comma)) {
            return Ok(found);
        }
    }
    Err(tokens.refuse())
}

/// Whether `void` and the parenthesis that closes come next.
fn void_alone(tokens: &Cursor<'_>) -> bool
    ensures { result ≡ grammar.void_alone tokens.now }
{
    match tokens.rest() {
        [token, next, ..] => {
            fits(Wanted::Keyword(Keyword::Void), &token.kind)
                && fits(Wanted::Mark(Mark::RightParen), &next.kind)
        }
        _ => false,
    }
}

/// What stands in the parentheses of a function.
#[tactic(auto, unfolding(crate::specs::ExternalReading::takes, crate::specs::ExternalReading::void_param, crate::specs::ExternalReading::param_list))]
pub fn takes(alloc: Global, tokens: &mut Cursor<'_>, depth: u16) -> Result<Params, ParseErr>
    ensures { Reads (spec.takes depth tokens.old) result tokens.new }
{
    if void_alone(tokens) {
        tokens.expect(Wanted::Keyword(Keyword::Void))?;
        return Ok(Params::Void { is_written: true });
    }
    if tokens.mark_next(Mark::RightParen) {
        return Ok(Params::Void { is_written: false });
    }
    Ok(Params::List(param_list(alloc, tokens, depth)?))
}

#[tactic(auto, using(crate::proofs::ParamTurns::named_turn, crate::proofs::ParamTurns::named_end))]
fn all_named(params: &[Param]) -> bool
    ensures { result ≡ grammar.all_named params.now }
{
    for param in params {
        if param.name.is_none() {
            return false;
        }
    }
    true
}

/// Whether each parameter has a name, so that a body may follow.
fn named_in(params: &Params) -> bool
    ensures { result ≡ grammar.named_in params.now }
{
    match params {
        Params::Void { .. } => true,
        Params::List(all) => all_named(all.as_slice()),
    }
}

/// The body of a function, or the semicolon that stands in its place.
#[tactic(auto, unfolding(crate::specs::ExternalReading::function_end, crate::specs::ExternalReading::no_body, crate::specs::ExternalReading::body))]
pub fn function_end(
    alloc: Global,
    tokens: &mut Cursor<'_>,
    depth: u16,
    params: &Params,
) -> Result<Option<Compound>, ParseErr>
    ensures { Reads (spec.function_end depth params.now tokens.old) result tokens.new }
{
    if tokens.mark_next(Mark::Semicolon) {
        tokens.expect(Wanted::Mark(Mark::Semicolon))?;
        return Ok(None);
    }
    if !named_in(params) {
        return Err(tokens.refuse());
    }
    Ok(Some(read_compound(alloc, tokens, depth, false, false)?))
}
