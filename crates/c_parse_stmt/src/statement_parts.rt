//! What stands in a statement beside other statements (C99 6.8).

ghost use Rattle.std.specs.Prelude.{◌≡◌};
ghost use Rattle.c_lex.specs.declared.token.Mark.TheVariants as m;
ghost use Rattle.c_parse_expr.specs.Nests.{Reads};
ghost use Rattle.c_parse_expr.specs.Steps.{closing};
ghost use Rattle.c_parse_stmt.specs.Repeats.{all_commas, all_many};
ghost use Rattle.c_parse_stmt.specs.StatementReading as spec;

use crate::declarations::{read_declaration, read_duration};
use base16::Name;
use c_lex::{Keyword, Mark, TokenKind};
use c_parse_expr::{Cursor, ParseErr, Wanted, read_expr, type_next};
use c_tree::{BlockItem, Duration, Expr, First, Label, Tname};
use sqlite_items::{Boxed, Items};
use std::alloc::Global;

/// Whether something stands before the brace that closes.
pub fn unclosed(tokens: &Cursor<'_>) -> bool
    ensures { result ≡ spec.unclosed tokens.now }
{
    match tokens.peek() {
        Some(_) => !tokens.mark_next(Mark::RightBrace),
        None => false,
    }
}

/// Whether a label comes next.
pub fn label_next(tokens: &Cursor<'_>) -> bool
    ensures { result ≡ spec.label_next tokens.now }
{
    match tokens.peek() {
        Some(token) => match &token.kind {
            TokenKind::Keyword(Keyword::Case | Keyword::Default) => true,
            _ => false,
        },
        None => false,
    }
}

/// Whether a statement of a group stands here.
pub fn runs_on(tokens: &Cursor<'_>) -> bool
    ensures { result ≡ spec.runs_on tokens.now }
{
    unclosed(tokens) && !label_next(tokens)
}

pub fn semicolon(tokens: &mut Cursor<'_>) -> Result<(), ParseErr>
    ensures { Reads (closing m.Semicolon tokens.old) result tokens.new }
{
    tokens.expect(Wanted::Mark(Mark::Semicolon))
}

/// The word between the two bodies of `@expires`.
#[tactic(auto, unfolding(crate::specs::StatementReading::catch_word, c_parse_expr::specs::Steps::word))]
pub fn catch_word(tokens: &mut Cursor<'_>) -> Result<(), ParseErr>
    ensures { Reads (spec.catch_word tokens.old) result tokens.new }
{
    let Some(token) = tokens.take() else {
        return Err(tokens.refuse());
    };
    match &token.kind {
        TokenKind::Word(name) if name.bytes() == b"catch".as_slice() => Ok(()),
        _ => Err(tokens.refuse_taken()),
    }
}

#[tactic(auto, unfolding(crate::specs::StatementReading::some_expr))]
fn some_expr(
    alloc: Global,
    tokens: &mut Cursor<'_>,
    depth: u16,
) -> Result<Option<Boxed<Expr>>, ParseErr>
    ensures { Reads (spec.some_expr depth tokens.old) result tokens.new }
{
    Ok(Some(read_expr(alloc, tokens, depth, 1)?))
}

/// An expression that may be left out, out of its box.
pub fn opened(expr: Option<Boxed<Expr>>) -> Option<Expr>
    ensures { result ≡ expr }
{
    match expr {
        Some(expr) => Some(expr.into_inner()),
        None => None,
    }
}

/// An expression, or none where the mark comes next that ends it.
#[tactic(auto, unfolding(crate::specs::StatementReading::given))]
pub fn given(
    alloc: Global,
    tokens: &mut Cursor<'_>,
    depth: u16,
    end: Mark,
) -> Result<Option<Boxed<Expr>>, ParseErr>
    ensures { Reads (spec.given depth end tokens.old) result tokens.new }
{
    if tokens.mark_next(end) {
        return Ok(None);
    }
    some_expr(alloc, tokens, depth)
}

/// An expression in parentheses that are no part of it.
#[tactic(auto, unfolding(crate::specs::StatementReading::tested))]
pub fn tested(alloc: Global, tokens: &mut Cursor<'_>, depth: u16) -> Result<Boxed<Expr>, ParseErr>
    ensures { Reads (spec.tested depth tokens.old) result tokens.new }
{
    tokens.expect(Wanted::Mark(Mark::LeftParen))?;
    let test = read_expr(alloc, tokens, depth, 1)?;
    tokens.expect(Wanted::Mark(Mark::RightParen))?;
    Ok(test)
}

#[tactic(auto, unfolding(crate::specs::StatementReading::tname_index))]
fn tname_index(
    alloc: Global,
    tokens: &mut Cursor<'_>,
    depth: u16,
    name: Name,
) -> Result<Tname, ParseErr>
    ensures { Reads (spec.tname_index depth name tokens.old) result tokens.new }
{
    let index = read_expr(alloc, tokens, depth, 3)?;
    tokens.expect(Wanted::Mark(Mark::RightBracket))?;
    Ok(Tname {
        name,
        index: Some(index.into_inner()),
    })
}

#[tactic(auto, unfolding(crate::specs::StatementReading::tname))]
fn tname(alloc: Global, tokens: &mut Cursor<'_>, depth: u16) -> Result<Tname, ParseErr>
    ensures { Reads (spec.tname depth tokens.old) result tokens.new }
{
    let name = tokens.word(alloc)?;
    if tokens.take_if(Wanted::Mark(Mark::LeftBracket)) {
        return tname_index(alloc, tokens, depth, name);
    }
    Ok(Tname { name, index: None })
}

/// The names of `@expires`, with commas between.
#[tactic(auto, using(crate::proofs::ListTurns::commas_turn, crate::proofs::ListTurns::commas_end, crate::proofs::ListTurns::all_commas_is))]
pub fn tnames(alloc: Global, tokens: &mut Cursor<'_>, depth: u16) -> Result<Items<Tname>, ParseErr>
    ensures { Reads (all_commas (spec.tname depth) tokens.old) result tokens.new }
{
    let mut found = Items::new(alloc);
    for _turn in 0..tokens.left() {
        found.push(tname(alloc, tokens, depth)?)?;
        if !tokens.take_if(Wanted::Mark(Mark::Comma)) {
            return Ok(found);
        }
    }
    Err(tokens.refuse())
}

#[tactic(auto, unfolding(crate::specs::StatementReading::case_rest))]
fn case_rest(alloc: Global, tokens: &mut Cursor<'_>, depth: u16) -> Result<Label, ParseErr>
    ensures { Reads (spec.case_rest depth tokens.old) result tokens.new }
{
    let value = read_expr(alloc, tokens, depth, 3)?;
    tokens.expect(Wanted::Mark(Mark::Colon))?;
    Ok(Label::Case(value.into_inner()))
}

/// A label in a `switch`.
#[tactic(auto, unfolding(crate::specs::StatementReading::a_label, crate::specs::StatementReading::default_rest))]
pub fn label(alloc: Global, tokens: &mut Cursor<'_>, depth: u16) -> Result<Label, ParseErr>
    ensures { Reads (spec.a_label depth tokens.old) result tokens.new }
{
    let Some(token) = tokens.take() else {
        return Err(tokens.refuse());
    };
    match &token.kind {
        TokenKind::Keyword(Keyword::Case) => case_rest(alloc, tokens, depth),
        TokenKind::Keyword(Keyword::Default) => {
            tokens.expect(Wanted::Mark(Mark::Colon))?;
            Ok(Label::Default)
        }
        _ => Err(tokens.refuse_taken()),
    }
}

/// As many labels as stand here.
#[tactic(auto, using(crate::proofs::ListTurns::many_turn, crate::proofs::ListTurns::many_end, crate::proofs::ListTurns::all_many_is))]
pub fn more_labels(
    alloc: Global,
    tokens: &mut Cursor<'_>,
    depth: u16,
) -> Result<Items<Label>, ParseErr>
    ensures { Reads (all_many (spec.a_label depth) spec.label_next tokens.old) result tokens.new }
{
    let mut found = Items::new(alloc);
    for _turn in 0..tokens.left() {
        if !label_next(tokens) {
            return Ok(found);
        }
        found.push(label(alloc, tokens, depth)?)?;
    }
    Ok(found)
}

#[tactic(auto, unfolding(crate::specs::StatementReading::first_expr))]
fn first_expr(alloc: Global, tokens: &mut Cursor<'_>, depth: u16) -> Result<Boxed<First>, ParseErr>
    ensures { Reads (spec.first_expr depth tokens.old) result tokens.new }
{
    let first = given(alloc, tokens, depth, Mark::Semicolon)?;
    semicolon(tokens)?;
    let first = First::Expr(opened(first));
    Ok(Boxed::new(alloc, first)?)
}

#[tactic(auto, unfolding(crate::specs::StatementReading::first_declaration))]
fn first_declaration(
    alloc: Global,
    tokens: &mut Cursor<'_>,
    depth: u16,
) -> Result<Boxed<First>, ParseErr>
    ensures { Reads (spec.first_declaration depth tokens.old) result tokens.new }
{
    let first = read_declaration(alloc, tokens, depth)?;
    Ok(Boxed::new(alloc, First::Declaration(first))?)
}

/// The first part of a `for` and its semicolon.
#[tactic(auto, unfolding(crate::specs::StatementReading::for_first))]
pub fn for_first(
    alloc: Global,
    tokens: &mut Cursor<'_>,
    depth: u16,
) -> Result<Boxed<First>, ParseErr>
    ensures { Reads (spec.for_first depth tokens.old) result tokens.new }
{
    if type_next(tokens) {
        return first_declaration(alloc, tokens, depth);
    }
    first_expr(alloc, tokens, depth)
}

/// What stands in the parentheses of `@timely`, and these.
#[tactic(auto, unfolding(crate::specs::StatementReading::timed))]
pub fn timed(
    alloc: Global,
    tokens: &mut Cursor<'_>,
    depth: u16,
) -> Result<(Boxed<Expr>, Duration), ParseErr>
    ensures { Reads (spec.timed depth tokens.old) result tokens.new }
{
    tokens.expect(Wanted::Mark(Mark::LeftParen))?;
    let place = read_expr(alloc, tokens, depth, 15)?;
    tokens.expect(Wanted::Mark(Mark::Comma))?;
    let limit = read_duration(tokens)?;
    tokens.expect(Wanted::Mark(Mark::RightParen))?;
    Ok((place, limit))
}

/// A declaration as a part of a compound.
#[tactic(auto, unfolding(crate::specs::StatementReading::item_declaration))]
pub fn item_declaration(
    alloc: Global,
    tokens: &mut Cursor<'_>,
    depth: u16,
) -> Result<BlockItem, ParseErr>
    ensures { Reads (spec.item_declaration depth (spec.statement depth) tokens.old) result tokens.new }
{
    Ok(BlockItem::Declaration(read_declaration(alloc, tokens, depth)?))
}
