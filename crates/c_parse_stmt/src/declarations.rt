//! The rules of declarations (C99 6.7).

ghost use Rattle.std.specs.Prelude.{◌≡◌, [], length};
ghost use Rattle.c_parse_expr.specs.Nests.{Reads};
ghost use Rattle.c_parse_expr.specs.Reading as reading;
ghost use Rattle.c_parse_stmt.specs.DeclarationReading as spec;
ghost use Rattle.c_parse_stmt.specs.Repeats as lists;

use base16::Name;
use c_lex::{Mark, TokenKind};
use c_parse_expr::{Cursor, ParseErr, Wanted, read_bounds, read_expr, read_spec, read_stars};
use c_tree::{Declaration, Declr, Duration, Init, Initial, Qual, Spec, TimeUnit};
use sqlite_items::Items;
use std::alloc::Global;

/// The unit of time that a word is, which stood before these tokens.
fn unit_by_text(tokens: &Cursor<'_>, text: &[u8]) -> Result<TimeUnit, ParseErr>
    ensures { Reads (spec.unit_by_text text.now tokens.now) result tokens.now }
{
    if text == b"ms".as_slice() {
        Ok(TimeUnit::Milliseconds)
    } else if text == b"s".as_slice() {
        Ok(TimeUnit::Seconds)
    } else if text == b"min".as_slice() {
        Ok(TimeUnit::Minutes)
    } else {
        Err(tokens.refuse_taken())
    }
}

#[tactic(auto, unfolding(crate::specs::DeclarationReading::time_unit, c_parse_expr::specs::Steps::word))]
fn time_unit(tokens: &mut Cursor<'_>) -> Result<TimeUnit, ParseErr>
    ensures { Reads (spec.time_unit tokens.old) result tokens.new }
{
    let Some(token) = tokens.take() else {
        return Err(tokens.refuse());
    };
    match &token.kind {
        TokenKind::Word(name) => unit_by_text(tokens, name.bytes()),
        _ => Err(tokens.refuse_taken()),
    }
}

/// A number and a unit of time.
#[tactic(auto, unfolding(crate::specs::DeclarationReading::duration, crate::specs::DeclarationReading::duration_rest))]
pub fn read_duration(tokens: &mut Cursor<'_>) -> Result<Duration, ParseErr>
    ensures { Reads (spec.duration tokens.old) result tokens.new }
{
    let Some(token) = tokens.take() else {
        return Err(tokens.refuse());
    };
    match &token.kind {
        TokenKind::Number {
            value,
            decimal,
            unsigned,
        } => Ok(Duration {
            value: *value,
            decimal: *decimal,
            unsigned: *unsigned,
            unit: time_unit(tokens)?,
        }),
        _ => Err(tokens.refuse_taken()),
    }
}

/// The items of a brace list, and whether a comma stands behind the last.
#[cycle(initialiser)]
#[tactic(auto, using(crate::proofs::DeclarationTurns::items_turn, crate::proofs::DeclarationTurns::items_end))]
fn items(
    alloc: Global,
    tokens: &mut Cursor<'_>,
    depth: u16,
) -> Result<(Items<Initial>, bool), ParseErr>
    ensures { Reads (spec.items (spec.initialiser depth) (length tokens.old) [] tokens.old) result tokens.new }
{
    let mut found = Items::new(alloc);
    for _turn in 0..tokens.left() {
        found.push(initialiser(alloc, tokens, depth)?)?;
        if !tokens.take_if(Wanted::Mark(Mark::Comma)) {
            return Ok((found, false));
        }
        if tokens.mark_next(Mark::RightBrace) {
            return Ok((found, true));
        }
    }
    Err(tokens.refuse())
}

/// A brace list behind its brace, which stood on this line.
#[cycle(initialiser)]
#[tactic(auto, unfolding(crate::specs::DeclarationReading::brace_list))]
fn brace_list(
    alloc: Global,
    tokens: &mut Cursor<'_>,
    depth: u16,
    line: u32,
) -> Result<Initial, ParseErr>
    ensures { Reads (spec.brace_list (spec.initialiser depth) line tokens.old) result tokens.new }
{
    let (items, last_comma) = items(alloc, tokens, depth)?;
    tokens.expect(Wanted::Mark(Mark::RightBrace))?;
    Ok(Initial::List {
        items,
        last_comma,
        line,
    })
}

#[tactic(auto, unfolding(crate::specs::DeclarationReading::valued))]
fn valued(alloc: Global, tokens: &mut Cursor<'_>, depth: u16) -> Result<Initial, ParseErr>
    ensures { Reads (spec.valued (reading.expr depth) tokens.old) result tokens.new }
{
    let value = read_expr(alloc, tokens, depth, 2)?;
    Ok(Initial::Assign(value.into_inner()))
}

/// What stands behind the `=` of a declarator, of this height at most.
#[cycle(initialiser)]
#[tactic(auto, using(crate::proofs::DeclarationTurns::initialiser_none, crate::proofs::DeclarationTurns::initialiser_some))]
fn initialiser(alloc: Global, tokens: &mut Cursor<'_>, depth: u16) -> Result<Initial, ParseErr>
    ensures { Reads (spec.initialiser depth tokens.old) result tokens.new }
{
    if depth == 0 {
        return Err(tokens.refuse());
    }
    let line = tokens.line();
    if tokens.take_if(Wanted::Mark(Mark::LeftBrace)) {
        return brace_list(alloc, tokens, depth - 1, line);
    }
    valued(alloc, tokens, depth)
}

#[tactic(auto, unfolding(crate::specs::DeclarationReading::initialised))]
fn initialised(
    alloc: Global,
    tokens: &mut Cursor<'_>,
    depth: u16,
) -> Result<Option<Initial>, ParseErr>
    ensures { Reads (spec.initialised depth tokens.old) result tokens.new }
{
    if tokens.take_if(Wanted::Mark(Mark::Assign)) {
        return Ok(Some(initialiser(alloc, tokens, depth)?));
    }
    Ok(None)
}

/// What follows the stars and the name of a declarator, which began on this line.
#[tactic(auto, unfolding(crate::specs::DeclarationReading::init_rest))]
fn init_rest(
    alloc: Global,
    tokens: &mut Cursor<'_>,
    depth: u16,
    line: u32,
    stars: Items<Items<Qual>>,
    name: Name,
) -> Result<Init, ParseErr>
    ensures { Reads (spec.init_rest depth line stars name tokens.old) result tokens.new }
{
    let bounds = read_bounds(alloc, tokens, depth)?;
    let initial = initialised(alloc, tokens, depth)?;
    let declr = Declr {
        stars,
        name,
        bounds,
    };
    Ok(Init {
        declr,
        initial,
        line,
    })
}

/// A declarator with or without an initialiser. What stands in it is of this height at most.
#[tactic(auto, unfolding(crate::specs::DeclarationReading::init, crate::specs::DeclarationReading::init_at))]
fn init(alloc: Global, tokens: &mut Cursor<'_>, depth: u16) -> Result<Init, ParseErr>
    ensures { Reads (spec.init depth tokens.old) result tokens.new }
{
    let line = tokens.line();
    let stars = read_stars(alloc, tokens)?;
    let name = tokens.word(alloc)?;
    init_rest(alloc, tokens, depth, line, stars, name)
}

/// One or more declarators, with commas between.
#[tactic(auto, using(crate::proofs::ListTurns::commas_turn, crate::proofs::ListTurns::commas_end, crate::proofs::ListTurns::all_commas_is))]
pub fn read_inits(
    alloc: Global,
    tokens: &mut Cursor<'_>,
    depth: u16,
) -> Result<Items<Init>, ParseErr>
    ensures { Reads (lists.all_commas (spec.init depth) tokens.old) result tokens.new }
{
    let mut found = Items::new(alloc);
    for _turn in 0..tokens.left() {
        found.push(init(alloc, tokens, depth)?)?;
        if !tokens.take_if(Wanted::Mark(Mark::Comma)) {
            return Ok(found);
        }
    }
    Err(tokens.refuse())
}

/// The first declarator and those that follow it.
#[tactic(auto, unfolding(crate::specs::Repeats::more_commas, crate::specs::Repeats::others))]
fn more_inits(
    alloc: Global,
    tokens: &mut Cursor<'_>,
    depth: u16,
    first: Init,
) -> Result<Items<Init>, ParseErr>
    ensures { Reads (lists.more_commas (spec.init depth) first tokens.old) result tokens.new }
{
    let mut all = Items::new(alloc);
    all.push(first)?;
    if tokens.take_if(Wanted::Mark(Mark::Comma)) {
        all.append(read_inits(alloc, tokens, depth)?)?;
    }
    Ok(all)
}

#[tactic(auto, unfolding(crate::specs::DeclarationReading::after_first))]
fn after_first(
    alloc: Global,
    tokens: &mut Cursor<'_>,
    depth: u16,
    base: Spec,
    first: Init,
) -> Result<Declaration, ParseErr>
    ensures { Reads (spec.after_first depth base first tokens.old) result tokens.new }
{
    let inits = more_inits(alloc, tokens, depth, first)?;
    tokens.expect(Wanted::Mark(Mark::Semicolon))?;
    Ok(Declaration { spec: base, inits })
}

/// What follows the base type, the stars and the name of the first declarator, which began on this line. What stands in
/// it is of this height at most.
#[tactic(auto, unfolding(crate::specs::DeclarationReading::declaration_rest))]
pub fn read_declaration_rest(
    alloc: Global,
    tokens: &mut Cursor<'_>,
    depth: u16,
    base: Spec,
    line: u32,
    stars: Items<Items<Qual>>,
    name: Name,
) -> Result<Declaration, ParseErr>
    ensures { Reads (spec.declaration_rest depth base line stars name tokens.old) result tokens.new }
{
    let first = init_rest(alloc, tokens, depth, line, stars, name)?;
    after_first(alloc, tokens, depth, base, first)
}

#[tactic(auto, unfolding(crate::specs::DeclarationReading::declared_at))]
fn declared_at(
    alloc: Global,
    tokens: &mut Cursor<'_>,
    depth: u16,
    base: Spec,
    line: u32,
) -> Result<Declaration, ParseErr>
    ensures { Reads (spec.declared_at depth base line tokens.old) result tokens.new }
{
    let stars = read_stars(alloc, tokens)?;
    let name = tokens.word(alloc)?;
    read_declaration_rest(alloc, tokens, depth, base, line, stars, name)
}

/// A declaration of this height at most.
#[tactic(auto, using(crate::proofs::DeclarationTurns::declaration_none, crate::proofs::DeclarationTurns::declaration_some))]
pub fn read_declaration(
    alloc: Global,
    tokens: &mut Cursor<'_>,
    depth: u16,
) -> Result<Declaration, ParseErr>
    ensures { Reads (spec.declaration depth tokens.old) result tokens.new }
{
    if depth == 0 {
        return Err(tokens.refuse());
    }
    let base = read_spec(alloc, tokens)?;
    let line = tokens.line();
    declared_at(alloc, tokens, depth - 1, base, line)
}
