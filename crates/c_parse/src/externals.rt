//! The parts of a source outside functions (C99 6.9).

ghost use Rattle.std.specs.Prelude.{◌≡◌, ◌<◌};
ghost use Rattle.c_parse_expr.specs.Nests.{Reads};
ghost use Rattle.c_parse_stmt.specs.Repeats.{all_commas, all_many};
ghost use Rattle.c_parse_stmt.specs.StatementReading.{unclosed};
ghost use Rattle.c_parse_expr.specs.TypeWords.{line_at};
ghost use Rattle.c_parse.specs.ExternalReading as spec;

use crate::functions::{function_end, takes};
use base16::Name;
use c_lex::{Keyword, Mark, Note};
use c_parse_expr::{Cursor, ParseErr, Wanted, fits, read_bounds, read_spec, read_stars};
use c_parse_stmt::{read_declaration, read_declaration_rest, read_duration, read_inits, unclosed};
use c_tree::{Declr, External, Function, Init, Member, Qual, Spec, Struct};
use sqlite_items::Items;
use std::alloc::Global;

#[tactic(auto, unfolding(crate::specs::ExternalReading::declr))]
fn declr(alloc: Global, tokens: &mut Cursor<'_>, depth: u16) -> Result<Declr, ParseErr>
    ensures { Reads (spec.declr depth tokens.old) result tokens.new }
{
    let stars = read_stars(alloc, tokens)?;
    let name = tokens.word(alloc)?;
    let bounds = read_bounds(alloc, tokens, depth)?;
    Ok(Declr {
        stars,
        name,
        bounds,
    })
}

#[tactic(auto, using(c_parse_stmt::proofs::ListTurns::commas_turn, c_parse_stmt::proofs::ListTurns::commas_end, c_parse_stmt::proofs::ListTurns::all_commas_is))]
fn declrs(alloc: Global, tokens: &mut Cursor<'_>, depth: u16) -> Result<Items<Declr>, ParseErr>
    ensures { Reads (all_commas (spec.declr depth) tokens.old) result tokens.new }
{
    let mut found = Items::new(alloc);
    for _turn in 0..tokens.left() {
        found.push(declr(alloc, tokens, depth)?)?;
        if !tokens.take_if(Wanted::Mark(Mark::Comma)) {
            return Ok(found);
        }
    }
    Err(tokens.refuse())
}

#[tactic(auto, unfolding(crate::specs::ExternalReading::member))]
fn member(alloc: Global, tokens: &mut Cursor<'_>, depth: u16) -> Result<Member, ParseErr>
    ensures { Reads (spec.member depth tokens.old) result tokens.new }
{
    let spec = read_spec(alloc, tokens)?;
    let declrs = declrs(alloc, tokens, depth)?;
    tokens.expect(Wanted::Mark(Mark::Semicolon))?;
    Ok(Member { spec, declrs })
}

#[tactic(auto, using(c_parse_stmt::proofs::ListTurns::many_turn, c_parse_stmt::proofs::ListTurns::many_end, c_parse_stmt::proofs::ListTurns::all_many_is))]
fn members(alloc: Global, tokens: &mut Cursor<'_>, depth: u16) -> Result<Items<Member>, ParseErr>
    ensures { Reads (all_many (spec.member depth) unclosed tokens.old) result tokens.new }
{
    let mut found = Items::new(alloc);
    for _turn in 0..tokens.left() {
        if !unclosed(tokens) {
            return Ok(found);
        }
        found.push(member(alloc, tokens, depth)?)?;
    }
    Ok(found)
}

#[tactic(auto, unfolding(crate::specs::ExternalReading::structure_at))]
fn structure(
    alloc: Global,
    tokens: &mut Cursor<'_>,
    depth: u16,
    line: u32,
) -> Result<Struct, ParseErr>
    ensures { Reads (spec.structure_at depth line tokens.old) result tokens.new }
{
    tokens.expect(Wanted::Keyword(Keyword::Struct))?;
    let name = tokens.word(alloc)?;
    tokens.expect(Wanted::Mark(Mark::LeftBrace))?;
    let mut all = Items::new(alloc);
    all.push(member(alloc, tokens, depth)?)?;
    all.append(members(alloc, tokens, depth)?)?;
    tokens.expect(Wanted::Mark(Mark::RightBrace))?;
    Ok(Struct {
        name,
        members: all,
        line,
    })
}

/// The declarators behind a struct, which may be left out.
#[tactic(auto, unfolding(crate::specs::ExternalReading::some_inits))]
fn some_inits(alloc: Global, tokens: &mut Cursor<'_>, depth: u16) -> Result<Items<Init>, ParseErr>
    ensures { Reads (spec.some_inits depth tokens.old) result tokens.new }
{
    if tokens.mark_next(Mark::Semicolon) {
        return Ok(Items::new(alloc));
    }
    read_inits(alloc, tokens, depth)
}

#[tactic(auto, unfolding(crate::specs::ExternalReading::struct_external))]
fn struct_external(
    alloc: Global,
    tokens: &mut Cursor<'_>,
    depth: u16,
    line: u32,
) -> Result<External, ParseErr>
    ensures { Reads (spec.struct_external depth line tokens.old) result tokens.new }
{
    let defined = structure(alloc, tokens, depth, line)?;
    let inits = some_inits(alloc, tokens, depth)?;
    tokens.expect(Wanted::Mark(Mark::Semicolon))?;
    Ok(External::Struct { defined, inits })
}

/// Whether a struct is defined here.
fn struct_next(tokens: &Cursor<'_>) -> bool
    ensures { result ≡ spec.struct_next tokens.now }
{
    match tokens.rest() {
        [token, _, next, ..] => {
            fits(Wanted::Keyword(Keyword::Struct), &token.kind)
                && fits(Wanted::Mark(Mark::LeftBrace), &next.kind)
        }
        _ => false,
    }
}

/// Whether the lifetime of a declaration comes next.
fn lifetime_next(tokens: &Cursor<'_>) -> bool
    ensures { result ≡ spec.lifetime_next tokens.now }
{
    match tokens.rest() {
        [token, ..] => fits(Wanted::Note(Note::ExpiresAfter), &token.kind),
        [] => false,
    }
}

/// What stands before the parameters of a function: whether `static` does, the line where the function begins, its base
/// type, stars and name.
#[derive(Drop)]
struct Heading {
    is_static: bool,
    line: u32,
    spec: Spec,
    stars: Items<Items<Qual>>,
    name: Name,
}

/// A function, behind the parenthesis that opens.
#[tactic(auto, unfolding(crate::specs::ExternalReading::function_rest))]
fn function_rest(
    alloc: Global,
    tokens: &mut Cursor<'_>,
    depth: u16,
    heading: Heading,
) -> Result<External, ParseErr>
    ensures { Reads (spec.function_rest depth heading.is_static heading.line heading.spec heading.stars heading.name
        tokens.old) result tokens.new }
{
    let params = takes(alloc, tokens, depth)?;
    tokens.expect(Wanted::Mark(Mark::RightParen))?;
    let body = function_end(alloc, tokens, depth, &params)?;
    Ok(External::Function {
        is_static: heading.is_static,
        function: Function {
            spec: heading.spec,
            stars: heading.stars,
            name: heading.name,
            params,
            body,
            line: heading.line,
        },
    })
}

/// A function or a declaration, behind its base type. The lines are those where the whole and its first declarator begin.
#[tactic(auto, unfolding(crate::specs::ExternalReading::front_rest, crate::specs::ExternalReading::plain_declaration))]
fn front_rest(
    alloc: Global,
    tokens: &mut Cursor<'_>,
    depth: u16,
    is_static: bool,
    line: u32,
    base: Spec,
) -> Result<External, ParseErr>
    ensures { Reads (spec.front_rest depth is_static line base (line_at tokens.old) tokens.old) result tokens.new }
{
    let at = tokens.line();
    let stars = read_stars(alloc, tokens)?;
    let name = tokens.word(alloc)?;
    if tokens.take_if(Wanted::Mark(Mark::LeftParen)) {
        let heading = Heading {
            is_static,
            line,
            spec: base,
            stars,
            name,
        };
        return function_rest(alloc, tokens, depth, heading);
    }
    let declaration = read_declaration_rest(alloc, tokens, depth, base, at, stars, name)?;
    Ok(External::Declaration {
        is_static,
        lifetime: None,
        declaration,
    })
}

#[tactic(auto, unfolding(crate::specs::ExternalReading::front))]
fn front(
    alloc: Global,
    tokens: &mut Cursor<'_>,
    depth: u16,
    is_static: bool,
) -> Result<External, ParseErr>
    ensures { Reads (spec.front depth is_static (line_at tokens.old) tokens.old) result tokens.new }
{
    let line = tokens.line();
    let spec = read_spec(alloc, tokens)?;
    front_rest(alloc, tokens, depth, is_static, line, spec)
}

/// A declaration behind its lifetime.
#[tactic(auto, using(crate::proofs::ExternalTurns::timed_is))]
fn timed_declaration(
    alloc: Global,
    tokens: &mut Cursor<'_>,
    depth: u16,
    is_static: bool,
) -> Result<External, ParseErr>
    requires { depth < 65535 }
    ensures { Reads (spec.timed_declaration depth is_static tokens.old) result tokens.new }
{
    tokens.expect(Wanted::Note(Note::ExpiresAfter))?;
    tokens.expect(Wanted::Mark(Mark::LeftParen))?;
    let lifetime = read_duration(tokens)?;
    tokens.expect(Wanted::Mark(Mark::RightParen))?;
    let declaration = read_declaration(alloc, tokens, depth + 1)?;
    Ok(External::Declaration {
        is_static,
        lifetime: Some(lifetime),
        declaration,
    })
}

/// What stands outside functions and is no struct.
#[tactic(auto, unfolding(crate::specs::ExternalReading::plain_external, crate::specs::ExternalReading::static_rest))]
fn plain_external(alloc: Global, tokens: &mut Cursor<'_>, depth: u16) -> Result<External, ParseErr>
    requires { depth < 65535 }
    ensures { Reads (spec.plain_external depth tokens.old) result tokens.new }
{
    let is_static = tokens.take_if(Wanted::Keyword(Keyword::Static));
    if lifetime_next(tokens) {
        return timed_declaration(alloc, tokens, depth, is_static);
    }
    front(alloc, tokens, depth, is_static)
}

#[tactic(auto, unfolding(crate::specs::ExternalReading::an_external))]
fn external(alloc: Global, tokens: &mut Cursor<'_>, depth: u16) -> Result<External, ParseErr>
    requires { depth < 65535 }
    ensures { Reads (spec.an_external depth tokens.old) result tokens.new }
{
    if struct_next(tokens) {
        let line = tokens.line();
        return struct_external(alloc, tokens, depth, line);
    }
    plain_external(alloc, tokens, depth)
}

/// All that stands outside functions; what is in it is of this height at most.
#[tactic(auto, using(c_parse_stmt::proofs::ListTurns::many_turn, c_parse_stmt::proofs::ListTurns::many_end, c_parse_stmt::proofs::ListTurns::all_many_is))]
pub fn externals(
    alloc: Global,
    tokens: &mut Cursor<'_>,
    depth: u16,
) -> Result<Items<External>, ParseErr>
    requires { depth < 65535 }
    ensures { Reads (all_many (spec.an_external depth) spec.some_left tokens.old) result tokens.new }
{
    let mut found = Items::new(alloc);
    for _turn in 0..tokens.left() {
        if tokens.peek().is_none() {
            return Ok(found);
        }
        found.push(external(alloc, tokens, depth)?)?;
    }
    Ok(found)
}
