//! The words of a type (C99 6.7.2, 6.7.3 and 6.7.5.1).

ghost use Rattle.std.specs.Prelude.{◌≡◌, [], None, MatchOption};
ghost use Rattle.c_parse_expr.specs.Nests.{Reads};
ghost use Rattle.c_parse_expr.specs.TypeWords.{qual_of};
ghost use Rattle.c_parse_expr.specs.TypeReading as spec;

use crate::cursor::Cursor;
use crate::error::ParseErr;
use crate::wanted::Wanted;
use c_lex::{Keyword, Mark, TokenKind};
use c_tree::{Base, Qual, Sign, Spec};
use sqlite_items::Items;
use std::alloc::Global;

/// The qualifier that a token is.
fn qual(kind: &TokenKind) -> Option<Qual>
    ensures { result ≡ qual_of kind.now }
{
    match kind {
        TokenKind::Keyword(Keyword::Const) => Some(Qual::Const),
        TokenKind::Keyword(Keyword::Volatile) => Some(Qual::Volatile),
        _ => None,
    }
}

/// Whether a type begins with this token.
pub fn names_type(kind: &TokenKind) -> bool
    ensures { result ≡ spec.names_type kind.now }
{
    match kind {
        TokenKind::Keyword(keyword) => match keyword {
            Keyword::Const
            | Keyword::Volatile
            | Keyword::Void
            | Keyword::Char
            | Keyword::Struct
            | Keyword::Int
            | Keyword::Signed
            | Keyword::Unsigned
            | Keyword::Short => true,
            _ => false,
        },
        _ => false,
    }
}

#[tactic(auto, using(crate::proofs::TypeTurns::quals_more, crate::proofs::TypeTurns::quals_stop, crate::proofs::TypeTurns::quals_end))]
fn quals(alloc: Global, tokens: &mut Cursor<'_>) -> Result<Items<Qual>, ParseErr>
    ensures { Reads (spec.quals [] tokens.old) result tokens.new }
{
    let mut found = Items::new(alloc);
    for _turn in 0..tokens.left() {
        let Some(token) = tokens.peek() else {
            return Ok(found);
        };
        let Some(qual) = qual(&token.kind) else {
            return Ok(found);
        };
        tokens.skip();
        found.push(qual)?;
    }
    Ok(found)
}

#[tactic(auto, unfolding(crate::specs::TypeReading::short_rest))]
fn short_rest(tokens: &mut Cursor<'_>, sign: Option<Sign>) -> Base
    ensures { spec.short_rest sign tokens.old ≡ Some (result, tokens.new) }
{
    let with_int = tokens.take_if(Wanted::Keyword(Keyword::Int));
    Base::Short { sign, with_int }
}

#[tactic(auto, unfolding(crate::specs::TypeReading::unsigned_rest, crate::specs::TypeReading::unsigned_int))]
fn unsigned_rest(tokens: &mut Cursor<'_>) -> Base
    ensures { spec.unsigned_rest tokens.old ≡ Some (result, tokens.new) }
{
    if tokens.take_if(Wanted::Keyword(Keyword::Char)) {
        return Base::UnsignedChar;
    }
    if tokens.take_if(Wanted::Keyword(Keyword::Short)) {
        return short_rest(tokens, Some(Sign::Unsigned));
    }
    let with_int = tokens.take_if(Wanted::Keyword(Keyword::Int));
    Base::Unsigned { with_int }
}

#[tactic(auto, unfolding(crate::specs::TypeReading::signed_rest))]
fn signed_rest(tokens: &mut Cursor<'_>) -> Base
    ensures { spec.signed_rest tokens.old ≡ Some (result, tokens.new) }
{
    if tokens.take_if(Wanted::Keyword(Keyword::Int)) {
        return Base::Int { is_signed: true };
    }
    if tokens.take_if(Wanted::Keyword(Keyword::Short)) {
        return short_rest(tokens, Some(Sign::Signed));
    }
    Base::Signed
}

#[tactic(auto, unfolding(crate::specs::TypeReading::a_base, crate::specs::TypeReading::struct_rest))]
fn base(alloc: Global, tokens: &mut Cursor<'_>) -> Result<Base, ParseErr>
    ensures { Reads (spec.a_base tokens.old) result tokens.new }
{
    let Some(token) = tokens.take() else {
        return Err(tokens.refuse());
    };
    match &token.kind {
        TokenKind::Keyword(Keyword::Void) => Ok(Base::Void),
        TokenKind::Keyword(Keyword::Char) => Ok(Base::Char),
        TokenKind::Keyword(Keyword::Struct) => Ok(Base::Struct(tokens.word(alloc)?)),
        TokenKind::Keyword(Keyword::Int) => Ok(Base::Int { is_signed: false }),
        TokenKind::Keyword(Keyword::Signed) => Ok(signed_rest(tokens)),
        TokenKind::Keyword(Keyword::Unsigned) => Ok(unsigned_rest(tokens)),
        TokenKind::Keyword(Keyword::Short) => Ok(short_rest(tokens, None)),
        _ => Err(tokens.refuse_taken()),
    }
}

/// A base type with the qualifiers before and after it.
#[tactic(auto, unfolding(crate::specs::TypeReading::spec))]
pub fn read_spec(alloc: Global, tokens: &mut Cursor<'_>) -> Result<Spec, ParseErr>
    ensures { Reads (spec.spec tokens.old) result tokens.new }
{
    let before = quals(alloc, tokens)?;
    let base = base(alloc, tokens)?;
    let after = quals(alloc, tokens)?;
    Ok(Spec {
        before,
        base,
        after,
    })
}

/// The qualifiers of each star.
#[tactic(auto, using(crate::proofs::TypeTurns::stars_turn, crate::proofs::TypeTurns::stars_end, crate::proofs::TypeTurns::all_stars_is))]
pub fn read_stars(alloc: Global, tokens: &mut Cursor<'_>) -> Result<Items<Items<Qual>>, ParseErr>
    ensures { Reads (spec.all_stars tokens.old) result tokens.new }
{
    let mut found = Items::new(alloc);
    for _turn in 0..tokens.left() {
        if !tokens.take_if(Wanted::Mark(Mark::Star)) {
            return Ok(found);
        }
        found.push(quals(alloc, tokens)?)?;
    }
    Ok(found)
}
