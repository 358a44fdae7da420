//! The tokens that are left.

ghost use Rattle.std.specs.Prelude.{◌≡◌, [], ◌∷◌, drop, length, MatchOption};
ghost use Rattle.c_parse_expr.specs.TypeWords.{line_at};
ghost use Rattle.c_parse_expr.specs.Nests.{Reads, IsSyntax};
ghost use Rattle.c_parse_expr.specs.Reading as reading;
ghost use Rattle.c_parse_expr.specs.Steps as spec;

use crate::error::ParseErr;
use crate::tables::{need, reach};
use crate::types::names_type;
use crate::wanted::{Wanted, fits};
use base16::Name;
use c_lex::{Mark, Token, TokenKind};
use std::alloc::Global;
use std::marker::Model;

/// A place in a list of tokens. Contracts see it as the tokens that are left.
#[derive(Drop)]
pub struct Cursor<'a> {
    rest: &'a [Token],
    /// How many were taken.
    at: u32,
}

impl<'a> Model for Cursor<'a> {
    ghost use Rattle.c_parse_expr.specs.TypeWords.{Tokens};

    ghost Value = { Tokens };

    ghost view = { λ c. c.rest.now };
}

impl<'a> Cursor<'a> {
    /// At the first of these tokens.
    pub fn new(rest: &'a [Token]) -> Cursor<'a>
        ensures { result ≡ rest.now }
    {
        Cursor { rest, at: 0 }
    }

    /// The tokens that are left.
    pub fn rest(&self) -> &'a [Token]
        ensures { result.now ≡ self.now }
    {
        self.rest
    }

    /// How many tokens are left.
    pub fn left(&self) -> usize
        ensures { result ≡ length self.now }
    {
        self.rest.len()
    }

    /// How many tokens were taken, as far as a `u32` says.
    pub fn taken(&self) -> u32 {
        self.at
    }

    /// No tree goes on with the next token.
    pub fn refuse(&self) -> ParseErr
        ensures { IsSyntax result }
    {
        ParseErr::Syntax { token: self.at }
    }

    /// No tree goes on with the token behind the next.
    pub fn refuse_second(&self) -> ParseErr
        ensures { IsSyntax result }
    {
        ParseErr::Syntax {
            token: self.at.saturating_add(1),
        }
    }

    /// No tree goes on with the token that was taken last.
    pub fn refuse_taken(&self) -> ParseErr
        ensures { IsSyntax result }
    {
        ParseErr::Syntax {
            token: self.at.saturating_sub(1),
        }
    }

    /// The line of the first token.
    pub fn line(&self) -> u32
        ensures { result ≡ line_at self.now }
    {
        match self.rest {
            [token, ..] => token.line,
            [] => 0,
        }
    }

    /// How tightly the next token binds what stands before it, and 0 if it does not go on with that.
    #[tactic(auto, unfolding(crate::specs::Reading::reach))]
    pub fn reach(&self) -> u8
        ensures { result ≡ reading.reach self.now }
    {
        match self.rest {
            [token, ..] => reach(&token.kind),
            [] => 0,
        }
    }

    /// How tightly what stands before the next token has to bind.
    #[tactic(auto, unfolding(crate::specs::Reading::need))]
    pub fn need(&self) -> u8
        ensures { result ≡ reading.need self.now }
    {
        match self.rest {
            [token, ..] => need(&token.kind),
            [] => 0,
        }
    }

    /// Whether a parenthesis and a type come next.
    pub fn type_enclosed(&self) -> bool
        ensures { result ≡ reading.type_enclosed self.now }
    {
        match self.rest {
            [token, next, ..] => {
                fits(Wanted::Mark(Mark::LeftParen), &token.kind) && names_type(&next.kind)
            }
            _ => false,
        }
    }

    /// Whether this mark comes next.
    pub fn mark_next(&self, mark: Mark) -> bool
        ensures { result ≡ spec.mark_next mark self.now }
    {
        match self.rest {
            [token, ..] => fits(Wanted::Mark(mark), &token.kind),
            [] => false,
        }
    }

    /// Takes the next token.
    pub fn take(&mut self) -> Option<&'a Token>
        ensures { MatchOption result ((self.old ≡ []) × (self.new ≡ [])) (λ t. self.old ≡ t.now ∷ self.new) }
    {
        match self.rest {
            [token, rest @ ..] => {
                self.rest = rest;
                self.at = self.at.saturating_add(1);
                Some(token)
            }
            [] => None,
        }
    }

    /// Takes the token that is wanted, if it comes next.
    #[tactic(auto, unfolding(crate::specs::Steps::take_if))]
    pub fn take_if(&mut self, wanted: Wanted) -> bool
        ensures { spec.take_if wanted self.old ≡ Some (result, self.new) }
    {
        match self.rest {
            [token, rest @ ..] if fits(wanted, &token.kind) => {
                self.rest = rest;
                self.at = self.at.saturating_add(1);
                true
            }
            _ => false,
        }
    }

    /// Takes the token that is wanted.
    #[tactic(auto, unfolding(crate::specs::Steps::expect))]
    pub fn expect(&mut self, wanted: Wanted) -> Result<(), ParseErr>
        ensures { Reads (spec.expect wanted self.old) result self.new }
    {
        if self.take_if(wanted) {
            Ok(())
        } else {
            Err(self.refuse())
        }
    }

    /// Takes a name.
    #[tactic(auto, unfolding(crate::specs::Steps::word))]
    pub fn word(&mut self, alloc: Global) -> Result<Name, ParseErr>
        ensures { Reads (spec.word self.old) result self.new }
    {
        let Some(token) = self.take() else {
            return Err(self.refuse());
        };
        match &token.kind {
            TokenKind::Word(name) => Ok(Name::new(alloc, name.bytes())?),
            _ => Err(self.refuse_taken()),
        }
    }

    /// The next token, which stays.
    pub fn peek(&self) -> Option<&'a Token>
        ensures { MatchOption result (self.now ≡ []) (λ t. self.now ≡ t.now ∷ drop 1 self.now) }
    {
        self.rest.first()
    }

    /// Takes the next token, if there is one.
    pub fn skip(&mut self)
        ensures { self.new ≡ drop 1 self.old }
    {
        self.take();
    }
}
