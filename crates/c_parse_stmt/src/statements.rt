//! Statements (C99 6.8). The rules take the parser of the statements inside them as a parameter, so that each is proved
//! by itself. The two truth values say whether `break` and `continue` may stand there.

ghost use Rattle.std.specs.Prelude.{drop};
ghost use Rattle.c_lex.specs.declared.token.TokenKind.TheVariants as token;
ghost use Rattle.c_parse_expr.specs.Nests.{Reads};
ghost use Rattle.c_parse_stmt.specs.NestsStatement.{NestsStatement};
ghost use Rattle.c_parse_stmt.specs.StatementReading as spec;

use crate::compounds::Statements;
use crate::simple_statements::{break_rest, continue_rest, expression, return_rest};
use crate::statement_parts::{
    catch_word, for_first, given, opened, semicolon, tested, timed, tnames,
};
use c_lex::{Keyword, Mark, Note, TokenKind};
use c_parse_expr::{Cursor, ParseErr, Wanted};
use c_tree::{Compound, Statement, StatementKind};
use sqlite_items::Boxed;
use std::alloc::Global;

impl<
    F: Fn(Global, &mut Cursor<'_>, u16, bool, bool) -> Result<Boxed<Statement>, ParseErr>,
> Statements<F> {
    #[tactic(auto, unfolding(crate::specs::StatementReading::compound_form))]
    fn compound_form(
        &self,
        tokens: &mut Cursor<'_>,
        breaks: bool,
        continues: bool,
    ) -> Result<StatementKind, ParseErr>
        requires { NestsStatement self.now.depth (F.pre self.now.statement) (F.post self.now.statement) }
        ensures { Reads (spec.compound_form self.now.depth (spec.statement self.now.depth) breaks continues tokens.old) result tokens.new }
    {
        Ok(StatementKind::Compound(self.compound_rest(tokens, breaks, continues)?))
    }

    #[tactic(auto, unfolding(crate::specs::StatementReading::other_branch))]
    fn other_branch(
        &self,
        tokens: &mut Cursor<'_>,
        breaks: bool,
        continues: bool,
    ) -> Result<Option<Boxed<Statement>>, ParseErr>
        requires { NestsStatement self.now.depth (F.pre self.now.statement) (F.post self.now.statement) }
        ensures { Reads (spec.other_branch self.now.depth (spec.statement self.now.depth) breaks continues tokens.old) result tokens.new }
    {
        Ok(Some(self.statement(tokens, breaks, continues)?))
    }

    #[tactic(auto, unfolding(crate::specs::StatementReading::else_part))]
    fn else_part(
        &self,
        tokens: &mut Cursor<'_>,
        breaks: bool,
        continues: bool,
    ) -> Result<Option<Boxed<Statement>>, ParseErr>
        requires { NestsStatement self.now.depth (F.pre self.now.statement) (F.post self.now.statement) }
        ensures { Reads (spec.else_part self.now.depth (spec.statement self.now.depth) breaks continues tokens.old) result tokens.new }
    {
        if tokens.take_if(Wanted::Keyword(Keyword::Else)) {
            return self.other_branch(tokens, breaks, continues);
        }
        Ok(None)
    }

    #[tactic(auto, unfolding(crate::specs::StatementReading::if_rest))]
    fn if_rest(
        &self,
        tokens: &mut Cursor<'_>,
        breaks: bool,
        continues: bool,
    ) -> Result<StatementKind, ParseErr>
        requires { NestsStatement self.now.depth (F.pre self.now.statement) (F.post self.now.statement) }
        ensures { Reads (spec.if_rest self.now.depth (spec.statement self.now.depth) breaks continues tokens.old) result tokens.new }
    {
        let test = tested(self.alloc, tokens, self.depth)?;
        let yes = self.statement(tokens, breaks, continues)?;
        let no = self.else_part(tokens, breaks, continues)?;
        Ok(StatementKind::If {
            test: test.into_inner(),
            yes,
            no,
        })
    }

    #[tactic(auto, unfolding(crate::specs::StatementReading::while_rest))]
    fn while_rest(&self, tokens: &mut Cursor<'_>) -> Result<StatementKind, ParseErr>
        requires { NestsStatement self.now.depth (F.pre self.now.statement) (F.post self.now.statement) }
        ensures { Reads (spec.while_rest self.now.depth (spec.statement self.now.depth) tokens.old) result tokens.new }
    {
        let test = tested(self.alloc, tokens, self.depth)?;
        let body = self.statement(tokens, true, true)?;
        Ok(StatementKind::While {
            test: test.into_inner(),
            body,
        })
    }

    #[tactic(auto, unfolding(crate::specs::StatementReading::do_rest))]
    fn do_rest(&self, tokens: &mut Cursor<'_>) -> Result<StatementKind, ParseErr>
        requires { NestsStatement self.now.depth (F.pre self.now.statement) (F.post self.now.statement) }
        ensures { Reads (spec.do_rest self.now.depth (spec.statement self.now.depth) tokens.old) result tokens.new }
    {
        let body = self.statement(tokens, true, true)?;
        tokens.expect(Wanted::Keyword(Keyword::While))?;
        let test = tested(self.alloc, tokens, self.depth)?;
        semicolon(tokens)?;
        Ok(StatementKind::Do {
            body,
            test: test.into_inner(),
        })
    }

    #[tactic(auto, unfolding(crate::specs::StatementReading::for_rest))]
    fn for_rest(&self, tokens: &mut Cursor<'_>) -> Result<StatementKind, ParseErr>
        requires { NestsStatement self.now.depth (F.pre self.now.statement) (F.post self.now.statement) }
        ensures { Reads (spec.for_rest self.now.depth (spec.statement self.now.depth) tokens.old) result tokens.new }
    {
        tokens.expect(Wanted::Mark(Mark::LeftParen))?;
        let first = for_first(self.alloc, tokens, self.depth)?;
        let test = given(self.alloc, tokens, self.depth, Mark::Semicolon)?;
        semicolon(tokens)?;
        let step = given(self.alloc, tokens, self.depth, Mark::RightParen)?;
        tokens.expect(Wanted::Mark(Mark::RightParen))?;
        let body = self.statement(tokens, true, true)?;
        Ok(StatementKind::For {
            first: first.into_inner(),
            test: opened(test),
            step: opened(step),
            body,
        })
    }

    #[tactic(auto, unfolding(crate::specs::StatementReading::switch_rest))]
    fn switch_rest(
        &self,
        tokens: &mut Cursor<'_>,
        continues: bool,
    ) -> Result<StatementKind, ParseErr>
        requires { NestsStatement self.now.depth (F.pre self.now.statement) (F.post self.now.statement) }
        ensures { Reads (spec.switch_rest self.now.depth (spec.statement self.now.depth) continues tokens.old) result tokens.new }
    {
        let on = tested(self.alloc, tokens, self.depth)?;
        tokens.expect(Wanted::Mark(Mark::LeftBrace))?;
        let groups = self.groups(tokens, continues)?;
        tokens.expect(Wanted::Mark(Mark::RightBrace))?;
        Ok(StatementKind::Switch {
            on: on.into_inner(),
            groups,
        })
    }

    #[tactic(auto, unfolding(crate::specs::StatementReading::timely_rest))]
    fn timely_rest(
        &self,
        tokens: &mut Cursor<'_>,
        breaks: bool,
        continues: bool,
    ) -> Result<StatementKind, ParseErr>
        requires { NestsStatement self.now.depth (F.pre self.now.statement) (F.post self.now.statement) }
        ensures { Reads (spec.timely_rest self.now.depth (spec.statement self.now.depth) breaks continues tokens.old) result tokens.new }
    {
        let (place, limit) = timed(self.alloc, tokens, self.depth)?;
        let yes = self.statement(tokens, breaks, continues)?;
        let no = self.else_part(tokens, breaks, continues)?;
        Ok(StatementKind::Timely {
            place: place.into_inner(),
            limit,
            yes,
            no,
        })
    }

    #[tactic(auto, unfolding(crate::specs::StatementReading::expires_rest))]
    fn expires_rest(
        &self,
        tokens: &mut Cursor<'_>,
        breaks: bool,
        continues: bool,
    ) -> Result<StatementKind, ParseErr>
        requires { NestsStatement self.now.depth (F.pre self.now.statement) (F.post self.now.statement) }
        ensures { Reads (spec.expires_rest self.now.depth (spec.statement self.now.depth) breaks continues tokens.old) result tokens.new }
    {
        tokens.expect(Wanted::Mark(Mark::LeftParen))?;
        let names = tnames(self.alloc, tokens, self.depth)?;
        tokens.expect(Wanted::Mark(Mark::RightParen))?;
        let body = self.compound(tokens, breaks, continues)?;
        catch_word(tokens)?;
        let caught = self.compound(tokens, breaks, continues)?;
        Ok(StatementKind::Expires {
            names,
            body,
            caught,
        })
    }

    /// From the keyword that comes next.
    fn by_keyword(
        &self,
        tokens: &mut Cursor<'_>,
        keyword: Keyword,
        breaks: bool,
        continues: bool,
    ) -> Result<StatementKind, ParseErr>
        requires { NestsStatement self.now.depth (F.pre self.now.statement) (F.post self.now.statement) }
        ensures { Reads (spec.form_by self.now.depth (spec.statement self.now.depth) breaks continues (token.Keyword keyword) tokens.old (drop 1 tokens.old)) result tokens.new }
    {
        match keyword {
            Keyword::If => {
                tokens.skip();
                self.if_rest(tokens, breaks, continues)
            }
            Keyword::While => {
                tokens.skip();
                self.while_rest(tokens)
            }
            Keyword::Do => {
                tokens.skip();
                self.do_rest(tokens)
            }
            Keyword::For => {
                tokens.skip();
                self.for_rest(tokens)
            }
            Keyword::Switch => {
                tokens.skip();
                self.switch_rest(tokens, continues)
            }
            Keyword::Break => {
                tokens.skip();
                break_rest(tokens, breaks)
            }
            Keyword::Continue => {
                tokens.skip();
                continue_rest(tokens, continues)
            }
            Keyword::Return => {
                tokens.skip();
                return_rest(self.alloc, tokens, self.depth)
            }
            _ => expression(self.alloc, tokens, self.depth),
        }
    }

    /// From the annotation that comes next.
    fn by_note(
        &self,
        tokens: &mut Cursor<'_>,
        note: Note,
        breaks: bool,
        continues: bool,
    ) -> Result<StatementKind, ParseErr>
        requires { NestsStatement self.now.depth (F.pre self.now.statement) (F.post self.now.statement) }
        ensures { Reads (spec.form_by self.now.depth (spec.statement self.now.depth) breaks continues (token.Note note) tokens.old (drop 1 tokens.old)) result tokens.new }
    {
        match note {
            Note::Timely => {
                tokens.skip();
                self.timely_rest(tokens, breaks, continues)
            }
            Note::Expires => {
                tokens.skip();
                self.expires_rest(tokens, breaks, continues)
            }
            _ => expression(self.alloc, tokens, self.depth),
        }
    }

    #[tactic(auto, unfolding(crate::specs::StatementReading::form))]
    fn form(
        &self,
        tokens: &mut Cursor<'_>,
        breaks: bool,
        continues: bool,
    ) -> Result<StatementKind, ParseErr>
        requires { NestsStatement self.now.depth (F.pre self.now.statement) (F.post self.now.statement) }
        ensures { Reads (spec.form self.now.depth (spec.statement self.now.depth) breaks continues tokens.old) result tokens.new }
    {
        let Some(token) = tokens.peek() else {
            return Err(tokens.refuse());
        };
        match &token.kind {
            TokenKind::Mark(Mark::LeftBrace) => {
                tokens.skip();
                self.compound_form(tokens, breaks, continues)
            }
            TokenKind::Keyword(keyword) => self.by_keyword(tokens, *keyword, breaks, continues),
            TokenKind::Note(note) => self.by_note(tokens, *note, breaks, continues),
            _ => expression(self.alloc, tokens, self.depth),
        }
    }

    #[tactic(auto, unfolding(crate::specs::StatementReading::formed))]
    fn formed(
        &self,
        tokens: &mut Cursor<'_>,
        breaks: bool,
        continues: bool,
    ) -> Result<Boxed<Statement>, ParseErr>
        requires { NestsStatement self.now.depth (F.pre self.now.statement) (F.post self.now.statement) }
        ensures { Reads (spec.formed self.now.depth (spec.statement self.now.depth) breaks continues tokens.old) result tokens.new }
    {
        let line = tokens.line();
        let kind = self.form(tokens, breaks, continues)?;
        Ok(Boxed::new(self.alloc, Statement { kind, line })?)
    }
}

/// A compound, in which what stands is of this height at most.
///
/// # Errors
/// `Syntax` if none begins here; `NoMemory` if memory runs out.
pub fn read_compound(
    alloc: Global,
    tokens: &mut Cursor<'_>,
    depth: u16,
    breaks: bool,
    continues: bool,
) -> Result<Compound, ParseErr>
    ensures { Reads (spec.a_compound depth (spec.statement depth) breaks continues tokens.old) result tokens.new }
{
    Statements {
        alloc,
        depth,
        statement,
    }
    .compound(tokens, breaks, continues)
}

/// A statement of this height at most.
///
/// # Errors
/// `Syntax` if none begins here; `NoMemory` if memory runs out.
fn statement(
    alloc: Global,
    tokens: &mut Cursor<'_>,
    depth: u16,
    breaks: bool,
    continues: bool,
) -> Result<Boxed<Statement>, ParseErr>
    ensures { Reads (spec.statement depth breaks continues tokens.old) result tokens.new }
{
    if depth == 0 {
        return Err(tokens.refuse());
    }
    Statements {
        alloc,
        depth: depth - 1,
        statement,
    }
    .formed(tokens, breaks, continues)
}
