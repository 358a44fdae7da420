//! Compounds, and the groups of a `switch` (C99 6.8.2 and 6.8.4.2). The rules take the parser of the statements inside
//! them as a parameter, so that each is proved by itself. The two truth values say whether `break` and `continue` may
//! stand there.

ghost use Rattle.std.specs.Prelude.{true};
ghost use Rattle.c_parse_expr.specs.Nests.{Reads};
ghost use Rattle.c_parse_stmt.specs.NestsStatement.{NestsStatement};
ghost use Rattle.c_parse_stmt.specs.Repeats.{all_many};
ghost use Rattle.c_parse_stmt.specs.StatementReading as spec;

use crate::statement_parts::{item_declaration, label, more_labels, runs_on, unclosed};
use c_lex::Mark;
use c_parse_expr::{Cursor, ParseErr, Wanted, type_next};
use c_tree::{BlockItem, Compound, Group, Statement};
use sqlite_items::{Boxed, Items};
use std::alloc::Global;

#[derive(Clone, Copy)]
pub struct Statements<F> {
    pub alloc: Global,
    /// How high what stands inside may still be.
    pub depth: u16,
    pub statement: F,
}

impl<
    F: Fn(Global, &mut Cursor<'_>, u16, bool, bool) -> Result<Boxed<Statement>, ParseErr>,
> Statements<F> {
    pub fn statement(
        &self,
        tokens: &mut Cursor<'_>,
        breaks: bool,
        continues: bool,
    ) -> Result<Boxed<Statement>, ParseErr>
        requires { NestsStatement self.now.depth (F.pre self.now.statement) (F.post self.now.statement) }
        ensures { Reads (spec.statement self.now.depth breaks continues tokens.old) result tokens.new }
    {
        (self.statement)(self.alloc, tokens, self.depth, breaks, continues)
    }

    #[tactic(auto, unfolding(crate::specs::StatementReading::item_statement))]
    fn item_statement(
        &self,
        tokens: &mut Cursor<'_>,
        breaks: bool,
        continues: bool,
    ) -> Result<BlockItem, ParseErr>
        requires { NestsStatement self.now.depth (F.pre self.now.statement) (F.post self.now.statement) }
        ensures { Reads (spec.item_statement self.now.depth (spec.statement self.now.depth) breaks continues tokens.old) result tokens.new }
    {
        let statement = self.statement(tokens, breaks, continues)?;
        Ok(BlockItem::Statement(statement.into_inner()))
    }

    #[tactic(auto, unfolding(crate::specs::StatementReading::an_item))]
    fn item(
        &self,
        tokens: &mut Cursor<'_>,
        breaks: bool,
        continues: bool,
    ) -> Result<BlockItem, ParseErr>
        requires { NestsStatement self.now.depth (F.pre self.now.statement) (F.post self.now.statement) }
        ensures { Reads (spec.an_item self.now.depth (spec.statement self.now.depth) breaks continues tokens.old) result tokens.new }
    {
        if type_next(tokens) {
            return item_declaration(self.alloc, tokens, self.depth);
        }
        self.item_statement(tokens, breaks, continues)
    }

    #[tactic(auto, using(crate::proofs::ListTurns::many_turn, crate::proofs::ListTurns::many_end, crate::proofs::ListTurns::all_many_is))]
    fn items(
        &self,
        tokens: &mut Cursor<'_>,
        breaks: bool,
        continues: bool,
    ) -> Result<Items<BlockItem>, ParseErr>
        requires { NestsStatement self.now.depth (F.pre self.now.statement) (F.post self.now.statement) }
        ensures { Reads (all_many (spec.an_item self.now.depth (spec.statement self.now.depth) breaks continues) spec.unclosed tokens.old) result tokens.new }
    {
        let mut found = Items::new(self.alloc);
        for _turn in 0..tokens.left() {
            if !unclosed(tokens) {
                return Ok(found);
            }
            found.push(self.item(tokens, breaks, continues)?)?;
        }
        Ok(found)
    }

    /// Behind the brace that opens.
    #[tactic(auto, unfolding(crate::specs::StatementReading::compound_rest))]
    pub fn compound_rest(
        &self,
        tokens: &mut Cursor<'_>,
        breaks: bool,
        continues: bool,
    ) -> Result<Compound, ParseErr>
        requires { NestsStatement self.now.depth (F.pre self.now.statement) (F.post self.now.statement) }
        ensures { Reads (spec.compound_rest self.now.depth (spec.statement self.now.depth) breaks continues tokens.old) result tokens.new }
    {
        let items = self.items(tokens, breaks, continues)?;
        tokens.expect(Wanted::Mark(Mark::RightBrace))?;
        Ok(Compound { items })
    }

    #[tactic(auto, unfolding(crate::specs::StatementReading::a_compound))]
    pub fn compound(
        &self,
        tokens: &mut Cursor<'_>,
        breaks: bool,
        continues: bool,
    ) -> Result<Compound, ParseErr>
        requires { NestsStatement self.now.depth (F.pre self.now.statement) (F.post self.now.statement) }
        ensures { Reads (spec.a_compound self.now.depth (spec.statement self.now.depth) breaks continues tokens.old) result tokens.new }
    {
        tokens.expect(Wanted::Mark(Mark::LeftBrace))?;
        self.compound_rest(tokens, breaks, continues)
    }

    /// The statements of a group behind its first.
    #[tactic(auto, using(crate::proofs::ListTurns::many_turn, crate::proofs::ListTurns::many_end, crate::proofs::ListTurns::all_many_is))]
    fn run(&self, tokens: &mut Cursor<'_>, continues: bool) -> Result<Items<Statement>, ParseErr>
        requires { NestsStatement self.now.depth (F.pre self.now.statement) (F.post self.now.statement) }
        ensures { Reads (all_many (spec.statement self.now.depth true continues) spec.runs_on tokens.old) result tokens.new }
    {
        let mut found = Items::new(self.alloc);
        for _turn in 0..tokens.left() {
            if !runs_on(tokens) {
                return Ok(found);
            }
            let next = self.statement(tokens, true, continues)?;
            found.push(next.into_inner())?;
        }
        Ok(found)
    }

    #[tactic(auto, unfolding(crate::specs::StatementReading::a_group))]
    fn group(&self, tokens: &mut Cursor<'_>, continues: bool) -> Result<Group, ParseErr>
        requires { NestsStatement self.now.depth (F.pre self.now.statement) (F.post self.now.statement) }
        ensures { Reads (spec.a_group self.now.depth (spec.statement self.now.depth) continues tokens.old) result tokens.new }
    {
        let mut labels = Items::new(self.alloc);
        labels.push(label(self.alloc, tokens, self.depth)?)?;
        labels.append(more_labels(self.alloc, tokens, self.depth)?)?;
        let mut statements = Items::new(self.alloc);
        let first = self.statement(tokens, true, continues)?;
        statements.push(first.into_inner())?;
        statements.append(self.run(tokens, continues)?)?;
        Ok(Group { labels, statements })
    }

    #[tactic(auto, using(crate::proofs::ListTurns::many_turn, crate::proofs::ListTurns::many_end, crate::proofs::ListTurns::all_many_is))]
    pub fn groups(&self, tokens: &mut Cursor<'_>, continues: bool) -> Result<Items<Group>, ParseErr>
        requires { NestsStatement self.now.depth (F.pre self.now.statement) (F.post self.now.statement) }
        ensures { Reads (all_many (spec.a_group self.now.depth (spec.statement self.now.depth) continues) spec.unclosed tokens.old) result tokens.new }
    {
        let mut found = Items::new(self.alloc);
        for _turn in 0..tokens.left() {
            if !unclosed(tokens) {
                return Ok(found);
            }
            found.push(self.group(tokens, continues)?)?;
        }
        Ok(found)
    }
}
