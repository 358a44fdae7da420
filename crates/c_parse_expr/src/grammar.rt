//! The rules of expressions (C99 6.5). They take the parser of the expressions inside them as a parameter, so that each
//! is proved by itself.

ghost use Rattle.std.specs.Prelude.{◌≡◌, ◌+◌};
ghost use Rattle.c_parse_expr.specs.Nests.{Reads, Nests};
ghost use Rattle.c_parse_expr.specs.Reading as spec;
ghost use Rattle.c_parse_expr.specs.Tables as table;

use crate::cursor::Cursor;
use crate::error::ParseErr;
use crate::tables::{Before, Infix, before_of, infix_of, operand, rank, right};
use crate::types::{names_type, read_spec, read_stars};
use crate::wanted::Wanted;
use base16::Name;
use c_lex::{Keyword, Mark, TokenKind};
use c_tree::{Expr, ExprKind, Typename, expr_height};
use sqlite_items::{Boxed, Items};
use std::alloc::Global;

#[derive(Clone, Copy)]
pub struct Grammar<F> {
    alloc: Global,
    /// How high an expression inside may still be.
    depth: u16,
    expr: F,
}

impl<F: Fn(Global, &mut Cursor<'_>, u16, u8) -> Result<Boxed<Expr>, ParseErr>> Grammar<F> {
    fn expr(&self, tokens: &mut Cursor<'_>, least: u8) -> Result<Boxed<Expr>, ParseErr>
        requires { Nests self.now.depth (F.pre self.now.expr) (F.post self.now.expr) }
        ensures { Reads (spec.expr self.now.depth least tokens.old) result tokens.new }
    {
        (self.expr)(self.alloc, tokens, self.depth, least)
    }

    #[tactic(auto, using(crate::proofs::ExprTurns::listed_turn, crate::proofs::ExprTurns::listed_end, crate::proofs::ExprTurns::all_listed_is))]
    fn listed(&self, tokens: &mut Cursor<'_>) -> Result<Items<Expr>, ParseErr>
        requires { Nests self.now.depth (F.pre self.now.expr) (F.post self.now.expr) }
        ensures { Reads (spec.all_listed (spec.expr self.now.depth) tokens.old) result tokens.new }
    {
        let mut found = Items::new(self.alloc);
        for _turn in 0..tokens.left() {
            let one = self.expr(tokens, 2)?;
            found.push(one.into_inner())?;
            if !tokens.take_if(Wanted::Mark(Mark::Comma)) {
                return Ok(found);
            }
        }
        Err(tokens.refuse())
    }

    #[tactic(auto, unfolding(crate::specs::Reading::some_arguments))]
    fn some_arguments(&self, tokens: &mut Cursor<'_>) -> Result<Items<Expr>, ParseErr>
        requires { Nests self.now.depth (F.pre self.now.expr) (F.post self.now.expr) }
        ensures { Reads (spec.some_arguments (spec.expr self.now.depth) tokens.old) result tokens.new }
    {
        let found = self.listed(tokens)?;
        tokens.expect(Wanted::Mark(Mark::RightParen))?;
        Ok(found)
    }

    #[tactic(auto, unfolding(crate::specs::Reading::arguments))]
    fn arguments(&self, tokens: &mut Cursor<'_>) -> Result<Items<Expr>, ParseErr>
        requires { Nests self.now.depth (F.pre self.now.expr) (F.post self.now.expr) }
        ensures { Reads (spec.arguments (spec.expr self.now.depth) tokens.old) result tokens.new }
    {
        if tokens.take_if(Wanted::Mark(Mark::RightParen)) {
            return Ok(Items::new(self.alloc));
        }
        self.some_arguments(tokens)
    }

    #[tactic(auto, unfolding(crate::specs::Reading::bound))]
    fn bound(&self, tokens: &mut Cursor<'_>) -> Result<Boxed<Expr>, ParseErr>
        requires { Nests self.now.depth (F.pre self.now.expr) (F.post self.now.expr) }
        ensures { Reads (spec.bound (spec.expr self.now.depth) tokens.old) result tokens.new }
    {
        let found = self.expr(tokens, 3)?;
        tokens.expect(Wanted::Mark(Mark::RightBracket))?;
        Ok(found)
    }

    #[tactic(auto, using(crate::proofs::ExprTurns::bounds_turn, crate::proofs::ExprTurns::bounds_end, crate::proofs::ExprTurns::all_bounds_is))]
    fn bounds(&self, tokens: &mut Cursor<'_>) -> Result<Items<Expr>, ParseErr>
        requires { Nests self.now.depth (F.pre self.now.expr) (F.post self.now.expr) }
        ensures { Reads (spec.all_bounds (spec.expr self.now.depth) tokens.old) result tokens.new }
    {
        let mut found = Items::new(self.alloc);
        for _turn in 0..tokens.left() {
            if !tokens.take_if(Wanted::Mark(Mark::LeftBracket)) {
                return Ok(found);
            }
            let bound = self.bound(tokens)?;
            found.push(bound.into_inner())?;
        }
        Ok(found)
    }

    #[tactic(auto, unfolding(crate::specs::Reading::type_name))]
    fn type_name(&self, tokens: &mut Cursor<'_>) -> Result<Boxed<Typename>, ParseErr>
        requires { Nests self.now.depth (F.pre self.now.expr) (F.post self.now.expr) }
        ensures { Reads (spec.type_name (spec.expr self.now.depth) tokens.old) result tokens.new }
    {
        let spec = read_spec(self.alloc, tokens)?;
        let stars = read_stars(self.alloc, tokens)?;
        let bounds = self.bounds(tokens)?;
        let name = Typename {
            spec,
            stars,
            bounds,
        };
        Ok(Boxed::new(self.alloc, name)?)
    }

    #[tactic(auto, unfolding(crate::specs::Reading::paren))]
    fn paren(&self, tokens: &mut Cursor<'_>) -> Result<ExprKind, ParseErr>
        requires { Nests self.now.depth (F.pre self.now.expr) (F.post self.now.expr) }
        ensures { Reads (spec.paren (spec.expr self.now.depth) tokens.old) result tokens.new }
    {
        let of = self.expr(tokens, 1)?;
        tokens.expect(Wanted::Mark(Mark::RightParen))?;
        Ok(ExprKind::Paren(of))
    }

    #[tactic(auto, unfolding(crate::specs::Reading::cast))]
    fn cast(&self, tokens: &mut Cursor<'_>) -> Result<ExprKind, ParseErr>
        requires { Nests self.now.depth (F.pre self.now.expr) (F.post self.now.expr) }
        ensures { Reads (spec.cast (spec.expr self.now.depth) tokens.old) result tokens.new }
    {
        let to = self.type_name(tokens)?;
        tokens.expect(Wanted::Mark(Mark::RightParen))?;
        let of = self.expr(tokens, 14)?;
        Ok(ExprKind::Cast { to, of })
    }

    #[tactic(auto, unfolding(crate::specs::Reading::paren_or_cast))]
    fn paren_or_cast(&self, tokens: &mut Cursor<'_>) -> Result<ExprKind, ParseErr>
        requires { Nests self.now.depth (F.pre self.now.expr) (F.post self.now.expr) }
        ensures { Reads (spec.paren_or_cast (spec.expr self.now.depth) tokens.old) result tokens.new }
    {
        if type_next(tokens) {
            return self.cast(tokens);
        }
        self.paren(tokens)
    }

    #[tactic(auto, unfolding(crate::specs::Reading::sizeof_type))]
    fn sizeof_type(&self, tokens: &mut Cursor<'_>) -> Result<ExprKind, ParseErr>
        requires { Nests self.now.depth (F.pre self.now.expr) (F.post self.now.expr) }
        ensures { Reads (spec.sizeof_type (spec.expr self.now.depth) tokens.old) result tokens.new }
    {
        tokens.expect(Wanted::Mark(Mark::LeftParen))?;
        let of = self.type_name(tokens)?;
        tokens.expect(Wanted::Mark(Mark::RightParen))?;
        Ok(ExprKind::SizeofType(of))
    }

    #[tactic(auto, unfolding(crate::specs::Reading::sizeof_expr))]
    fn sizeof_expr(&self, tokens: &mut Cursor<'_>) -> Result<ExprKind, ParseErr>
        requires { Nests self.now.depth (F.pre self.now.expr) (F.post self.now.expr) }
        ensures { Reads (spec.sizeof_expr (spec.expr self.now.depth) tokens.old) result tokens.new }
    {
        let of = self.expr(tokens, 15)?;
        Ok(ExprKind::SizeofExpr(of))
    }

    #[tactic(auto, unfolding(crate::specs::Reading::size))]
    fn size(&self, tokens: &mut Cursor<'_>) -> Result<ExprKind, ParseErr>
        requires { Nests self.now.depth (F.pre self.now.expr) (F.post self.now.expr) }
        ensures { Reads (spec.size (spec.expr self.now.depth) tokens.old) result tokens.new }
    {
        if tokens.type_enclosed() {
            return self.sizeof_type(tokens);
        }
        self.sizeof_expr(tokens)
    }

    #[tactic(auto, unfolding(crate::specs::Reading::prefixed))]
    fn prefixed(&self, tokens: &mut Cursor<'_>, kind: &TokenKind) -> Result<ExprKind, ParseErr>
        requires { Nests self.now.depth (F.pre self.now.expr) (F.post self.now.expr) }
        ensures { Reads (spec.prefixed (spec.expr self.now.depth) (table.prefix kind.now) tokens.old) result tokens.new }
    {
        let Some(before) = before_of(kind) else {
            return Err(tokens.refuse_taken());
        };
        let of = self.expr(tokens, operand(before))?;
        Ok(match before {
            Before::Increment => ExprKind::PreIncrement(of),
            Before::Decrement => ExprKind::PreDecrement(of),
            Before::Address => ExprKind::AddressOf(of),
            Before::Deref => ExprKind::Deref(of),
            Before::Unary(op) => ExprKind::Unary { op, of },
        })
    }

    #[tactic(auto, unfolding(crate::specs::Reading::begin))]
    fn begin(&self, tokens: &mut Cursor<'_>) -> Result<ExprKind, ParseErr>
        requires { Nests self.now.depth (F.pre self.now.expr) (F.post self.now.expr) }
        ensures { Reads (spec.begin (spec.expr self.now.depth) tokens.old) result tokens.new }
    {
        let Some(token) = tokens.take() else {
            return Err(tokens.refuse());
        };
        match &token.kind {
            TokenKind::Word(name) => Ok(ExprKind::Name(Name::new(self.alloc, name.bytes())?)),
            TokenKind::Number {
                value,
                decimal,
                unsigned,
            } => Ok(ExprKind::Number {
                value: *value,
                decimal: *decimal,
                unsigned: *unsigned,
            }),
            TokenKind::Char(value) => Ok(ExprKind::Char(*value)),
            TokenKind::Keyword(Keyword::Sizeof) => self.size(tokens),
            TokenKind::Mark(Mark::LeftParen) => self.paren_or_cast(tokens),
            kind => self.prefixed(tokens, kind),
        }
    }

    #[tactic(auto, unfolding(crate::specs::Reading::joined))]
    fn joined(
        &self,
        tokens: &mut Cursor<'_>,
        left: Boxed<Expr>,
        kind: &TokenKind,
    ) -> Result<ExprKind, ParseErr>
        requires { Nests self.now.depth (F.pre self.now.expr) (F.post self.now.expr) }
        ensures { Reads (spec.joined (spec.expr self.now.depth) left (table.joint kind.now) tokens.old) result tokens.new }
    {
        let Some(op) = infix_of(kind) else {
            return Err(tokens.refuse_taken());
        };
        let right = self.expr(tokens, right(op))?;
        Ok(match op {
            Infix::Comma => ExprKind::Comma { left, right },
            Infix::Or => ExprKind::Or { left, right },
            Infix::And => ExprKind::And { left, right },
            Infix::Binary(op) => ExprKind::Binary { left, op, right },
            Infix::Assign(op) => ExprKind::Assign {
                place: left,
                op,
                value: right,
            },
        })
    }

    #[tactic(auto, unfolding(crate::specs::Reading::conditional))]
    fn conditional(&self, tokens: &mut Cursor<'_>, test: Boxed<Expr>) -> Result<ExprKind, ParseErr>
        requires { Nests self.now.depth (F.pre self.now.expr) (F.post self.now.expr) }
        ensures { Reads (spec.conditional (spec.expr self.now.depth) test tokens.old) result tokens.new }
    {
        let yes = self.expr(tokens, 1)?;
        tokens.expect(Wanted::Mark(Mark::Colon))?;
        let no = self.expr(tokens, 3)?;
        Ok(ExprKind::Conditional { test, yes, no })
    }

    #[tactic(auto, unfolding(crate::specs::Reading::index))]
    fn index(&self, tokens: &mut Cursor<'_>, of: Boxed<Expr>) -> Result<ExprKind, ParseErr>
        requires { Nests self.now.depth (F.pre self.now.expr) (F.post self.now.expr) }
        ensures { Reads (spec.index (spec.expr self.now.depth) of tokens.old) result tokens.new }
    {
        let at = self.expr(tokens, 1)?;
        tokens.expect(Wanted::Mark(Mark::RightBracket))?;
        Ok(ExprKind::Index { of, at })
    }

    #[tactic(auto, unfolding(crate::specs::Reading::call))]
    fn call(&self, tokens: &mut Cursor<'_>, callee: Boxed<Expr>) -> Result<ExprKind, ParseErr>
        requires { Nests self.now.depth (F.pre self.now.expr) (F.post self.now.expr) }
        ensures { Reads (spec.call (spec.expr self.now.depth) callee tokens.old) result tokens.new }
    {
        let arguments = self.arguments(tokens)?;
        Ok(ExprKind::Call { callee, arguments })
    }

    #[tactic(auto, unfolding(crate::specs::Reading::member))]
    fn member(&self, tokens: &mut Cursor<'_>, of: Boxed<Expr>) -> Result<ExprKind, ParseErr>
        requires { Nests self.now.depth (F.pre self.now.expr) (F.post self.now.expr) }
        ensures { Reads (spec.member (spec.expr self.now.depth) of tokens.old) result tokens.new }
    {
        let name = tokens.word(self.alloc)?;
        Ok(ExprKind::Member { of, name })
    }

    #[tactic(auto, unfolding(crate::specs::Reading::arrow))]
    fn arrow(&self, tokens: &mut Cursor<'_>, of: Boxed<Expr>) -> Result<ExprKind, ParseErr>
        requires { Nests self.now.depth (F.pre self.now.expr) (F.post self.now.expr) }
        ensures { Reads (spec.arrow (spec.expr self.now.depth) of tokens.old) result tokens.new }
    {
        let name = tokens.word(self.alloc)?;
        Ok(ExprKind::Arrow { of, name })
    }

    #[tactic(auto, unfolding(crate::specs::Reading::go_on))]
    fn go_on(&self, tokens: &mut Cursor<'_>, left: Boxed<Expr>) -> Result<ExprKind, ParseErr>
        requires { Nests self.now.depth (F.pre self.now.expr) (F.post self.now.expr) }
        ensures { Reads (spec.go_on (spec.expr self.now.depth) left tokens.old) result tokens.new }
    {
        let Some(token) = tokens.take() else {
            return Err(tokens.refuse());
        };
        match &token.kind {
            TokenKind::Mark(Mark::Question) => self.conditional(tokens, left),
            TokenKind::Mark(Mark::LeftParen) => self.call(tokens, left),
            TokenKind::Mark(Mark::LeftBracket) => self.index(tokens, left),
            TokenKind::Mark(Mark::Dot) => self.member(tokens, left),
            TokenKind::Mark(Mark::Arrow) => self.arrow(tokens, left),
            TokenKind::Mark(Mark::PlusPlus) => Ok(ExprKind::PostIncrement(left)),
            TokenKind::Mark(Mark::MinusMinus) => Ok(ExprKind::PostDecrement(left)),
            kind => self.joined(tokens, left, kind),
        }
    }

    #[tactic(auto, unfolding(crate::specs::Reading::grow))]
    fn grow(
        &self,
        tokens: &mut Cursor<'_>,
        line: u32,
        left: Boxed<Expr>,
    ) -> Result<Boxed<Expr>, ParseErr>
        requires { Nests self.now.depth (F.pre self.now.expr) (F.post self.now.expr) }
        ensures { Reads (spec.grow (spec.expr self.now.depth) (self.now.depth + 1) line left tokens.old) result tokens.new }
    {
        let at = tokens.taken();
        let kind = self.go_on(tokens, left)?;
        let whole = Boxed::new(self.alloc, Expr { kind, line })?;
        if expr_height(whole.get()) > u32::from(self.depth) + 1 {
            // What stands on the left is as high as allowed already.
            return Err(ParseErr::Syntax { token: at });
        }
        Ok(whole)
    }

    #[tactic(auto, using(crate::proofs::ExprTurns::climb_turn, crate::proofs::ExprTurns::climb_end))]
    fn climb(
        &self,
        tokens: &mut Cursor<'_>,
        least: u8,
        line: u32,
        mut left: Boxed<Expr>,
    ) -> Result<Boxed<Expr>, ParseErr>
        requires { Nests self.now.depth (F.pre self.now.expr) (F.post self.now.expr) }
        ensures { Reads (spec.climb (spec.expr self.now.depth) (self.now.depth + 1) least line (self.now.depth + 1) left tokens.old) result tokens.new }
    {
        for _turn in 0..u32::from(self.depth) + 1 {
            if !goes_on(tokens, least, left.get()) {
                return Ok(left);
            }
            left = self.grow(tokens, line, left)?;
        }
        Ok(left)
    }

    /// What begins here, if it binds as tightly as asked.
    #[tactic(auto, unfolding(crate::specs::Reading::first))]
    fn begun(&self, tokens: &mut Cursor<'_>, least: u8, line: u32) -> Result<Boxed<Expr>, ParseErr>
        requires { Nests self.now.depth (F.pre self.now.expr) (F.post self.now.expr) }
        ensures { Reads (spec.first (spec.expr self.now.depth) least line tokens.old) result tokens.new }
    {
        let kind = self.begin(tokens)?;
        let whole = Boxed::new(self.alloc, Expr { kind, line })?;
        if rank(whole.get()) < least {
            return Err(tokens.refuse());
        }
        Ok(whole)
    }

    #[tactic(auto, using(crate::proofs::Casts::no_cast))]
    fn first(&self, tokens: &mut Cursor<'_>, least: u8, line: u32) -> Result<Boxed<Expr>, ParseErr>
        requires { Nests self.now.depth (F.pre self.now.expr) (F.post self.now.expr) }
        ensures { Reads (spec.first (spec.expr self.now.depth) least line tokens.old) result tokens.new }
    {
        if least > 14 && tokens.type_enclosed() {
            // Where a cast does not bind tightly enough, no type stands behind the parenthesis.
            return Err(tokens.refuse_second());
        }
        self.begun(tokens, least, line)
    }

    #[tactic(auto, unfolding(crate::specs::Reading::tree))]
    fn tree(&self, tokens: &mut Cursor<'_>, least: u8) -> Result<Boxed<Expr>, ParseErr>
        requires { Nests self.now.depth (F.pre self.now.expr) (F.post self.now.expr) }
        ensures { Reads (spec.tree (spec.expr self.now.depth) (self.now.depth + 1) least tokens.old) result tokens.new }
    {
        let line = tokens.line();
        let first = self.first(tokens, least, line)?;
        self.climb(tokens, least, line, first)
    }
}

fn goes_on(tokens: &Cursor<'_>, least: u8, left: &Expr) -> bool
    ensures { result ≡ spec.goes_on least left.now tokens.now }
{
    least <= tokens.reach() && tokens.need() <= rank(left)
}

/// Whether a type comes next.
pub fn type_next(tokens: &Cursor<'_>) -> bool
    ensures { result ≡ spec.type_next tokens.now }
{
    match tokens.peek() {
        Some(token) => names_type(&token.kind),
        None => false,
    }
}

/// An expression of this height at most, that binds as tightly as asked.
pub fn read_expr(
    alloc: Global,
    tokens: &mut Cursor<'_>,
    depth: u16,
    least: u8,
) -> Result<Boxed<Expr>, ParseErr>
    ensures { Reads (spec.expr depth least tokens.old) result tokens.new }
{
    if depth == 0 {
        return Err(tokens.refuse());
    }
    Grammar {
        alloc,
        depth: depth - 1,
        expr: read_expr,
    }
    .tree(tokens, least)
}

/// The sizes in pairs of brackets, any number of them.
pub fn read_bounds(
    alloc: Global,
    tokens: &mut Cursor<'_>,
    depth: u16,
) -> Result<Items<Expr>, ParseErr>
    ensures { Reads (spec.all_bounds (spec.expr depth) tokens.old) result tokens.new }
{
    Grammar {
        alloc,
        depth,
        expr: read_expr,
    }
    .bounds(tokens)
}
