ghost use Rattle.c_typing.specs.Outcome.{Answers};
ghost use Rattle.c_typing.specs.Expressions as spec;
ghost use Rattle.c_exprs.specs.Parts.{judged_all, means_all, means_value};

use crate::leaves::{character_node, name_node, number_node};
use crate::lists::{call_node, cast_node, judged, size_of_node, size_of_type_node};
use crate::operators::{
    and_node, binary_node, comma_node, conditional_node, or_node, paren_node, unary_node,
};
use crate::places::{
    address_node, arrow_node, assign_node, deref_node, index_node, member_node,
    post_decrement_node, post_increment_node, pre_decrement_node, pre_increment_node, update_node,
};
use c_conversions::value;
use c_tree::{Expr as Source, ExprKind as SourceKind};
use c_typing::{Env, Operand, Stop};
use core_tree::Expr;
use sqlite_items::{Boxed, Items};
use std::alloc::Global;

/// The value of what an expression stands for; none where that has none.
#[cycle(means)]
pub fn valued(alloc: Global, env: &Env, source: &Source) -> Result<Option<Boxed<Expr>>, Stop>
    ensures { Answers (means_value env.now source.now) result }
{
    let operand = means(alloc, env, source)?;
    Ok(value(alloc, operand)?)
}

/// What the arguments of a call stand for.
#[cycle(means)]
#[tactic(auto, using(crate::proofs::Turns::arguments_turn, crate::proofs::Turns::arguments_break, crate::proofs::Turns::arguments_end))]
fn arguments(alloc: Global, env: &Env, all: &[Source]) -> Result<Items<Operand>, Stop>
    ensures { Answers (means_all env.now all.now) result }
{
    let mut found = Items::new(alloc);
    for argument in all {
        let operand = means(alloc, env, argument)?;
        found.push(operand)?;
    }
    Ok(found)
}

/// What the sizes in the name of a type stand for, each judged where it stands.
#[cycle(means)]
#[tactic(auto, using(crate::proofs::Turns::bounds_turn, crate::proofs::Turns::bounds_break, crate::proofs::Turns::bounds_end))]
fn bounds(alloc: Global, env: &Env, all: &[Source]) -> Result<Items<Operand>, Stop>
    ensures { Answers (judged_all env.now all.now) result }
{
    let mut found = Items::new(alloc);
    for bound in all {
        let operand = means(alloc, env, bound);
        let size = judged(env, operand, bound)?;
        found.push(size)?;
    }
    Ok(found)
}

/// What an expression stands for, or the first fault in it.
#[cycle(means)]
pub fn means(alloc: Global, env: &Env, source: &Source) -> Result<Operand, Stop>
    ensures { Answers (spec.means env.now source.now) result }
{
    let line = source.line;
    match &source.kind {
        SourceKind::Name(name) => name_node(alloc, env, line, name),
        SourceKind::Number {
            value,
            decimal,
            unsigned,
        } => number_node(alloc, env, line, *value, *decimal, *unsigned),
        SourceKind::Char(code) => character_node(alloc, env, line, *code),
        SourceKind::Paren(of) => {
            let operand = means(alloc, env, of.get());
            paren_node(env, line, operand, of.get())
        }
        SourceKind::Index { of, at } => {
            let whole = means(alloc, env, of.get());
            let index = valued(alloc, env, at.get());
            index_node(alloc, env, line, whole, index, of.get(), at.get())
        }
        SourceKind::Call {
            callee,
            arguments: all,
        } => {
            let function = means(alloc, env, callee.get());
            let passed = arguments(alloc, env, all.as_slice());
            call_node(
                alloc,
                env,
                line,
                function,
                passed,
                callee.get(),
                all.as_slice(),
            )
        }
        SourceKind::Member { of, name } => {
            let whole = means(alloc, env, of.get());
            member_node(alloc, env, line, name, whole, of.get())
        }
        SourceKind::Arrow { of, name } => {
            let pointer = valued(alloc, env, of.get());
            arrow_node(alloc, env, line, name, pointer, of.get())
        }
        SourceKind::PostIncrement(of) => {
            let place = means(alloc, env, of.get());
            post_increment_node(alloc, env, line, place, of.get())
        }
        SourceKind::PostDecrement(of) => {
            let place = means(alloc, env, of.get());
            post_decrement_node(alloc, env, line, place, of.get())
        }
        SourceKind::PreIncrement(of) => {
            let place = means(alloc, env, of.get());
            pre_increment_node(alloc, env, line, place, of.get())
        }
        SourceKind::PreDecrement(of) => {
            let place = means(alloc, env, of.get());
            pre_decrement_node(alloc, env, line, place, of.get())
        }
        SourceKind::AddressOf(of) => {
            let place = means(alloc, env, of.get());
            address_node(alloc, env, line, place, of.get())
        }
        SourceKind::Deref(of) => {
            let pointer = valued(alloc, env, of.get());
            deref_node(alloc, env, line, pointer, of.get())
        }
        SourceKind::Unary { op, of } => {
            let operand = valued(alloc, env, of.get());
            unary_node(alloc, env, *op, line, operand, of.get())
        }
        SourceKind::SizeofExpr(of) => {
            let operand = means(alloc, env, of.get());
            size_of_node(alloc, env, line, operand, of.get())
        }
        SourceKind::SizeofType(of) => {
            let sizes = bounds(alloc, env, of.get().bounds.as_slice());
            size_of_type_node(alloc, env, line, sizes, of.get())
        }
        SourceKind::Cast { to, of } => {
            let sizes = bounds(alloc, env, to.get().bounds.as_slice());
            let operand = means(alloc, env, of.get());
            cast_node(alloc, env, line, sizes, operand, to.get(), of.get())
        }
        SourceKind::Binary { left, op, right } => {
            let a = valued(alloc, env, left.get());
            let b = valued(alloc, env, right.get());
            binary_node(alloc, env, *op, line, a, b, left.get(), right.get())
        }
        SourceKind::And { left, right } => {
            let a = valued(alloc, env, left.get());
            let b = valued(alloc, env, right.get());
            and_node(alloc, env, line, a, b, left.get(), right.get())
        }
        SourceKind::Or { left, right } => {
            let a = valued(alloc, env, left.get());
            let b = valued(alloc, env, right.get());
            or_node(alloc, env, line, a, b, left.get(), right.get())
        }
        SourceKind::Conditional { test, yes, no } => {
            let t = valued(alloc, env, test.get());
            let a = valued(alloc, env, yes.get());
            let b = valued(alloc, env, no.get());
            conditional_node(alloc, env, line, t, a, b, test.get(), yes.get(), no.get())
        }
        SourceKind::Assign {
            place,
            op: None,
            value,
        } => {
            let to = means(alloc, env, place.get());
            let from = valued(alloc, env, value.get());
            assign_node(alloc, env, line, to, from, place.get(), value.get())
        }
        SourceKind::Assign {
            place,
            op: Some(op),
            value,
        } => {
            let to = means(alloc, env, place.get());
            let by = valued(alloc, env, value.get());
            update_node(alloc, env, *op, line, to, by, place.get(), value.get())
        }
        SourceKind::Comma { left, right } => {
            let a = valued(alloc, env, left.get());
            let b = valued(alloc, env, right.get());
            comma_node(alloc, env, line, a, b, left.get(), right.get())
        }
    }
}
