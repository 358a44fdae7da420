//! Indexes, members, `*`, `&` and stores. Each function has what its operands gave, and their sources for its
//! contract alone.

ghost use Rattle.c_typing.specs.Outcome.{Answers};
ghost use Rattle.c_typing.specs.Expressions.{kind_means, means};
ghost use Rattle.c_exprs.specs.Parts.{means_value};

use base16::{BinaryOp, Name};
use c_places::{address, arrow, assigned, deref, indexed, member, stepped, updated};
use c_tree::{Expr as Source, ExprKind as SourceKind};
use c_typing::{Env, Operand, Stop};
use core_tree::Expr;
use sqlite_items::Boxed;
use std::alloc::Global;

/// `of [ at ]`
#[tactic(auto, using(crate::proofs::Equations::index_is))]
pub fn index_node(
    alloc: Global,
    env: &Env,
    line: u32,
    of: Result<Operand, Stop>,
    at: Result<Option<Boxed<Expr>>, Stop>,
    _of: &Source,
    _at: &Source,
) -> Result<Operand, Stop>
    requires of_whole { Answers (means env.now _of.now) of }
    requires of_index { Answers (means_value env.now _at.now) at }
    ensures { Answers (kind_means env.now (SourceKind.Index _of.now _at.now) line) result }
{
    let of = of?;
    let at = at?;
    indexed(alloc, env, line, of, at)
}

/// `of . name`
#[tactic(auto, using(crate::proofs::Equations::member_is))]
pub fn member_node(
    alloc: Global,
    env: &Env,
    line: u32,
    name: &Name,
    of: Result<Operand, Stop>,
    _of: &Source,
) -> Result<Operand, Stop>
    requires { Answers (means env.now _of.now) of }
    ensures { Answers (kind_means env.now (SourceKind.Member _of.now name.now) line) result }
{
    let of = of?;
    member(alloc, env, line, name, of)
}

/// `of -> name`
#[tactic(auto, using(crate::proofs::Equations::arrow_is))]
pub fn arrow_node(
    alloc: Global,
    env: &Env,
    line: u32,
    name: &Name,
    of: Result<Option<Boxed<Expr>>, Stop>,
    _of: &Source,
) -> Result<Operand, Stop>
    requires { Answers (means_value env.now _of.now) of }
    ensures { Answers (kind_means env.now (SourceKind.Arrow _of.now name.now) line) result }
{
    let of = of?;
    arrow(alloc, env, line, name, of)
}

/// `& of`
#[tactic(auto, using(crate::proofs::Equations::address_is))]
pub fn address_node(
    alloc: Global,
    _env: &Env,
    line: u32,
    of: Result<Operand, Stop>,
    _of: &Source,
) -> Result<Operand, Stop>
    requires { Answers (means _env.now _of.now) of }
    ensures { Answers (kind_means _env.now (SourceKind.AddressOf _of.now) line) result }
{
    let of = of?;
    Ok(Operand::Value(address(alloc, line, of)?))
}

/// `* of`
#[tactic(auto, using(crate::proofs::Equations::deref_is))]
pub fn deref_node(
    alloc: Global,
    _env: &Env,
    line: u32,
    of: Result<Option<Boxed<Expr>>, Stop>,
    _of: &Source,
) -> Result<Operand, Stop>
    requires { Answers (means_value _env.now _of.now) of }
    ensures { Answers (kind_means _env.now (SourceKind.Deref _of.now) line) result }
{
    let of = of?;
    deref(alloc, line, of)
}

/// `of ++`
#[tactic(auto, using(crate::proofs::Equations::post_increment_is))]
pub fn post_increment_node(
    alloc: Global,
    env: &Env,
    line: u32,
    of: Result<Operand, Stop>,
    _of: &Source,
) -> Result<Operand, Stop>
    requires { Answers (means env.now _of.now) of }
    ensures { Answers (kind_means env.now (SourceKind.PostIncrement _of.now) line) result }
{
    let of = of?;
    Ok(Operand::Value(stepped(alloc, env, BinaryOp::Add, line, true, of)?))
}

/// `of --`
#[tactic(auto, using(crate::proofs::Equations::post_decrement_is))]
pub fn post_decrement_node(
    alloc: Global,
    env: &Env,
    line: u32,
    of: Result<Operand, Stop>,
    _of: &Source,
) -> Result<Operand, Stop>
    requires { Answers (means env.now _of.now) of }
    ensures { Answers (kind_means env.now (SourceKind.PostDecrement _of.now) line) result }
{
    let of = of?;
    Ok(Operand::Value(stepped(alloc, env, BinaryOp::Sub, line, true, of)?))
}

/// `++ of`
#[tactic(auto, using(crate::proofs::Equations::pre_increment_is))]
pub fn pre_increment_node(
    alloc: Global,
    env: &Env,
    line: u32,
    of: Result<Operand, Stop>,
    _of: &Source,
) -> Result<Operand, Stop>
    requires { Answers (means env.now _of.now) of }
    ensures { Answers (kind_means env.now (SourceKind.PreIncrement _of.now) line) result }
{
    let of = of?;
    Ok(Operand::Value(stepped(alloc, env, BinaryOp::Add, line, false, of)?))
}

/// `-- of`
#[tactic(auto, using(crate::proofs::Equations::pre_decrement_is))]
pub fn pre_decrement_node(
    alloc: Global,
    env: &Env,
    line: u32,
    of: Result<Operand, Stop>,
    _of: &Source,
) -> Result<Operand, Stop>
    requires { Answers (means env.now _of.now) of }
    ensures { Answers (kind_means env.now (SourceKind.PreDecrement _of.now) line) result }
{
    let of = of?;
    Ok(Operand::Value(stepped(alloc, env, BinaryOp::Sub, line, false, of)?))
}

/// `place = value`
#[tactic(auto, using(crate::proofs::Equations::assign_is))]
pub fn assign_node(
    alloc: Global,
    env: &Env,
    line: u32,
    place: Result<Operand, Stop>,
    value: Result<Option<Boxed<Expr>>, Stop>,
    _place: &Source,
    _value: &Source,
) -> Result<Operand, Stop>
    requires of_place { Answers (means env.now _place.now) place }
    requires of_value { Answers (means_value env.now _value.now) value }
    ensures { Answers (kind_means env.now (SourceKind.Assign _place.now None _value.now) line) result }
{
    let place = place?;
    let value = value?;
    Ok(Operand::Value(assigned(alloc, env, line, place, value)?))
}

/// `place op= value`
#[tactic(auto, using(crate::proofs::Equations::update_is))]
pub fn update_node(
    alloc: Global,
    env: &Env,
    op: BinaryOp,
    line: u32,
    place: Result<Operand, Stop>,
    value: Result<Option<Boxed<Expr>>, Stop>,
    _place: &Source,
    _value: &Source,
) -> Result<Operand, Stop>
    requires of_place { Answers (means env.now _place.now) place }
    requires of_value { Answers (means_value env.now _value.now) value }
    ensures { Answers (kind_means env.now (SourceKind.Assign _place.now (Some op) _value.now) line) result }
{
    let place = place?;
    let value = value?;
    Ok(Operand::Value(updated(alloc, env, op, line, false, place, value)?))
}
