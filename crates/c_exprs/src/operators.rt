//! Operators on values. Each function has what its operands gave, and their sources for its contract alone.

ghost use Rattle.c_typing.specs.Outcome.{Answers};
ghost use Rattle.c_typing.specs.Expressions.{kind_means, means};
ghost use Rattle.c_exprs.specs.Parts.{means_value};

use base16::{BinaryOp, UnaryOp};
use c_operators::{binary, both, conditional, either, sequence, unary};
use c_tree::{Expr as Source, ExprKind as SourceKind};
use c_typing::{Env, Operand, Stop};
use core_tree::Expr;
use sqlite_items::Boxed;
use std::alloc::Global;

/// `( of )`
#[tactic(auto, using(crate::proofs::Equations::paren_is))]
pub fn paren_node(
    _env: &Env,
    _line: u32,
    of: Result<Operand, Stop>,
    _of: &Source,
) -> Result<Operand, Stop>
    requires { Answers (means _env.now _of.now) of }
    ensures { Answers (kind_means _env.now (SourceKind.Paren _of.now) _line) result }
{
    of
}

/// `+ of`, `- of`, `~ of` or `! of`
#[tactic(auto, using(crate::proofs::Equations::unary_is))]
pub fn unary_node(
    alloc: Global,
    _env: &Env,
    op: UnaryOp,
    line: u32,
    of: Result<Option<Boxed<Expr>>, Stop>,
    _of: &Source,
) -> Result<Operand, Stop>
    requires { Answers (means_value _env.now _of.now) of }
    ensures { Answers (kind_means _env.now (SourceKind.Unary op _of.now) line) result }
{
    let operand = of?;
    Ok(Operand::Value(unary(alloc, op, line, operand)?))
}

/// `left op right`
#[tactic(auto, using(crate::proofs::Equations::binary_is))]
pub fn binary_node(
    alloc: Global,
    env: &Env,
    op: BinaryOp,
    line: u32,
    left: Result<Option<Boxed<Expr>>, Stop>,
    right: Result<Option<Boxed<Expr>>, Stop>,
    _left: &Source,
    _right: &Source,
) -> Result<Operand, Stop>
    requires of_left { Answers (means_value env.now _left.now) left }
    requires of_right { Answers (means_value env.now _right.now) right }
    ensures { Answers (kind_means env.now (SourceKind.Binary _left.now op _right.now) line) result }
{
    let first = left?;
    let second = right?;
    Ok(Operand::Value(binary(alloc, env, op, line, first, second)?))
}

/// `left && right`
#[tactic(auto, using(crate::proofs::Equations::and_is))]
pub fn and_node(
    alloc: Global,
    _env: &Env,
    line: u32,
    left: Result<Option<Boxed<Expr>>, Stop>,
    right: Result<Option<Boxed<Expr>>, Stop>,
    _left: &Source,
    _right: &Source,
) -> Result<Operand, Stop>
    requires of_left { Answers (means_value _env.now _left.now) left }
    requires of_right { Answers (means_value _env.now _right.now) right }
    ensures { Answers (kind_means _env.now (SourceKind.And _left.now _right.now) line) result }
{
    let left = left?;
    let right = right?;
    Ok(Operand::Value(both(alloc, line, left, right)?))
}

/// `left || right`
#[tactic(auto, using(crate::proofs::Equations::or_is))]
pub fn or_node(
    alloc: Global,
    _env: &Env,
    line: u32,
    left: Result<Option<Boxed<Expr>>, Stop>,
    right: Result<Option<Boxed<Expr>>, Stop>,
    _left: &Source,
    _right: &Source,
) -> Result<Operand, Stop>
    requires of_left { Answers (means_value _env.now _left.now) left }
    requires of_right { Answers (means_value _env.now _right.now) right }
    ensures { Answers (kind_means _env.now (SourceKind.Or _left.now _right.now) line) result }
{
    let left = left?;
    let right = right?;
    Ok(Operand::Value(either(alloc, line, left, right)?))
}

/// `left , right`
#[tactic(auto, using(crate::proofs::Equations::comma_is))]
pub fn comma_node(
    alloc: Global,
    _env: &Env,
    line: u32,
    left: Result<Option<Boxed<Expr>>, Stop>,
    right: Result<Option<Boxed<Expr>>, Stop>,
    _left: &Source,
    _right: &Source,
) -> Result<Operand, Stop>
    requires of_left { Answers (means_value _env.now _left.now) left }
    requires of_right { Answers (means_value _env.now _right.now) right }
    ensures { Answers (kind_means _env.now (SourceKind.Comma _left.now _right.now) line) result }
{
    let left = left?;
    let right = right?;
    Ok(Operand::Value(sequence(alloc, line, left, right)?))
}

/// `test ? yes : no`
#[tactic(auto, using(crate::proofs::Equations::conditional_is))]
pub fn conditional_node(
    alloc: Global,
    _env: &Env,
    line: u32,
    test: Result<Option<Boxed<Expr>>, Stop>,
    yes: Result<Option<Boxed<Expr>>, Stop>,
    no: Result<Option<Boxed<Expr>>, Stop>,
    _test: &Source,
    _yes: &Source,
    _no: &Source,
) -> Result<Operand, Stop>
    requires of_test { Answers (means_value _env.now _test.now) test }
    requires of_yes { Answers (means_value _env.now _yes.now) yes }
    requires of_no { Answers (means_value _env.now _no.now) no }
    ensures { Answers (kind_means _env.now (SourceKind.Conditional _test.now _yes.now _no.now) line) result }
{
    let test = test?;
    let yes = yes?;
    let no = no?;
    Ok(Operand::Value(conditional(alloc, line, test, yes, no)?))
}
