//! The expressions of statements, judged at the statement's line.

ghost use Rattle.std.specs.Prelude.{◌≡◌, IfOk};
ghost use Rattle.c_typing.specs.Outcome.{Answers, at};
ghost use Rattle.core_tree.specs.declared.types.Ty.{out-Ty};
ghost use Rattle.c_checking.specs.Walk.{Walks};
ghost use Rattle.c_checking.specs.Walk as walk;
ghost use Rattle.c_checking.specs.Locals as local;
ghost use Rattle.c_checking.specs.Statements as spec;

use base16::NoMemory;
use c_conversions::{broken, to_int};
use c_declarators::converted_value;
use c_exprs::valued;
use c_rules::{is_scalar, promoted};
use c_tree::Expr as Source;
use c_typing::{Env, Rule, Stop};
use core_tree::{Expr, Stmt, StmtKind, Ty};
use sqlite_items::Boxed;
use std::alloc::Global;

/// A statement that has no number yet.
pub fn statement_at(alloc: Global, line: u32, kind: StmtKind) -> Result<Boxed<Stmt>, NoMemory>
    ensures { IfOk result (λ made. made ≡ local.statement_at line kind) }
{
    Ok(Boxed::new(
        alloc,
        Stmt {
            kind,
            node: 0,
            line,
        },
    )?)
}

/// Any value, of type `void` too.
fn some_value(line: u32, value: Option<Boxed<Expr>>) -> Result<Boxed<Expr>, Stop>
    ensures { Answers (at line (spec.some_value value)) result }
{
    match value {
        Some(expr) => Ok(expr),
        None => Err(broken(Rule::WrongType, line)),
    }
}

/// Any value of an expression, of type `void` too.
#[tactic(auto, unfolding(c_checking::specs::Statements::any_of))]
pub fn any_of(alloc: Global, env: &Env, line: u32, expr: &Source) -> Result<Boxed<Expr>, Stop>
    ensures { Answers (spec.any_of env.now line expr.now) result }
{
    some_value(line, valued(alloc, env, expr)?)
}

/// An integer or a pointer.
fn tested(line: u32, value: Option<Boxed<Expr>>) -> Result<Boxed<Expr>, Stop>
    ensures { Answers (at line (spec.tested value)) result }
{
    match value {
        Some(expr) => {
            if is_scalar(&expr.get().ty) {
                Ok(expr)
            } else {
                Err(broken(Rule::WrongType, line))
            }
        }
        None => Err(broken(Rule::WrongType, line)),
    }
}

/// The value of an expression that is tested.
#[tactic(auto, unfolding(c_checking::specs::Statements::test_of))]
pub fn test_of(alloc: Global, env: &Env, line: u32, expr: &Source) -> Result<Boxed<Expr>, Stop>
    ensures { Answers (spec.test_of env.now line expr.now) result }
{
    tested(line, valued(alloc, env, expr)?)
}

/// The value that a function returns, converted to its result.
#[tactic(auto, unfolding(c_checking::specs::Statements::result_of))]
pub fn result_of(alloc: Global, env: &Env, line: u32, expr: &Source) -> Result<Boxed<Expr>, Stop>
    ensures { Answers (spec.result_of env.now line expr.now) result }
{
    let value = valued(alloc, env, expr)?;
    some_value(line, converted_value(alloc, &env.result, value)?)
}

/// An integer, promoted.
fn promoted_value(alloc: Global, line: u32, value: Option<Boxed<Expr>>) -> Result<Boxed<Expr>, Stop>
    ensures { Answers (at line (spec.promoted_value value)) result }
{
    let Some(expr) = value else {
        return Err(broken(Rule::WrongType, line));
    };
    let Ty::Num(from) = expr.get().ty else {
        return Err(broken(Rule::WrongType, line));
    };
    Ok(to_int(alloc, from, promoted(from), expr)?)
}

/// The value on which a `switch` goes by.
#[tactic(auto, unfolding(c_checking::specs::Statements::switched))]
pub fn switched(alloc: Global, env: &Env, line: u32, expr: &Source) -> Result<Boxed<Expr>, Stop>
    ensures { Answers (spec.switched env.now line expr.now) result }
{
    let value = valued(alloc, env, expr)?;
    promoted_value(alloc, line, value)
}

/// An expression statement.
#[tactic(auto, unfolding(c_checking::specs::Statements::expr_stmt))]
pub fn expr_stmt(
    alloc: Global,
    env: &mut Env,
    line: u32,
    expr: &Source,
) -> Result<Boxed<Stmt>, Stop>
    ensures { Walks (spec.expr_stmt line expr.now env.old) result env.new }
{
    let expr = any_of(alloc, env, line, expr)?;
    Ok(statement_at(alloc, line, StmtKind::Expr(expr.into_inner()))?)
}

/// `return`, with a value exactly where the function has a result.
#[tactic(auto, unfolding(c_checking::specs::Statements::return_stmt))]
pub fn return_stmt(
    alloc: Global,
    env: &mut Env,
    line: u32,
    expr: &Option<Source>,
) -> Result<Boxed<Stmt>, Stop>
    ensures { Walks (spec.return_stmt line expr.now env.old) result env.new }
{
    match expr {
        Some(expr) => {
            let expr = result_of(alloc, env, line, expr)?;
            Ok(statement_at(alloc, line, StmtKind::Return(Some(expr.into_inner())))?)
        }
        None => match &env.result {
            Ty::Void => Ok(statement_at(alloc, line, StmtKind::Return(None))?),
            _ => Err(broken(Rule::WrongType, line)),
        },
    }
}

/// The test of a `for`, where it has one.
pub fn maybe_test(
    alloc: Global,
    env: &mut Env,
    line: u32,
    expr: &Option<Source>,
) -> Result<Option<Boxed<Expr>>, Stop>
    ensures { Walks (spec.if_some (spec.test line) expr.now env.old) result env.new }
{
    match expr {
        Some(expr) => Ok(Some(test_of(alloc, env, line, expr)?)),
        None => Ok(None),
    }
}

/// The step of a `for`, where it has one.
pub fn maybe_value(
    alloc: Global,
    env: &mut Env,
    line: u32,
    expr: &Option<Source>,
) -> Result<Option<Boxed<Expr>>, Stop>
    ensures { Walks (spec.if_some (spec.any_value line) expr.now env.old) result env.new }
{
    match expr {
        Some(expr) => Ok(Some(any_of(alloc, env, line, expr)?)),
        None => Ok(None),
    }
}
