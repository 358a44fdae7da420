//! Objects that are initialised by an expression.

ghost use Rattle.std.specs.Prelude.{◌≡◌};
ghost use Rattle.c_typing.specs.Outcome.{Answers};
ghost use Rattle.c_checking.specs.Declarators.{object_rule};
ghost use Rattle.c_initialisers.specs.Found as found;

use c_conversions::broken;
use c_declarators::{converted_value, object_rule};
use c_exprs::valued;
use c_tree::Expr as Source;
use c_typing::{Env, Rule, Stop};
use core_tree::{Expr, Ty};
use sqlite_items::Boxed;
use std::alloc::Global;

/// The value of an expression in a type; none where it does not convert.
fn assigned(alloc: Global, env: &Env, ty: &Ty, source: &Source) -> Result<Option<Boxed<Expr>>, Stop>
    ensures { Answers (found.assigned env.now ty.now source.now) result }
{
    let value = valued(alloc, env, source)?;
    Ok(converted_value(alloc, ty, value)?)
}

/// A fault inside an initialiser, or the rule that the object breaks.
fn told(line: u32, rule: Option<Rule>, stop: Stop) -> Stop
    ensures { found.Told line rule stop result }
{
    match rule {
        None => stop,
        Some(rule) => match stop {
            Stop::NoMemory => Stop::NoMemory,
            Stop::Broken(_) => broken(rule, line),
        },
    }
}

/// The value that an object is initialised with, given the rule that the object breaks. Of the declarator's rules the
/// least counts, and each of them before a fault inside the initialiser.
fn settled(
    line: u32,
    rule: Option<Rule>,
    value: Result<Option<Boxed<Expr>>, Stop>,
    _env: &Env,
    _ty: &Ty,
    _source: &Source,
) -> Result<Boxed<Expr>, Stop>
    requires { Answers (found.assigned _env.now _ty.now _source.now) value }
    ensures { Answers (found.settled_value line rule (found.assigned _env.now _ty.now _source.now)) result }
{
    match value {
        Ok(None) => Err(broken(Rule::WrongType, line)),
        Ok(Some(value)) => match rule {
            None => Ok(value),
            Some(rule) => Err(broken(rule, line)),
        },
        Err(stop) => Err(told(line, rule, stop)),
    }
}

/// The value that an object of a type is initialised with by an expression.
pub fn settled_value(
    alloc: Global,
    env: &Env,
    line: u32,
    ty: &Ty,
    source: &Source,
) -> Result<Boxed<Expr>, Stop>
    ensures { Answers (found.settled_value line (object_rule env.now ty.now) (found.assigned env.now ty.now source.now)) result }
{
    let value = assigned(alloc, env, ty, source);
    settled(line, object_rule(env, ty), value, env, ty, source)
}
