//! Calls, and what has the name of a type in it. Each function has what its operands gave, and their sources for its
//! contract alone.

ghost use Rattle.std.specs.Prelude.{◌≡◌};
ghost use Rattle.c_typing.specs.Outcome.{Answers};
ghost use Rattle.c_typing.specs.Expressions.{first_line, kind_means, means, sizes_of, sources};
ghost use Rattle.c_exprs.specs.Parts.{judged, judged_all, means_all};

use c_names::{as_size, called, cast, size_of_named, size_of_operand};
use c_tree::{Expr as Source, ExprKind as SourceKind, Typename};
use c_typing::{Env, Operand, Stop};
use sqlite_items::Items;
use std::alloc::Global;

/// The line at which a channel is told that is not constant: that of the first argument.
fn channel_line(_env: &Env, line: u32, arguments: &[Source]) -> u32
    ensures { result ≡ first_line (sources _env.now) line arguments.now }
{
    match arguments {
        [first, ..] => first.line,
        [] => line,
    }
}

/// `callee ( arguments )`
#[tactic(auto, using(crate::proofs::Equations::call_is))]
pub fn call_node(
    alloc: Global,
    env: &Env,
    line: u32,
    callee: Result<Operand, Stop>,
    arguments: Result<Items<Operand>, Stop>,
    _callee: &Source,
    all: &[Source],
) -> Result<Operand, Stop>
    requires of_callee { Answers (means env.now _callee.now) callee }
    requires of_arguments { Answers (means_all env.now all.now) arguments }
    ensures { Answers (kind_means env.now (SourceKind.Call _callee.now all.now) line) result }
{
    let channel = channel_line(env, line, all);
    let callee = callee?;
    let arguments = arguments?;
    called(alloc, env, line, channel, callee, arguments)
}

/// An operand where the size of an array stands.
pub fn judged(_env: &Env, operand: Result<Operand, Stop>, bound: &Source) -> Result<Operand, Stop>
    requires { Answers (means _env.now bound.now) operand }
    ensures { Answers (judged _env.now bound.now) result }
{
    let operand = operand?;
    as_size(bound.line, operand)
}

/// `sizeof of`
#[tactic(auto, using(crate::proofs::Equations::size_of_is))]
pub fn size_of_node(
    alloc: Global,
    env: &Env,
    line: u32,
    of: Result<Operand, Stop>,
    _of: &Source,
) -> Result<Operand, Stop>
    requires { Answers (means env.now _of.now) of }
    ensures { Answers (kind_means env.now (SourceKind.SizeofExpr _of.now) line) result }
{
    let of = of?;
    Ok(Operand::Value(size_of_operand(alloc, env, line, of)?))
}

/// `sizeof ( of )`, of a type
#[tactic(auto, using(crate::proofs::Equations::size_of_type_is))]
pub fn size_of_type_node(
    alloc: Global,
    env: &Env,
    line: u32,
    sizes: Result<Items<Operand>, Stop>,
    of: &Typename,
) -> Result<Operand, Stop>
    requires { Answers (judged_all env.now (sizes_of of.now)) sizes }
    ensures { Answers (kind_means env.now (SourceKind.SizeofType of.now) line) result }
{
    let sizes = sizes?;
    Ok(Operand::Value(size_of_named(alloc, env, line, of, sizes)?))
}

/// `( to ) of`
#[tactic(auto, using(crate::proofs::Equations::cast_is))]
pub fn cast_node(
    alloc: Global,
    env: &Env,
    line: u32,
    sizes: Result<Items<Operand>, Stop>,
    of: Result<Operand, Stop>,
    to: &Typename,
    _of: &Source,
) -> Result<Operand, Stop>
    requires of_sizes { Answers (judged_all env.now (sizes_of to.now)) sizes }
    requires of_operand { Answers (means env.now _of.now) of }
    ensures { Answers (kind_means env.now (SourceKind.Cast to.now _of.now) line) result }
{
    let mut operands = sizes?;
    let of = of?;
    operands.push(of)?;
    Ok(Operand::Value(cast(alloc, env, line, to, operands)?))
}
