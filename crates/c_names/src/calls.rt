//! Calls (C99 6.5.2.2).

ghost use Rattle.std.specs.Prelude.{◌≡◌};
ghost use Rattle.std.specs.Option.{option_copied};
ghost use Rattle.c_typing.specs.Outcome.{Answers, told};
ghost use Rattle.c_typing.specs.Calls as spec;

use crate::arguments::passed;
use crate::builtins::builtin_call;
use crate::lines::CallLines;
use c_conversions::typed;
use c_typing::{Env, Operand, Rule, Signature, Stop};
use core_tree::{Expr, ExprKind, copy_type};
use sqlite_items::{Items, at};
use std::alloc::Global;

/// A call of a function of the source with the arguments that it accepts.
fn call_of(
    alloc: Global,
    lines: CallLines,
    signature: &Signature,
    arguments: Option<Items<Expr>>,
) -> Result<Operand, Stop>
    ensures { Answers (told lines.own lines.channel (spec.call_of lines.own signature.now arguments)) result }
{
    let Some(args) = arguments else {
        return Err(lines.broken(Rule::WrongType));
    };
    if args.len() != signature.params.len() {
        return Err(lines.broken(Rule::WrongArgs));
    }
    let ty = copy_type(alloc, &signature.result)?;
    let function = signature.number;
    let kind = ExprKind::Call { function, args };
    Ok(Operand::Value(typed(alloc, lines.own, ty, kind)?))
}

/// A call of a function of the source.
fn function_call(
    alloc: Global,
    lines: CallLines,
    signature: Option<&Signature>,
    operands: Items<Operand>,
) -> Result<Operand, Stop>
    ensures { Answers
        (told lines.own lines.channel (spec.function_call lines.own (option_copied signature.entry) operands)) result }
{
    let Some(signature) = signature else {
        return Err(lines.broken(Rule::WrongType));
    };
    let arguments = passed(alloc, signature.params.as_slice(), operands)?;
    call_of(alloc, lines, signature, arguments)
}

/// `callee ( arguments )`. A channel that is not constant is a fault at its own line, every other fault one at the call's.
pub fn called(
    alloc: Global,
    env: &Env,
    line: u32,
    channel_line: u32,
    callee: Operand,
    arguments: Items<Operand>,
) -> Result<Operand, Stop>
    ensures { Answers (told line channel_line (spec.called env.now line callee arguments)) result }
{
    let lines = CallLines {
        own: line,
        channel: channel_line,
    };
    match callee {
        Operand::Function { place } => {
            let signature = at(env.functions.as_slice(), usize::from(place));
            function_call(alloc, lines, signature, arguments)
        }
        Operand::Builtin(builtin) => builtin_call(alloc, lines, builtin, arguments),
        _ => Err(lines.broken(Rule::WrongType)),
    }
}
