//! Calls of `sense`, `emit` and `checkpoint`.

ghost use Rattle.std.specs.Prelude.{◌≡◌, [], ◌∷◌};
ghost use Rattle.c_typing.specs.Outcome.{Answers, told};
ghost use Rattle.c_typing.specs.Calls as spec;

use crate::arguments::passed;
use crate::lines::CallLines;
use base16::IntType;
use c_conversions::typed;
use c_rules::value as constant_value;
use c_typing::{Builtin, Operand, Rule, Stop};
use core_tree::{Expr, ExprKind, Ty};
use sqlite_items::{Boxed, Items};
use std::alloc::Global;

/// `sense` of a channel by its value, if it is constant: a number from 0 to 15.
fn channel(alloc: Global, lines: CallLines, value: Option<i64>) -> Result<Operand, Stop>
    ensures { Answers (told lines.own lines.channel (spec.channel lines.own value)) result }
{
    let Some(number) = value else {
        return Err(lines.broken(Rule::NotConstant));
    };
    if number < 0 || 15 < number {
        return Err(lines.broken(Rule::WrongArgs));
    }
    let ty = Ty::Num(IntType::UInt);
    let kind = ExprKind::Sense(number as u8);
    Ok(Operand::Value(typed(alloc, lines.own, ty, kind)?))
}

/// `sense ( arguments )`
fn sensed(alloc: Global, lines: CallLines, arguments: Option<Items<Expr>>) -> Result<Operand, Stop>
    ensures { Answers (told lines.own lines.channel (spec.sensed lines.own arguments)) result }
{
    let Some(arguments) = arguments else {
        return Err(lines.broken(Rule::WrongType));
    };
    match arguments.as_slice() {
        [number] => channel(alloc, lines, constant_value(number)),
        _ => Err(lines.broken(Rule::WrongArgs)),
    }
}

/// `emit ( value )`
fn emitted_value(alloc: Global, lines: CallLines, value: Boxed<Expr>) -> Result<Operand, Stop>
    ensures { Answers (told lines.own lines.channel (spec.emitted lines.own (Some (value ∷ [])))) result }
{
    let kind = ExprKind::Emit(value);
    Ok(Operand::Value(typed(alloc, lines.own, Ty::Void, kind)?))
}

/// `emit ( arguments )`
fn emitted(alloc: Global, lines: CallLines, arguments: Option<Items<Expr>>) -> Result<Operand, Stop>
    ensures { Answers (told lines.own lines.channel (spec.emitted lines.own arguments)) result }
{
    let Some(mut arguments) = arguments else {
        return Err(lines.broken(Rule::WrongType));
    };
    match arguments.as_slice() {
        [_] => {
            let value = Boxed::new(alloc, arguments.remove(0))?;
            emitted_value(alloc, lines, value)
        }
        _ => Err(lines.broken(Rule::WrongArgs)),
    }
}

/// `checkpoint ( arguments )`
fn checkpointed(
    alloc: Global,
    lines: CallLines,
    arguments: Option<Items<Expr>>,
) -> Result<Operand, Stop>
    ensures { Answers (told lines.own lines.channel (spec.checkpointed lines.own arguments)) result }
{
    let Some(arguments) = arguments else {
        return Err(lines.broken(Rule::WrongType));
    };
    match arguments.as_slice() {
        [] => Ok(Operand::Value(typed(alloc, lines.own, Ty::Void, ExprKind::Checkpoint)?)),
        _ => Err(lines.broken(Rule::WrongArgs)),
    }
}

/// A call of a function that every source has. The channel of `sense` is any scalar at first; the value of `emit` becomes
/// an `unsigned int`.
pub fn builtin_call(
    alloc: Global,
    lines: CallLines,
    builtin: Builtin,
    operands: Items<Operand>,
) -> Result<Operand, Stop>
    ensures { Answers (told lines.own lines.channel (spec.builtin_call lines.own builtin operands)) result }
{
    match builtin {
        Builtin::Sense => {
            let arguments = passed(alloc, &[], operands)?;
            sensed(alloc, lines, arguments)
        }
        Builtin::Emit => {
            let params = [Ty::Num(IntType::UInt)];
            let arguments = passed(alloc, &params, operands)?;
            emitted(alloc, lines, arguments)
        }
        Builtin::Checkpoint => {
            let arguments = passed(alloc, &[], operands)?;
            checkpointed(alloc, lines, arguments)
        }
    }
}
