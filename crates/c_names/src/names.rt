//! What names and constants stand for (C99 6.5.1).

ghost use Rattle.std.specs.Prelude.{◌≡◌, IfOk};
ghost use Rattle.std.specs.Option.{option_copied};
ghost use Rattle.c_typing.specs.Outcome.{Answers, at};
ghost use Rattle.c_typing.specs.Calls as spec;
ghost use Rattle.c_typing.specs.Values as values;
ghost use Rattle.c_typing.specs.declared.operand.Operand.TheVariants as operand;

use base16::{IntType, Name, NoMemory};
use c_conversions::{broken, placed, typed};
use c_typing::{Builtin, Operand, Rule, Stop, What};
use core_tree::{ExprKind, PlaceKind, Ty, copy_type};
use std::alloc::Global;

/// The function of every source that a name names, if it names one.
fn builtin_named(name: &Name) -> Option<Builtin>
    ensures { result ≡ spec.builtin_named name.now }
{
    if name.bytes() == b"sense".as_slice() {
        Some(Builtin::Sense)
    } else if name.bytes() == b"emit".as_slice() {
        Some(Builtin::Emit)
    } else if name.bytes() == b"checkpoint".as_slice() {
        Some(Builtin::Checkpoint)
    } else {
        None
    }
}

/// A variable as a place.
fn variable(
    alloc: Global,
    line: u32,
    ty: &Ty,
    kind: PlaceKind,
    readonly: bool,
) -> Result<Operand, NoMemory>
    ensures { IfOk result (λ made. made ≡ operand.Place (values.placed line ty.now kind) readonly) }
{
    let ty = copy_type(alloc, ty)?;
    let place = placed(alloc, line, ty, kind)?;
    Ok(Operand::Place { place, readonly })
}

/// What a name stands for, given what it is declared as. A declaration hides a function that every source has.
#[tactic(auto, unfolding(c_typing::specs::Calls::named))]
pub fn named(alloc: Global, line: u32, name: &Name, what: Option<&What>) -> Result<Operand, Stop>
    ensures { Answers (at line (spec.named line name.now (option_copied what.entry))) result }
{
    match what {
        Some(
            What::Local {
                number,
                ty,
                readonly,
            },
        ) => Ok(variable(alloc, line, ty, PlaceKind::Local(*number), *readonly)?),
        Some(
            What::Global {
                number,
                ty,
                readonly,
            },
        ) => Ok(variable(alloc, line, ty, PlaceKind::Global(*number), *readonly)?),
        Some(What::Function { place }) => Ok(Operand::Function { place: *place }),
        None => match builtin_named(name) {
            Some(builtin) => Ok(Operand::Builtin(builtin)),
            None => Err(broken(Rule::Unknown, line)),
        },
    }
}

/// A number: an `int` where it fits and has no `u`, and else an `unsigned int`.
pub fn number(alloc: Global, line: u32, value: u32, unsigned: bool) -> Result<Operand, NoMemory>
    ensures { IfOk result (λ made. made ≡ spec.number line value unsigned) }
{
    let ty = if unsigned || 32767 < value {
        IntType::UInt
    } else {
        IntType::Int
    };
    let kind = ExprKind::Constant(i64::from(value));
    Ok(Operand::Value(typed(alloc, line, Ty::Num(ty), kind)?))
}

/// A character constant.
pub fn character(alloc: Global, line: u32, code: u8) -> Result<Operand, NoMemory>
    ensures { IfOk result (λ made. made ≡ spec.character line code) }
{
    let kind = ExprKind::Constant(i64::from(code));
    let ty = Ty::Num(IntType::Int);
    Ok(Operand::Value(typed(alloc, line, ty, kind)?))
}
