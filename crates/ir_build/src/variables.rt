//! The variables of a form.

ghost use Rattle.std.specs.Prelude.{◌≡◌, ◌+◌, IfOk};
ghost use Rattle.base16.specs.Board.{data_start};
ghost use Rattle.core_tree.specs.Data as data_spec;
ghost use Rattle.core_layout.specs.Laid.{IsLaid, layout_of};
ghost use Rattle.core_tree.specs.Layout.{layout};
ghost use Rattle.c_meaning.specs.After as whole;
ghost use Rattle.ir_gen.specs.Form as spec;
ghost use Rattle.ir_build.specs.Laying.{variable_at};

use crate::emit::further;
use crate::laying::start_behind;
use base16::board::DATA;
use base16::{Kind, NoMemory, Sequence};
use c_values::{Value, fit};
use core_layout::{Laid, small_type_laid};
use core_tree::{Core, Global as Variable, Initial, Slot, Struct};
use ir::IrGlobal;
use std::alloc::Global;

/// What a scalar is at the start.
fn initial_value(kind: Kind, initial: Initial) -> Value
    ensures { result ≡ whole.initial_value kind initial }
{
    match initial {
        Initial::Address { global, offset } => Value::Pointer {
            object: u64::from(global),
            offset,
        },
        Initial::Int(value) => match kind {
            Kind::Pointer => Value::Null,
            Kind::Char => fit(Kind::Char, Value::Int(value)),
            Kind::Int => fit(Kind::Int, Value::Int(value)),
            Kind::UInt => fit(Kind::UInt, Value::Int(value)),
        },
    }
}

/// What scalars are at the start.
#[tactic(auto, using(crate::proofs::Placing::values_turn, crate::proofs::Placing::values_end))]
fn initial_values(
    alloc: Global,
    slots: &[Slot],
    inits: &[Initial],
) -> Result<Sequence<Value>, NoMemory>
    ensures { IfOk result (λ values. values ≡ spec.initial_values slots.now inits.now) }
{
    let mut values = Sequence::new(alloc);
    let count = slots.len().min(inits.len());
    for at in 0..count {
        values.push(initial_value(slots[at].kind, inits[at]))?;
    }
    Ok(values)
}

/// The address of a variable that stands so many bytes behind the beginning of all, modulo 65,536.
fn address_of(start: u32) -> u16
    ensures { result ≡ data_spec.told_address (data_start + start) }
{
    DATA.wrapping_add((start % 65_536) as u16)
}

/// A variable that stands so many bytes behind the beginning of all, with its layout.
fn variable(
    alloc: Global,
    _structs: &[Struct],
    start: u32,
    laid: Laid,
    of: &Variable,
) -> Result<IrGlobal, NoMemory>
    requires { layout_of laid ≡ layout _structs.now of.now.ty }
    ensures { IfOk result (λ made. made ≡ variable_at _structs.now start of.now) }
{
    let Laid { slots, .. } = laid;
    let init = initial_values(alloc, slots.as_slice(), of.init.as_slice())?;
    Ok(IrGlobal {
        address: address_of(start),
        scalars: slots,
        init,
        lifetime: of.lifetime,
    })
}

/// The variables of the form.
#[tactic(auto, using(crate::proofs::Placing::variables_turn, crate::proofs::Placing::globals_are))]
pub fn globals_of(
    alloc: Global,
    core: &Core,
    known: &[Option<Laid>],
) -> Result<Sequence<IrGlobal>, NoMemory>
    requires { IsLaid known.now core.now.structs }
    ensures { IfOk result (λ all. all ≡ spec.globals_from core.now 0 core.now.globals) }
{
    let structs = core.structs.as_slice();
    let mut all = Sequence::new(alloc);
    let mut bytes: u32 = 0;
    for global in core.globals.as_slice() {
        let laid = small_type_laid(alloc, structs, known, &global.ty)?;
        let start = start_behind(bytes, laid.even)?;
        bytes = further(start, u32::from(laid.size))?;
        all.push(variable(alloc, structs, start, laid, global)?)?;
    }
    Ok(all)
}
