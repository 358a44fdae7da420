ghost use Rattle.std.specs.Prelude.{◌≡◌, ◌+◌, ◌*◌, ◌%◌, ◌++◌, length, map, IfOk, OnOk};
ghost use Rattle.core_tree.specs.Data as spec;
ghost use Rattle.core_tree.specs.Layout as layout;
ghost use Rattle.core_layout.specs.Laid.{IsLaid, IsNamed, layout_of};
ghost use Rattle.core_layout.specs.Scalars.{scalar_of};

use crate::layouts::{Laid, small_type_laid, structs_laid};
use crate::names::{structs_named, type_names};
use crate::texts::joined;
use base16::board::DATA;
use base16::{Name, NoMemory, Scalar, Sequence};
use core_tree::{Core, Global as Variable, Slot};
use std::alloc::Global;

// Addresses are 16-bit words, so that all sums here are modulo 2^16.

/// The layouts of the variables.
fn globals_laid(
    alloc: Global,
    core: &Core,
    known: &[Option<Laid>],
) -> Result<Sequence<Laid>, NoMemory>
    requires { IsLaid known.now core.now.structs }
    ensures { IfOk result (λ all. map layout_of all ≡ spec.global_layouts core.now core.now.globals) }
{
    let structs = core.structs.as_slice();
    let mut all = Sequence::new(alloc);
    for variable in core.globals.as_slice() {
        all.push(small_type_laid(alloc, structs, known, &variable.ty)?)?;
    }
    Ok(all)
}

/// Where a thing stands behind so many bytes.
fn start_behind(bytes: u16, even: bool) -> u16
    ensures { result ≡ layout.aligned even bytes % 65536 }
{
    if even {
        bytes.wrapping_add(bytes % 2)
    } else {
        bytes
    }
}

/// The bytes of things side by side.
fn bytes_of(all: &[Laid]) -> u16
    ensures { result ≡ (layout.with_members layout.nothing (map layout_of all.now)).size % 65536 }
{
    let mut bytes: u16 = 0;
    for next in all {
        bytes = start_behind(bytes, next.even).wrapping_add(next.size);
    }
    bytes
}

/// A scalar of a variable.
fn scalar(
    alloc: Global,
    variable: &Variable,
    at: u16,
    stamp: u16,
    slot: Slot,
    name: &[u8],
) -> Result<Scalar, NoMemory>
    ensures { IfOk result (λ made. made ≡ scalar_of variable.now at stamp slot name.now) }
{
    let text = joined(alloc, variable.name.bytes(), name)?;
    let stamp = match variable.lifetime {
        None => None,
        Some(_) => Some(stamp),
    };
    Ok(Scalar {
        name: Name::new(alloc, text.as_slice())?,
        address: at.wrapping_add(slot.offset),
        kind: slot.kind,
        stamp,
    })
}

/// Adds the scalars of a variable that begins at an address, the first with its stamp at another one.
fn push_scalars(
    alloc: Global,
    into: &mut Sequence<Scalar>,
    variable: &Variable,
    at: u16,
    stamp: u16,
    slots: &[Slot],
    names: &[Sequence<u8>],
) -> Result<(), NoMemory>
    ensures { OnOk result (into.new ≡ into.old ++ spec.scalars_at variable.now at stamp slots.now names.now) }
{
    let mut here = stamp;
    let count = slots.len().min(names.len());
    for index in 0..count {
        let name = names[index].as_slice();
        into.push(scalar(alloc, variable, at, here, slots[index], name)?)?;
        here = here.wrapping_add(4);
    }
    Ok(())
}

/// The address behind the stamps of a variable with these scalars, the first of which is at an address.
fn behind_stamps(stamp: u16, variable: &Variable, slots: &[Slot]) -> u16
    ensures { result ≡ (stamp + 4 * spec.timed_slots variable.now.lifetime slots.now) % 65536 }
{
    match variable.lifetime {
        None => stamp,
        Some(_) => stamp.wrapping_add(((slots.len() % 65_536) as u16).wrapping_mul(4)),
    }
}

/// The address of the first stamp: behind the last variable, from an even address on.
#[tactic(auto, unfolding(core_tree::specs::Data::stamp_address))]
fn first_stamp(_core: &Core, laid: &[Laid]) -> u16
    requires { map layout_of laid.now ≡ spec.global_layouts _core.now _core.now.globals }
    ensures { result ≡ spec.stamps_start _core.now % 65536 }
{
    DATA.wrapping_add(start_behind(bytes_of(laid), true))
}

/// The scalars of the variables.
fn all_scalars(
    alloc: Global,
    core: &Core,
    named: &[Option<Sequence<Sequence<u8>>>],
    laid: &[Laid],
) -> Result<Sequence<Scalar>, NoMemory>
    requires names { IsNamed named.now core.now.structs }
    requires layouts { map layout_of laid.now ≡ spec.global_layouts core.now core.now.globals }
    ensures { IfOk result (λ all. all ≡ spec.scalars core.now) }
{
    let globals = core.globals.as_slice();
    let mut all = Sequence::new(alloc);
    let mut bytes: u16 = 0;
    let mut stamp = first_stamp(core, laid);
    for at in 0..globals.len() {
        let variable = &globals[at];
        let of = &laid[at];
        let start = start_behind(bytes, of.even);
        let address = DATA.wrapping_add(start);
        let names = type_names(alloc, core.structs.as_slice(), named, &variable.ty)?;
        push_scalars(
            alloc,
            &mut all,
            variable,
            address,
            stamp,
            of.slots.as_slice(),
            names.as_slice(),
        )?;
        bytes = start.wrapping_add(of.size);
        stamp = behind_stamps(stamp, variable, of.slots.as_slice());
    }
    Ok(all)
}

/// The scalars of the variables of a program, with their names, addresses and stamps; the addresses are modulo 2^16.
/// A variable of more than 16,383 bytes is answered by `NoMemory`.
pub fn scalars(alloc: Global, core: &Core) -> Result<Sequence<Scalar>, NoMemory>
    ensures { IfOk result (λ all. all ≡ spec.scalars core.now) }
{
    let structs = core.structs.as_slice();
    let known = structs_laid(alloc, structs)?;
    let named = structs_named(alloc, structs, known.as_slice())?;
    let laid = globals_laid(alloc, core, known.as_slice())?;
    all_scalars(alloc, core, named.as_slice(), laid.as_slice())
}
