ghost use Rattle.std.specs.Prelude.{◌≡◌, ◌≤◌, ◌++◌, map, get_or, take, IfOk, IfSome, OnOk};
ghost use Rattle.core_tree.specs.Layout as spec;
ghost use Rattle.core_layout.specs.Laid.{IsLaid, array, layout_of};

use base16::{IntType, Kind, NoMemory, Sequence};
use core_tree::{Member, Slot, Struct, Ty};
use std::alloc::Global;

/// No object has more bytes.
const MOST_BYTES: u32 = 16_383;

/// How a type lies in memory: its bytes, whether it stands at even addresses, and its scalars in order.
#[derive(Drop)]
pub struct Laid {
    pub size: u16,
    pub even: bool,
    pub slots: Sequence<Slot>,
}

/// Why a type is not laid out.
#[derive(Clone, Copy)]
enum Unlaid {
    /// No object has this type, since it has more than 16,383 bytes.
    TooBig,
    NoMemory,
}

impl From<NoMemory> for Unlaid {
    fn from(_error: NoMemory) -> Unlaid {
        Unlaid::NoMemory
    }
}

/// A number of bytes, or of elements, that an object may have.
fn within(bytes: u32) -> Result<u16, Unlaid>
    ensures { IfOk result (λ word. word ≡ bytes) }
{
    if bytes <= MOST_BYTES {
        Ok(bytes as u16)
    } else {
        Err(Unlaid::TooBig)
    }
}

/// Adds scalars moved by so many bytes.
#[tactic(auto, using(crate::proofs::Laying::moved_turn))]
fn push_moved(into: &mut Sequence<Slot>, by: u16, slots: &[Slot]) -> Result<(), Unlaid>
    ensures { OnOk result (into.new ≡ into.old ++ map (spec.moved_by by) slots.now) }
{
    for slot in slots {
        let offset = within(u32::from(slot.offset) + u32::from(by))?;
        into.push(Slot {
            offset,
            kind: slot.kind,
        })?;
    }
    Ok(())
}

/// The layout of nothing.
fn nothing(alloc: Global) -> Laid
    ensures { layout_of result ≡ spec.nothing }
{
    Laid {
        size: 0,
        even: false,
        slots: Sequence::new(alloc),
    }
}

/// The layout of one scalar.
fn scalar(alloc: Global, kind: Kind, size: u16, even: bool) -> Result<Laid, Unlaid>
    ensures { IfOk result (λ made. layout_of made ≡ spec.scalar kind size even) }
{
    let mut slots = Sequence::new(alloc);
    slots.push(Slot { offset: 0, kind })?;
    Ok(Laid { size, even, slots })
}

/// The layout of an integer.
fn integer(alloc: Global, of: IntType) -> Result<Laid, Unlaid>
    ensures { IfOk result (λ made. layout_of made ≡ spec.integer of) }
{
    match of {
        IntType::Char => scalar(alloc, Kind::Char, 1, false),
        IntType::Int => scalar(alloc, Kind::Int, 2, true),
        IntType::UInt => scalar(alloc, Kind::UInt, 2, true),
    }
}

/// So many of these side by side.
#[tactic(auto, using(crate::proofs::Laying::copies_step, crate::proofs::Laying::copies_end))]
fn repeated(alloc: Global, count: u16, of: &Laid) -> Result<Laid, Unlaid>
    ensures { IfOk result (λ made. layout_of made ≡ array count (layout_of of.now)) }
{
    let size = within(u32::from(count).saturating_mul(u32::from(of.size)))?;
    let mut slots = Sequence::new(alloc);
    let mut at: u32 = 0;
    for _copy in 0..count {
        let by = within(at)?;
        push_moved(&mut slots, by, of.slots.as_slice())?;
        at = u32::from(by) + u32::from(of.size);
    }
    Ok(Laid {
        size,
        even: of.even,
        slots,
    })
}

/// The layout of a struct before, which is nothing where there is no such struct.
#[tactic(auto, using(crate::proofs::Laying::kept_at, crate::proofs::Laying::kept_past))]
fn known_struct(
    alloc: Global,
    _structs: &[Struct],
    known: &[Option<Laid>],
    tag: u16,
) -> Result<Laid, Unlaid>
    requires { IsLaid known.now _structs.now }
    ensures { IfOk result (λ made. layout_of made ≡ get_or (spec.layouts _structs.now) tag spec.nothing) }
{
    let at = usize::from(tag);
    if at < known.len() {
        copied(alloc, &known[at])
    } else {
        Ok(nothing(alloc))
    }
}

/// A copy of scalars.
fn copied_slots(alloc: Global, slots: &[Slot]) -> Result<Sequence<Slot>, NoMemory>
    ensures { IfOk result (λ made. made ≡ slots.now) }
{
    Ok(Sequence::from_vec(slots.to_vec(alloc)?))
}

/// A kept layout in memory of its own.
fn copied(alloc: Global, kept: &Option<Laid>) -> Result<Laid, Unlaid>
    ensures { IfOk result (λ made. kept.now ≡ Some made) }
{
    match kept {
        None => Err(Unlaid::TooBig),
        Some(of) => {
            let slots = copied_slots(alloc, of.slots.as_slice())?;
            Ok(Laid {
                size: of.size,
                even: of.even,
                slots,
            })
        }
    }
}

/// What stands in the arrays of a type, and how many times.
#[tactic(auto, using(crate::proofs::Laying::array_in, crate::proofs::Laying::array_one))]
fn innermost(
    alloc: Global,
    _structs: &[Struct],
    known: &[Option<Laid>],
    ty: &Ty,
) -> Result<(u16, Laid), Unlaid>
    requires { IsLaid known.now _structs.now }
    ensures { IfOk result (λ found. array found.0 (layout_of found.1) ≡ spec.layout _structs.now ty.now) }
{
    let mut count: u16 = 1;
    let mut inner = ty;
    loop {
        match inner {
            Ty::Array { of, count: more } => {
                count = within(u32::from(count).saturating_mul(u32::from(*more)))?;
                inner = of.get();
            }
            Ty::Void => return Ok((count, nothing(alloc))),
            Ty::Num(of) => return Ok((count, integer(alloc, *of)?)),
            Ty::Pointer { .. } => {
                return Ok((count, scalar(alloc, Kind::Pointer, 2, true)?));
            }
            Ty::Struct(tag) => return Ok((count, known_struct(alloc, _structs, known, *tag)?)),
        }
    }
}

/// The layout of a type, where the structs before it are laid out.
fn type_laid(
    alloc: Global,
    _structs: &[Struct],
    known: &[Option<Laid>],
    ty: &Ty,
) -> Result<Laid, Unlaid>
    requires { IsLaid known.now _structs.now }
    ensures { IfOk result (λ made. layout_of made ≡ spec.layout _structs.now ty.now) }
{
    let (count, inner) = innermost(alloc, _structs, known, ty)?;
    repeated(alloc, count, &inner)
}

/// Where a thing stands behind so many bytes.
fn aligned(even: bool, size: u16) -> Result<u16, Unlaid>
    ensures { IfOk result (λ at. at ≡ spec.aligned even size) }
{
    if even {
        within(u32::from(size) + u32::from(size % 2))
    } else {
        Ok(size)
    }
}

/// A member behind those before it.
fn with_member(before: Laid, next: &Laid) -> Result<Laid, Unlaid>
    ensures { IfOk result (λ made. layout_of made ≡ spec.with_member (layout_of before) (layout_of next.now)) }
{
    let Laid {
        size,
        even,
        mut slots,
    } = before;
    let at = aligned(next.even, size)?;
    let size = within(u32::from(at) + u32::from(next.size))?;
    push_moved(&mut slots, at, next.slots.as_slice())?;
    Ok(Laid {
        size,
        even: even || next.even,
        slots,
    })
}

/// Members side by side.
#[tactic(auto, using(crate::proofs::Laying::members_step))]
fn members_laid(
    alloc: Global,
    _structs: &[Struct],
    known: &[Option<Laid>],
    members: &[Member],
) -> Result<Laid, Unlaid>
    requires { IsLaid known.now _structs.now }
    ensures { IfOk result (λ made. layout_of made
        ≡ spec.with_members spec.nothing (spec.member_layouts (spec.layouts _structs.now) members.now)) }
{
    let mut sum = nothing(alloc);
    for member in members {
        let next = type_laid(alloc, _structs, known, &member.ty)?;
        sum = with_member(sum, &next)?;
    }
    Ok(sum)
}

/// The layout of a struct, where those before it are laid out.
fn struct_laid(
    alloc: Global,
    _before: &[Struct],
    known: &[Option<Laid>],
    of: &Struct,
) -> Result<Laid, Unlaid>
    requires { IsLaid known.now _before.now }
    ensures { IfOk result (λ made. layout_of made ≡ spec.struct_layout (spec.layouts _before.now) of.now) }
{
    let Laid { size, even, slots } = members_laid(alloc, _before, known, of.members.as_slice())?;
    Ok(Laid {
        size: aligned(even, size)?,
        even,
        slots,
    })
}

/// A layout, or none where it is too big.
fn if_small(laid: Result<Laid, Unlaid>) -> Result<Option<Laid>, NoMemory>
    ensures { IfOk result (λ kept. IfSome kept (λ made. laid ≡ Ok made)) }
{
    match laid {
        Ok(laid) => Ok(Some(laid)),
        Err(Unlaid::TooBig) => Ok(None),
        Err(Unlaid::NoMemory) => Err(NoMemory),
    }
}

/// The layouts of all structs, none for one that has more than 16,383 bytes: no object has its type.
#[tactic(auto, using(crate::proofs::Laying::structs_step))]
pub fn structs_laid(alloc: Global, structs: &[Struct]) -> Result<Sequence<Option<Laid>>, NoMemory>
    ensures { IfOk result (λ known. IsLaid known structs.now) }
{
    let mut known = Sequence::new(alloc);
    for at in 0..structs.len() {
        let next = struct_laid(alloc, &structs[..at], known.as_slice(), &structs[at]);
        known.push(if_small(next)?)?;
    }
    Ok(known)
}

/// The layout of a type of at most 16,383 bytes, where the structs are laid out; for a bigger one the answer is
/// `NoMemory`.
pub fn small_type_laid(
    alloc: Global,
    _structs: &[Struct],
    known: &[Option<Laid>],
    ty: &Ty,
) -> Result<Laid, NoMemory>
    requires { IsLaid known.now _structs.now }
    ensures { IfOk result (λ made. layout_of made ≡ spec.layout _structs.now ty.now) }
{
    match type_laid(alloc, _structs, known, ty) {
        Ok(made) => Ok(made),
        Err(_) => Err(NoMemory),
    }
}

/// The scalars of a type of at most 16,383 bytes, where the structs are laid out; for a bigger one the answer is
/// `NoMemory`.
pub fn slots_of(
    alloc: Global,
    _structs: &[Struct],
    known: &[Option<Laid>],
    ty: &Ty,
) -> Result<Sequence<Slot>, NoMemory>
    requires { IsLaid known.now _structs.now }
    ensures { IfOk result (λ slots. slots ≡ (spec.layout _structs.now ty.now).slots) }
{
    let Laid { slots, .. } = small_type_laid(alloc, _structs, known, ty)?;
    Ok(slots)
}
