//! The scalars of an object by their numbers: the type of each, and the objects that begin at it. An object has at most
//! 16,383 scalars; what has more is answered by `NoMemory`, or by none.

ghost use Rattle.std.specs.Prelude.{◌≡◌, ◌*◌, ◌-◌, ◌<◌, ◌≤◌, [], length, get_or, IfOk, IfSome, OnOk};
ghost use Rattle.c_checking.specs.Initialisers.{leaves, leaves_in};
ghost use Rattle.c_initialisers.specs.Scalars as spec;

use base16::{NoMemory, Sequence};
use core_tree::{Member, Struct, Ty};
use std::alloc::Global;

/// No object has more scalars.
const MOST: u32 = 16_383;

/// What is asked of the objects that begin at a scalar, from the outside to the inside: one that is found, by the number of
/// its scalars, or the one that stands within so many others.
#[derive(Clone, Copy)]
pub(crate) enum Asked {
    Found(u32),
    Within(u32),
}

/// A scalar among some: how many they are, its number, and what is asked of it.
#[derive(Clone, Copy)]
pub(crate) struct Spot {
    pub total: u32,
    pub at: u32,
    pub asked: Asked,
}

/// A number of scalars that an object may have.
fn few(count: u32) -> Option<u32>
    ensures { IfSome result (λ n. (n ≡ count) × (n < 16384)) }
{
    if count <= MOST { Some(count) } else { None }
}

/// The last of where scalars begin: how many all are.
fn last_of(starts: &[u32]) -> Option<u32>
    ensures { IfSome result (λ n. n ≡ get_or starts.now (length starts.now - 1) 0) }
{
    if starts.is_empty() {
        None
    } else {
        Some(starts[starts.len() - 1])
    }
}

/// How many scalars a struct has that stands before.
fn struct_total(_structs: &[Struct], known: &[Option<Sequence<u32>>], tag: u16) -> Option<u32>
    requires { spec.IsCounted known.now _structs.now }
    ensures { IfSome result (λ n. n ≡ length (leaves_in (spec.before _structs.now (length known.now)) (Ty.Struct tag))) }
{
    let at = usize::from(tag);
    if at >= known.len() {
        return None;
    }
    match &known[at] {
        None => None,
        Some(starts) => last_of(starts.as_slice()),
    }
}

/// How many scalars so many objects have together.
fn times(count: u32, each: u32) -> Option<u32>
    ensures { IfSome result (λ n. (n ≡ count * each) × (n < 16384)) }
{
    few(count.saturating_mul(each))
}

/// How many scalars a type has, where those of the structs before are counted; none where no object has so many.
pub(crate) fn count_of(_structs: &[Struct], known: &[Option<Sequence<u32>>], ty: &Ty) -> Option<u32>
    requires { spec.IsCounted known.now _structs.now }
    ensures { IfSome result (λ n. n ≡ length (leaves_in (spec.before _structs.now (length known.now)) ty.now)) }
{
    let mut count: u32 = 1;
    let mut inner = ty;
    loop {
        match inner {
            Ty::Array { of, count: more } => {
                count = times(count, u32::from(*more))?;
                inner = of.get();
            }
            Ty::Struct(tag) => return times(count, struct_total(_structs, known, *tag)?),
            Ty::Num(_) | Ty::Pointer { .. } => return Some(count),
            Ty::Void => return Some(0),
        }
    }
}

/// Where the scalars of each member of a struct begin, and how many all are; none where no object has so many.
#[tactic(auto, using(crate::proofs::Counting::starts_turn, crate::proofs::Counting::starts_end))]
fn starts_of(
    alloc: Global,
    _structs: &[Struct],
    known: &[Option<Sequence<u32>>],
    members: &[Member],
) -> Result<Option<Sequence<u32>>, NoMemory>
    requires { spec.IsCounted known.now _structs.now }
    ensures { IfOk result (λ kept. spec.Keeps kept (spec.starts _structs.now (length known.now) members.now)) }
{
    let mut made = Sequence::new(alloc);
    let mut sum: u32 = 0;
    for member in members {
        made.push(sum)?;
        let Some(count) = count_of(_structs, known, &member.ty) else {
            return Ok(None);
        };
        let Some(more) = few(sum.saturating_add(count)) else {
            return Ok(None);
        };
        sum = more;
    }
    made.push(sum)?;
    Ok(Some(made))
}

/// Where the scalars of the members of each struct begin.
#[tactic(auto, using(crate::proofs::Counting::counted_turn))]
pub(crate) fn structs_counted(
    alloc: Global,
    structs: &[Struct],
) -> Result<Sequence<Option<Sequence<u32>>>, NoMemory>
    ensures { IfOk result (λ known. spec.IsCounted known structs.now × (length known ≡ length structs.now)) }
{
    let mut known = Sequence::new(alloc);
    for of in structs {
        let kept = starts_of(alloc, structs, known.as_slice(), of.members.as_slice())?;
        known.push(kept)?;
    }
    Ok(known)
}

/// What is asked, inside an object that begins at the first of its scalars.
fn inside(total: u32, at: u32, asked: Asked) -> Asked
    ensures { result ≡ spec.inside total at asked }
{
    if at > 0 {
        return asked;
    }
    match asked {
        Asked::Found(_) => asked,
        Asked::Within(0) => Asked::Found(total),
        Asked::Within(outer) => Asked::Within(outer - 1),
    }
}

/// The same scalar in an element of an array of so many.
fn in_element(count: u16, spot: Spot) -> Result<Spot, NoMemory>
    ensures some { OnOk result (0 < count) }
    ensures spot { IfOk result (λ found. found ≡ spec.in_element count spot) }
{
    if count == 0 {
        return Err(NoMemory);
    }
    let total = spot.total / u32::from(count);
    if total == 0 {
        return Err(NoMemory);
    }
    Ok(Spot {
        total,
        at: spot.at % total,
        asked: inside(spot.total, spot.at, spot.asked),
    })
}

/// The same scalar in what stands in the arrays of a type.
#[tactic(auto, using(crate::proofs::Counting::leads_here))]
fn in_arrays<'a>(
    _structs: &[Struct],
    _bound: usize,
    ty: &'a Ty,
    spot: Spot,
) -> Result<(&'a Ty, Spot), NoMemory>
    requires { let known = spec.before _structs.now _bound in spec.IsIn (leaves_in known ty.now) spot }
    ensures { let known = spec.before _structs.now _bound in
        IfOk result (λ found. spec.Leads (leaves_in known ty.now) spot (leaves_in known found.0.now) found.1) }
{
    let mut inner = ty;
    let mut at = spot;
    loop {
        match inner {
            Ty::Array { of, count } => {
                at = in_element(*count, at)?;
                inner = of.get();
            }
            _ => return Ok((inner, at)),
        }
    }
}

/// The member of a struct that a scalar is in, given where those of each begin.
fn member_at(starts: &[u32], at: u32) -> Option<usize>
    ensures { IfSome result (λ member. spec.IsMember starts.now at member) }
{
    let count = starts.len();
    if count < 2 || at < starts[0] || starts[count - 1] <= at {
        return None;
    }
    let mut low = 0;
    let mut high = count - 1;
    while low + 1 < high {
        let middle = low + (high - low) / 2;
        if starts[middle] <= at {
            low = middle;
        } else {
            high = middle;
        }
    }
    Some(low)
}

/// The same scalar in a member whose scalars begin and end here.
fn within(start: u32, end: u32, spot: Spot) -> Spot
    requires first { start ≤ spot.at }
    requires next { spot.at < end }
    ensures { result ≡ spec.in_member start end spot }
{
    Spot {
        total: end - start,
        at: spot.at - start,
        asked: inside(spot.total, spot.at, spot.asked),
    }
}

/// The same scalar in a member of a struct.
fn in_member<'a>(
    structs: &'a [Struct],
    known: &[Option<Sequence<u32>>],
    _bound: usize,
    tag: usize,
    spot: Spot,
) -> Result<(&'a Ty, Spot), NoMemory>
    requires counted { spec.IsCounted known.now structs.now }
    requires low { tag < _bound }
    requires in_it { spec.IsIn (leaves_in (spec.before structs.now _bound) (Ty.Struct tag)) spot }
    ensures { IfOk result (λ found. spec.Leads (leaves_in (spec.before structs.now _bound) (Ty.Struct tag)) spot
        (leaves_in (spec.before structs.now tag) found.0.now) found.1) }
{
    if tag >= known.len() || tag >= structs.len() {
        return Err(NoMemory);
    }
    let Some(starts) = &known[tag] else {
        return Err(NoMemory);
    };
    let starts = starts.as_slice();
    let members = structs[tag].members.as_slice();
    let Some(at) = member_at(starts, spot.at) else {
        return Err(NoMemory);
    };
    if at >= members.len() {
        return Err(NoMemory);
    }
    Ok((&members[at].ty, within(starts[at], starts[at + 1], spot)))
}

/// The type of a scalar and the answer to what is asked, where the scalar is one alone.
fn alone(spot: Spot) -> Option<u32>
    ensures { result ≡ spec.searched (spec.inside spot.total spot.at spot.asked) [] }
{
    match inside(spot.total, spot.at, spot.asked) {
        Asked::Found(total) => Some(total),
        Asked::Within(_) => None,
    }
}

/// The type of a scalar of an object, and how many scalars the object has that begins at it within so many others.
#[tactic(auto, using(crate::proofs::Counting::leads_first, crate::proofs::Counting::within_all, crate::proofs::Counting::leads_on))]
pub(crate) fn scalar_of<'a>(
    structs: &'a [Struct],
    known: &[Option<Sequence<u32>>],
    ty: &'a Ty,
    at: u32,
    outer: u32,
) -> Result<(&'a Ty, Option<u32>), NoMemory>
    requires counted { spec.IsCounted known.now structs.now }
    requires whole { length known.now ≡ length structs.now }
    ensures within { OnOk result (at < length (leaves structs.now ty.now)) }
    ensures answered { IfOk result (λ found. spec.IsAnswered (leaves structs.now ty.now) at outer found.0.now found.1) }
{
    let Some(total) = count_of(structs, known, ty) else {
        return Err(NoMemory);
    };
    if at >= total {
        return Err(NoMemory);
    }
    let mut bound = structs.len();
    let mut inner = ty;
    let mut spot = Spot {
        total,
        at,
        asked: Asked::Within(outer),
    };
    loop {
        let (flat, there) = in_arrays(structs, bound, inner, spot)?;
        match flat {
            Ty::Struct(tag) => {
                let tag = usize::from(*tag);
                if tag >= bound {
                    return Err(NoMemory);
                }
                let (member, next) = in_member(structs, known, bound, tag, there)?;
                inner = member;
                spot = next;
                bound = tag;
            }
            Ty::Num(_) | Ty::Pointer { .. } => return Ok((flat, alone(there))),
            Ty::Void | Ty::Array { .. } => return Err(NoMemory),
        }
    }
}
