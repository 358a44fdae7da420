ghost use Rattle.std.specs.Prelude.{◌≡◌, ◌<◌, ◌≤◌, ◌++◌, map, length, min, get_or};
ghost use Rattle.core_tree.specs.Extents.{told, table};
ghost use Rattle.core_tree.specs.Heights.{capped, object_layouts};
ghost use Rattle.core_tree.specs.Layout as spec;

use crate::extent::{Extent, NOTHING};
use crate::program::Function;
use crate::types::{Member, Struct, Ty};
use base16::IntType;

/// As many structs as a type can name.
const MOST_STRUCTS: usize = 65_536;

/// What is told for every size and offset above 65,535.
const MOST_BYTES: u32 = 65_536;

/// The extent of a scalar that stands at even addresses.
const WORD: Extent = Extent {
    size: 2,
    even: true,
};

/// The extent of an integer.
fn integer_extent(of: IntType) -> Extent
    ensures { result ≡ told (spec.integer of) }
{
    match of {
        IntType::Char => Extent {
            size: 1,
            even: false,
        },
        IntType::Int | IntType::UInt => WORD,
    }
}

/// The extent of a struct in the table.
#[tactic(auto, using(crate::proofs::Extents::known_at, crate::proofs::Extents::known_past))]
fn known_extent(_structs: &[Struct], known: &[Extent], tag: u16) -> Extent
    requires { known.now ≡ table _structs.now }
    ensures { result ≡ told (get_or (spec.layouts _structs.now) tag spec.nothing) }
{
    let at = usize::from(tag);
    if at < known.len() { known[at] } else { NOTHING }
}

/// The extent of a type, from a table of the structs before it.
#[tactic(auto, using(crate::proofs::Extents::times_told))]
fn extent_in(structs: &[Struct], known: &[Extent], ty: &Ty) -> Extent
    requires { known.now ≡ table structs.now }
    ensures { result ≡ told (spec.layout structs.now ty.now) }
{
    let mut inner = ty;
    let mut count: u32 = 1;
    loop {
        match inner {
            Ty::Array { of, count: more } => {
                count = count.saturating_mul(u32::from(*more));
                inner = of.get();
            }
            Ty::Void => return NOTHING,
            Ty::Num(of) => return integer_extent(*of).times(count),
            Ty::Pointer { .. } => return WORD.times(count),
            Ty::Struct(tag) => return known_extent(structs, known, *tag).times(count),
        }
    }
}

/// The extent of members side by side, from a table of the structs before theirs.
fn members_extent(before: &[Struct], known: &[Extent], members: &[Member]) -> Extent
    requires { known.now ≡ table before.now }
    ensures { result ≡ told (spec.with_members spec.nothing (spec.member_layouts (spec.layouts before.now) members.now)) }
{
    let mut sum = NOTHING;
    for member in members {
        sum = sum.with(extent_in(before, known, &member.ty));
    }
    sum
}

/// The extent of a struct, from a table of the structs before it.
#[tactic(auto, using(crate::proofs::Extents::told_closed))]
fn struct_extent(before: &[Struct], known: &[Extent], of: &Struct) -> Extent
    requires { known.now ≡ table before.now }
    ensures { result ≡ told (spec.struct_layout (spec.layouts before.now) of.now) }
{
    members_extent(before, known, of.members.as_slice()).closed()
}

/// The extent of objects side by side behind others, from a table of all structs.
fn row_extent(
    structs: &[Struct],
    known: &[Extent],
    _before: &[Ty],
    sum: Extent,
    types: &[Ty],
) -> Extent
    requires table { known.now ≡ table structs.now }
    requires sum { sum ≡ told (spec.with_members spec.nothing (map (spec.layout structs.now) _before.now)) }
    ensures { result ≡ told (spec.with_members spec.nothing (map (spec.layout structs.now) (_before.now ++ types.now))) }
{
    let mut sum = sum;
    for ty in types {
        sum = sum.with(extent_in(structs, known, ty));
    }
    sum
}

/// The extent of the objects of a function, with room for so many structs.
fn objects_by<const N: usize>(structs: &[Struct], function: &Function) -> Extent
    requires room { min (length structs.now) 65536 ≤ N }
    requires small { N ≤ 65536 }
    ensures { result ≡ told (spec.with_members spec.nothing (object_layouts structs.now function.now)) }
{
    let mut known = [NOTHING; N];
    let count = structs.len().min(MOST_STRUCTS);
    fill(structs, &mut known[..count]);
    let params = function.params.as_slice();
    let sum = row_extent(structs, &known[..count], &[], NOTHING, params);
    row_extent(
        structs,
        &known[..count],
        params,
        sum,
        function.locals.as_slice(),
    )
}

/// The extent of the objects of a function: its parameters and then its locals.
pub fn objects_extent(structs: &[Struct], function: &Function) -> Extent
    ensures { result ≡ told (spec.with_members spec.nothing (object_layouts structs.now function.now)) }
{
    if structs.len() <= 32 {
        objects_by::<32>(structs, function)
    } else if structs.len() <= 1024 {
        objects_by::<1024>(structs, function)
    } else {
        objects_by::<65_536>(structs, function)
    }
}

/// Makes the table of structs.
#[tactic(auto, using(crate::proofs::Extents::table_front))]
fn fill(structs: &[Struct], known: &mut [Extent])
    requires { length known.old ≡ min (length structs.now) 65536 }
    ensures { known.new ≡ table structs.now }
{
    for at in 0..known.len() {
        known[at] = struct_extent(&structs[..at], &known[..at], &structs[at]);
    }
}

/// The extent of a type, with room for so many structs.
fn extent_by<const N: usize>(structs: &[Struct], ty: &Ty) -> Extent
    requires room { min (length structs.now) 65536 ≤ N }
    requires small { N ≤ 65536 }
    ensures { result ≡ told (spec.layout structs.now ty.now) }
{
    let mut known = [NOTHING; N];
    let count = structs.len().min(MOST_STRUCTS);
    fill(structs, &mut known[..count]);
    extent_in(structs, &known[..count], ty)
}

/// The extent of a type.
pub fn extent_of(structs: &[Struct], ty: &Ty) -> Extent
    ensures { result ≡ told (spec.layout structs.now ty.now) }
{
    if structs.len() <= 32 {
        extent_by::<32>(structs, ty)
    } else if structs.len() <= 1024 {
        extent_by::<1024>(structs, ty)
    } else {
        extent_by::<65_536>(structs, ty)
    }
}

/// The bytes of a type, 65,536 standing for every greater number.
#[tactic(auto, unfolding(crate::specs::Layout::stride))]
pub fn size_of(structs: &[Struct], ty: &Ty) -> u32
    ensures { result ≡ spec.stride structs.now ty.now }
{
    extent_of(structs, ty).size.min(MOST_BYTES)
}

/// The byte offset of a member in a struct of the table.
#[tactic(auto, using(crate::proofs::Extents::offset_past))]
fn offset_in(before: &[Struct], known: &[Extent], members: &[Member], member: usize) -> u32
    requires { known.now ≡ table before.now }
    ensures { result ≡ capped (spec.member_offset (spec.layouts before.now) members.now member) }
{
    if member < members.len() {
        let here = extent_in(before, known, &members[member].ty);
        members_extent(before, known, &members[..member]).aligned(here.even)
    } else {
        members_extent(before, known, members).size
    }
}

/// The byte offset of a member, with room for so many structs.
fn offset_by<const N: usize>(before: &[Struct], members: &[Member], member: usize) -> u32
    requires room { length before.now ≤ N }
    requires small { N ≤ 65536 }
    ensures { result ≡ capped (spec.member_offset (spec.layouts before.now) members.now member) }
{
    let mut known = [NOTHING; N];
    let count = before.len();
    fill(before, &mut known[..count]);
    offset_in(before, &known[..count], members, member)
}

/// The byte offset of a member of a struct by its number, 65,536 standing for every greater number.
#[tactic(auto, unfolding(crate::specs::Layout::member_stride))]
pub fn offset_of(structs: &[Struct], tag: u16, member: u32) -> u32
    requires tag { tag < length structs.now }
    ensures { result ≡ spec.member_stride structs.now tag member }
{
    let tag = usize::from(tag);
    let before = &structs[..tag];
    let members = structs[tag].members.as_slice();
    let offset = if tag <= 32 {
        offset_by::<32>(before, members, member as usize)
    } else if tag <= 1024 {
        offset_by::<1024>(before, members, member as usize)
    } else {
        offset_by::<65_536>(before, members, member as usize)
    };
    offset.min(MOST_BYTES)
}
