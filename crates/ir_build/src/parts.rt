//! Which part of a local a place is.

ghost use Rattle.std.specs.Prelude.{◌≡◌};
ghost use Rattle.core_tree.specs.Layout as layout;
ghost use Rattle.ir_gen.specs.Code as spec;
ghost use Rattle.ir_build.specs.Emitting.{is_some, part_in};

use core_tree::{Place, PlaceKind, Struct, Ty, offset_of, size_of, target_of};

/// A part of a local that is no element of an array: the number of the local, and an offset in bytes in which 65,536
/// stands for every greater one.
#[derive(Clone, Copy)]
pub struct Part {
    pub local: u32,
    pub offset: u32,
}

/// Where a member stands in its struct; 0 where there is no such struct.
#[tactic(auto, using(crate::proofs::Members::member_of_none))]
pub fn member_offset(structs: &[Struct], tag: u16, member: u32) -> u32
    ensures { result ≡ layout.member_stride structs.now tag member }
{
    if usize::from(tag) < structs.len() {
        offset_of(structs, tag, member)
    } else {
        0
    }
}

/// The bytes of what a pointer type points to.
pub fn target_size(structs: &[Struct], ty: &Ty) -> u32
    ensures { result ≡ layout.stride structs.now (layout.target_of ty.now) }
{
    size_of(structs, target_of(ty))
}

/// A part so many bytes further.
fn further(part: Option<Part>, offset: u32) -> Option<Part>
    ensures { part_in result ≡ spec.part_at (part_in part) offset }
{
    match part {
        None => None,
        Some(part) => Some(Part {
            local: part.local,
            offset: part.offset.saturating_add(offset).min(65_536),
        }),
    }
}

/// Which part of a local a place is, if it is one.
pub fn part_of(structs: &[Struct], place: &Place) -> Option<Part>
    ensures { part_in result ≡ (spec.place structs.now place.now).part }
{
    match &place.kind {
        PlaceKind::Local(number) => Some(Part {
            local: *number,
            offset: 0,
        }),
        PlaceKind::Member { of, tag, member } => {
            let whole = part_of(structs, of.get());
            further(whole, member_offset(structs, *tag, *member))
        }
        PlaceKind::Global(_) => None,
        PlaceKind::Deref(_) => None,
        PlaceKind::Element { .. } => None,
        PlaceKind::At { .. } => None,
    }
}

/// Whether a place is a part of a local.
pub fn is_part(structs: &[Struct], place: &Place) -> bool
    ensures { result ≡ is_some (spec.place structs.now place.now).part }
{
    match &place.kind {
        PlaceKind::Local(_) => true,
        PlaceKind::Member { of, .. } => is_part(structs, of.get()),
        PlaceKind::Global(_) => false,
        PlaceKind::Deref(_) => false,
        PlaceKind::Element { .. } => false,
        PlaceKind::At { .. } => false,
    }
}
