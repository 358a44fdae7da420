//! What a scalar of a file-scope variable may begin with (C99 6.6). An offset above 65,535, which no object has, and a
//! struct that is not there are answered by `NoMemory`.

ghost use Rattle.std.specs.Prelude.{◌≡◌, ◌*◌, IfOk};
ghost use Rattle.core_tree.specs.declared.types.Ty.{out-Ty};
ghost use Rattle.core_tree.specs.declared.expressions.ExprKind.{out-ExprKind};
ghost use Rattle.c_checking.specs.Constants as spec;
ghost use Rattle.c_initialisers.specs.Found.{address_of};

use base16::NoMemory;
use c_rules::value;
use core_tree::{Expr, ExprKind, Initial, Place, PlaceKind, Struct, Ty, offset_of, size_of};

/// The number of a file-scope variable and an offset in it.
#[derive(Clone, Copy)]
pub struct FoundAddress {
    pub global: u32,
    pub offset: u16,
}

/// An address moved by so many bytes.
fn moved(by: u32, of: Option<FoundAddress>) -> Result<Option<FoundAddress>, NoMemory>
    ensures { IfOk result (λ found. address_of found ≡ spec.moved by (address_of of)) }
{
    match of {
        None => Ok(None),
        Some(of) => {
            let offset = u32::from(of.offset).saturating_add(by);
            if offset > 65_535 {
                return Err(NoMemory);
            }
            Ok(Some(FoundAddress {
                global: of.global,
                offset: offset as u16,
            }))
        }
    }
}

/// The address of an element of an array: the index is a constant below the number of elements.
fn indexed(
    size: u32,
    count: u16,
    index: i64,
    of: Option<FoundAddress>,
) -> Result<Option<FoundAddress>, NoMemory>
    ensures { IfOk result (λ found. address_of found ≡ spec.indexed_by size count (Some index) (address_of of)) }
{
    let Ok(at) = u16::try_from(index) else {
        return Ok(None);
    };
    if at < count {
        moved(u32::from(at).saturating_mul(size), of)
    } else {
        Ok(None)
    }
}

/// The address of an element of a place, where that is an array.
fn element(
    size: u32,
    ty: &Ty,
    index: Option<i64>,
    of: Option<FoundAddress>,
) -> Result<Option<FoundAddress>, NoMemory>
    ensures { IfOk result (λ found. address_of found ≡ spec.element size (out-Ty ty.now) index (address_of of)) }
{
    match (ty, index) {
        (Ty::Array { count, .. }, Some(index)) => indexed(size, *count, index, of),
        _ => Ok(None),
    }
}

/// The address of a variable, of a member of such a place, or of an element of it.
#[tactic(auto, using(crate::proofs::Addresses::kinds_of_places))]
pub fn address(place: &Place, structs: &[Struct]) -> Result<Option<FoundAddress>, NoMemory>
    ensures { IfOk result (λ found. address_of found ≡ spec.address structs.now place.now) }
{
    match &place.kind {
        PlaceKind::Global(global) => Ok(Some(FoundAddress {
            global: *global,
            offset: 0,
        })),
        PlaceKind::Member { of, tag, member } => {
            let of = address(of.get(), structs)?;
            if usize::from(*tag) >= structs.len() {
                return Err(NoMemory);
            }
            moved(offset_of(structs, *tag, *member), of)
        }
        PlaceKind::Element { of, index } => {
            let found = address(of.get(), structs)?;
            let size = size_of(structs, &place.ty);
            element(size, &of.get().ty, value(index.get()), found)
        }
        PlaceKind::Local(_) | PlaceKind::Deref(_) | PlaceKind::At { .. } => Ok(None),
    }
}

/// The address of what `&` or an array's name stands before or for: an array is an address only by its bare name.
fn address_in(structs: &[Struct], place: &Place) -> Result<Option<FoundAddress>, NoMemory>
    ensures { IfOk result (λ found. address_of found ≡ spec.address_of structs.now place.now) }
{
    match (&place.ty, &place.kind) {
        (Ty::Array { .. }, PlaceKind::Global(_)) => address(place, structs),
        (Ty::Array { .. }, _) => Ok(None),
        _ => address(place, structs),
    }
}

/// The address of a place as an initial value.
fn address_value(structs: &[Struct], place: &Place) -> Result<Option<Initial>, NoMemory>
    ensures { IfOk result (λ found. found ≡ spec.address_value (spec.address_of structs.now place.now)) }
{
    match address_in(structs, place)? {
        None => Ok(None),
        Some(found) => Ok(Some(Initial::Address {
            global: found.global,
            offset: found.offset,
        })),
    }
}

/// What a pointer begins with, which is 0 or an address.
fn pointer_value(structs: &[Struct], kind: &ExprKind) -> Result<Option<Initial>, NoMemory>
    ensures { IfOk result (λ found. found ≡ spec.pointer_value structs.now (out-ExprKind kind.now)) }
{
    match kind {
        ExprKind::Constant(number) => Ok(Some(Initial::Int(*number))),
        ExprKind::Address(place) => address_value(structs, place.get()),
        _ => Ok(None),
    }
}

/// What an integer begins with.
fn integer_value(number: Option<i64>) -> Option<Initial>
    ensures { result ≡ spec.integer_value number }
{
    match number {
        None => None,
        Some(number) => Some(Initial::Int(number)),
    }
}

/// What a scalar begins with that is initialised by an expression of its type; none where that is not constant.
#[tactic(auto, unfolding(c_checking::specs::Constants::initial_value))]
pub fn initial_value(structs: &[Struct], expr: &Expr) -> Result<Option<Initial>, NoMemory>
    ensures { IfOk result (λ found. found ≡ spec.initial_value structs.now expr.now) }
{
    match (&expr.ty, &expr.kind) {
        (Ty::Num(_), _) => Ok(integer_value(value(expr))),
        (_, ExprKind::Convert(of)) => pointer_value(structs, &of.get().kind),
        (_, kind) => pointer_value(structs, kind),
    }
}
