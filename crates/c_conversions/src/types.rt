//! Which types are complete (C99 6.2.5), and which stores are marks.

ghost use Rattle.std.specs.Prelude.{◌≡◌, nat_lt};
ghost use Rattle.core_tree.specs.Lawful.{is_local_path as is_local_path_of};
ghost use Rattle.c_typing.specs.Scopes as spec;
ghost use Rattle.c_conversions.specs.Bounds.{bound};

use c_typing::Env;
use core_tree::{Place, PlaceKind, Ty};

/// Whether arithmetic may be done on a pointer to a type.
#[tactic(auto, unfolding(c_typing::specs::Scopes::is_complete))]
pub fn is_complete(env: &Env, ty: &Ty) -> bool
    ensures { result ≡ spec.is_complete env.now ty.now }
{
    match ty {
        Ty::Void => false,
        Ty::Struct(tag) => usize::from(*tag) < env.structs.len(),
        Ty::Num(_) | Ty::Pointer { .. } | Ty::Array { .. } => true,
    }
}

/// Whether the struct of a number is complete or, behind a pointer, its tag is known.
#[tactic(auto, using(crate::proofs::Turns::at_most_is_below))]
fn is_known(env: &Env, tag: u16, pointed: bool) -> bool
    ensures { result ≡ nat_lt tag (bound env.now pointed) }
{
    let place = usize::from(tag);
    let structs = env.structs.len();
    if pointed && env.defining.is_some() {
        return place <= structs;
    }
    place < structs
}

/// Whether an object or a `sizeof` may have a type: no `void` and no pointer to it anywhere in it, and complete.
#[tactic(auto, unfolding(c_typing::specs::Scopes::is_sized))]
pub fn is_sized(env: &Env, ty: &Ty) -> bool
    ensures { result ≡ spec.is_sized env.now ty.now }
{
    let mut inner = ty;
    let mut pointed = false;
    loop {
        match inner {
            Ty::Void => return false,
            Ty::Num(_) => return true,
            Ty::Pointer { to, .. } => {
                inner = to.get();
                pointed = true;
            }
            Ty::Array { of, count } => {
                if *count < 1 || 32767 < *count {
                    return false;
                }
                inner = of.get();
            }
            Ty::Struct(tag) => return is_known(env, *tag, pointed),
        }
    }
}

/// Whether a place is a local scalar or a member path of a local struct.
fn is_local_path(place: &Place) -> bool
    ensures { result ≡ is_local_path_of place.now.kind }
{
    let mut inner = place;
    loop {
        match &inner.kind {
            PlaceKind::Local(_) => return true,
            PlaceKind::Member { of, .. } => inner = of.get(),
            PlaceKind::Global(_)
            | PlaceKind::Deref(_)
            | PlaceKind::Element { .. }
            | PlaceKind::At { .. } => return false,
        }
    }
}

/// Whether a store to a place is a mark.
pub fn is_marked(env: &Env, place: &Place) -> bool
    ensures { result ≡ spec.is_marked env.now place.now }
{
    env.inside || !is_local_path(place)
}
