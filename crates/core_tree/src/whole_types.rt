ghost use Rattle.std.specs.Prelude.{◌≡◌, IfOk};
ghost use Rattle.core_tree.specs.Types as spec;

use crate::types::Ty;
use base16::{NoMemory, Sequence};
use sqlite_items::Boxed;
use std::alloc::Global;

// A type may have hundreds of thousands of levels, so each function here is a loop.

/// A level of a type around what stands in it.
#[derive(Clone, Copy)]
pub enum Level {
    PointerTo { readonly: bool },
    ArrayOf { count: u16 },
}

/// Whether two types are one.
pub fn same_type(left: &Ty, right: &Ty) -> bool
    ensures { result ≡ spec.same left.now right.now }
{
    let mut one = left;
    let mut other = right;
    loop {
        match (one, other) {
            (
                Ty::Pointer { to, readonly },
                Ty::Pointer {
                    to: other_to,
                    readonly: other_readonly,
                },
            ) => {
                if readonly != other_readonly {
                    return false;
                }
                one = to.get();
                other = other_to.get();
            }
            (
                Ty::Array { of, count },
                Ty::Array {
                    of: other_of,
                    count: other_count,
                },
            ) => {
                if count != other_count {
                    return false;
                }
                one = of.get();
                other = other_of.get();
            }
            (Ty::Void, Ty::Void) => return true,
            (Ty::Num(one), Ty::Num(other)) => return one == other,
            (Ty::Struct(one), Ty::Struct(other)) => return one == other,
            _ => return false,
        }
    }
}

/// The levels of a type, the outermost first, and what stands in the innermost.
#[tactic(auto, using(crate::proofs::Levels::wrapped_last))]
fn unwrapped(alloc: Global, ty: &Ty) -> Result<(Sequence<Level>, Ty), NoMemory>
    ensures { IfOk result (λ parts. spec.wrapped_in parts.0 parts.1 ≡ ty.now) }
{
    let mut levels = Sequence::new(alloc);
    let mut inner = ty;
    loop {
        match inner {
            Ty::Pointer { to, readonly } => {
                levels.push(Level::PointerTo {
                    readonly: *readonly,
                })?;
                inner = to.get();
            }
            Ty::Array { of, count } => {
                levels.push(Level::ArrayOf { count: *count })?;
                inner = of.get();
            }
            Ty::Void => return Ok((levels, Ty::Void)),
            Ty::Num(of) => return Ok((levels, Ty::Num(*of))),
            Ty::Struct(tag) => return Ok((levels, Ty::Struct(*tag))),
        }
    }
}

/// A type with a level around it.
#[tactic(auto, unfolding(crate::specs::Types::around))]
fn around(alloc: Global, level: Level, inner: Ty) -> Result<Ty, NoMemory>
    ensures { IfOk result (λ made. made ≡ spec.around level inner) }
{
    let inner = Boxed::new(alloc, inner)?;
    match level {
        Level::PointerTo { readonly } => Ok(Ty::Pointer {
            to: inner,
            readonly,
        }),
        Level::ArrayOf { count } => Ok(Ty::Array { of: inner, count }),
    }
}

/// A copy of a type.
#[tactic(auto, using(crate::proofs::Levels::wrapped_last))]
pub fn copy_type(alloc: Global, ty: &Ty) -> Result<Ty, NoMemory>
    ensures { IfOk result (λ made. made ≡ ty.now) }
{
    let (mut levels, mut made) = unwrapped(alloc, ty)?;
    while let Some(level) = levels.pop() {
        made = around(alloc, level, made)?;
    }
    Ok(made)
}
