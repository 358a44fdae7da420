use base16::{IntType, Kind, Name};
use sqlite_items::{Boxed, Items};

/// A type (C99 6.2.5). It may be very deep, since the stars and brackets of a declarator are no nodes of a tree.
pub enum Ty {
    /// The result of a function that gives no value.
    Void,
    Num(IntType),
    /// Whether what it points to is const.
    Pointer { to: Boxed<Ty>, readonly: bool },
    Array { of: Boxed<Ty>, count: u16 },
    /// A struct by its place in the program's list of structs.
    Struct(u16),
}

impl Drop for Ty {
    fn drop(mut self) {
        loop {
            match self {
                Ty::Void | Ty::Num(_) | Ty::Struct(_) => return,
                Ty::Pointer { to, readonly: _ } => self = to.into_inner(),
                Ty::Array { of, count: _ } => self = of.into_inner(),
            }
        }
    }
}

/// A struct and its members in order.
#[derive(Drop)]
pub struct Struct {
    pub name: Name,
    pub members: Items<Member>,
}

/// A member of a struct.
#[derive(Drop)]
pub struct Member {
    pub name: Name,
    pub ty: Ty,
}

/// A scalar in a type: its byte offset and what it holds.
#[derive(Clone, Copy, Debug, PartialEq, Eq)]
pub struct Slot {
    pub offset: u16,
    pub kind: Kind,
}
