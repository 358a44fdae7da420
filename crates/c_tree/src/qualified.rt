use base16::Name;
use sqlite_items::Items;

/// A type qualifier (C99 6.7.3).
#[derive(Clone, Copy, Debug, PartialEq, Eq)]
pub enum Qual {
    Const,
    Volatile,
}

/// The word for a sign before `short` (C99 6.7.2).
#[derive(Clone, Copy, Debug, PartialEq, Eq)]
pub enum Sign {
    Signed,
    Unsigned,
}

/// A base type as it is written (C99 6.7.2).
#[derive(Debug, Drop)]
pub enum Base {
    Void,
    Char,
    UnsignedChar,
    /// `struct` and its tag.
    Struct(Name),
    /// `int`, and whether `signed` stands before it.
    Int { is_signed: bool },
    /// `signed` alone.
    Signed,
    /// `unsigned`, and whether `int` follows.
    Unsigned { with_int: bool },
    /// `short`, the sign before it, and whether `int` follows.
    Short { sign: Option<Sign>, with_int: bool },
}

/// A base type with the qualifiers before and after it.
#[derive(Debug, Drop)]
pub struct Spec {
    pub before: Items<Qual>,
    pub base: Base,
    pub after: Items<Qual>,
}
