use base16::Kind;

/// A value. An object's number is its place in the order in which objects came to life, the program's variables first.
#[derive(Clone, Copy, Debug, PartialEq, Eq)]
pub enum Value {
    Int(i64),
    Pointer { object: u64, offset: u16 },
    Null,
    /// A scalar that was not set, or what a call gave that ended without a value.
    Undefined,
}

/// A scalar of an object.
#[derive(Clone, Copy, Debug, PartialEq, Eq)]
pub struct Cell {
    pub offset: u16,
    pub kind: Kind,
    pub value: Value,
}

/// Where a place is: an object, or none through the null pointer, and the bytes from its beginning, of which 65,536
/// stands for all above 65,535.
#[derive(Clone, Copy, Debug, PartialEq, Eq)]
pub struct Location {
    pub object: Option<u64>,
    pub offset: u32,
}
