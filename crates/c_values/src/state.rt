use crate::cells::Cells;
use base16::Sequence;

/// An object that is alive, with its scalars in order.
#[derive(Drop)]
pub struct Object {
    /// Its place in the order in which objects came to life, the program's variables first.
    pub number: u64,
    pub cells: Cells,
}

/// A live call: its function by its place in the program, the byte address of its frame, and the objects of its
/// parameters and locals.
#[derive(Drop)]
pub struct Call {
    pub function: u16,
    pub frame: u16,
    pub locals: Sequence<Object>,
}

/// What an open block keeps: what stood as it opened, and how many words its marks have stored since.
#[derive(Drop)]
pub struct Saved {
    pub globals: Sequence<Object>,
    pub calls: Sequence<Call>,
    pub stamps: Sequence<Option<u32>>,
    pub outputs: Sequence<u16>,
    pub words: u16,
}

/// A state of a program: its variables, the live calls oldest first, a stamp in milliseconds or none for each timed
/// scalar, the outputs, what an open block keeps, and the marks made.
#[derive(Drop)]
pub struct State {
    pub globals: Sequence<Object>,
    pub calls: Sequence<Call>,
    pub stamps: Sequence<Option<u32>>,
    pub outputs: Sequence<u16>,
    pub block: Option<Saved>,
    pub marks: u32,
}
