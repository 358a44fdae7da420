use crate::stack::Stack;
use base16::Sequence;
use c_values::{Location, Value};

/// What a temporary holds.
#[derive(Clone, Copy)]
pub enum Temporary {
    Value(Value),
    Place(Location),
}

/// A call that waits for the one above it: its function, the place of its next step, the number of its first object,
/// and its temporaries.
#[derive(Drop)]
pub struct Frame {
    pub function: u16,
    pub position: u32,
    pub first: u64,
    pub temporaries: Stack<Temporary>,
}

/// Where a run stands.
#[derive(Drop)]
pub enum Control {
    /// At a step of a function, whose first object has a number, and whose callers wait below, the youngest first.
    At {
        function: u16,
        position: u32,
        first: u64,
        temporaries: Stack<Temporary>,
        below: Stack<Frame>,
    },
    /// Just before the entry of a function, with its arguments in order, which the caller has from that depth on.
    Calling {
        function: u16,
        depth: u32,
        args: Sequence<Value>,
        below: Stack<Frame>,
    },
    /// Just after a function was left, with what it gave.
    Returning {
        value: Value,
        below: Stack<Frame>,
    },
}
