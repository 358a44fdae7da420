ghost use Rattle.std.specs.Prelude.{◌≡◌, []};

use base16::{EndKind, Reading, Sequence};
use std::alloc::Global;

/// One difference between the memory at a commit and at the one before it, or the start.
#[derive(Clone, Copy, Debug, PartialEq, Eq)]
pub enum Shown {
    /// The word of a global scalar, by its number among the symbols' scalars.
    Value { scalar: u32, word: u16 },
    /// The stamp of a timed scalar in milliseconds; none where it was never assigned.
    Stamp { scalar: u32, ms: Option<u32> },
    /// How many outputs there are, at most 256.
    Outs { length: u16 },
    /// One output, by its place from 0.
    Out { index: u16, word: u16 },
}

/// One event of a run.
#[derive(Debug, Drop)]
pub enum Record {
    /// A power cycle began; cycles are counted from 1.
    On {
        cycle: u32,
    },
    /// The program took a reading.
    Read {
        reading: Reading,
    },
    /// A checkpoint was completed: its number, the marks and instructions up to it, program counter and stack
    /// pointer, the words that it wrote, the entries of the undo log just before it, and what it changed.
    Commit {
        number: u32,
        marks: u32,
        instrs: u32,
        pc: u16,
        sp: u16,
        words: u16,
        log: u16,
        sets: Sequence<Shown>,
    },
    /// Power failed.
    Off,
    /// The run ended.
    End {
        kind: EndKind,
    },
}

/// The events of a run in order.
#[derive(Debug, Drop)]
pub struct History {
    pub records: Sequence<Record>,
}

impl History {
    /// No event yet. It takes no memory.
    pub fn new(alloc: Global) -> History
        ensures { result.records ≡ [] }
    {
        History {
            records: Sequence::new(alloc),
        }
    }
}
