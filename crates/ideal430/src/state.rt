use base16::{EndKind, Regs, Sequence};

/// How a run stands.
#[derive(Clone, Copy, Debug, PartialEq, Eq)]
pub enum IdealEnd {
    /// It goes on.
    Running,
    /// It ended in this way.
    Ended(EndKind),
    /// The next reading is missing, or it is of another channel.
    NeedsReading,
}

/// Where a run with unbroken power stands.
#[derive(Debug, Drop)]
pub struct IdealState {
    pub regs: Regs,
    /// All 32,768 words, the first at byte address 0.
    pub words: Sequence<u16>,
    /// How many marks were made.
    pub services: u32,
    pub end: IdealEnd,
}
