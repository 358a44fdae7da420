/// One power cycle of a trace.
#[derive(Clone, Copy, Debug, PartialEq, Eq)]
pub struct PowerCycle {
    /// How many ticks it has, at most 4,000,000.
    pub ticks: u32,
    /// How many milliseconds power stays off behind it, below 2^31.
    pub off: u32,
}
