/// What a running program keeps beside its registers and memory.
#[derive(Clone, Copy, Debug, PartialEq, Eq)]
pub struct Work {
    /// The stack segment that works, 0 to 31.
    pub segment: u16,
    /// Whether an expires block is open.
    pub block_open: bool,
    /// How many entries the block log has, at most 128.
    pub block_length: u16,
    /// Marks passed since the program began.
    pub marks: u32,
    /// Commits made.
    pub commits: u32,
    /// The ticks spent in all at the last commit or at the end of the last boot.
    pub since: u32,
}
