use base16::{Reading, Sequence};

/// The readings that the lines so far say, and their last clock, or 0.
#[derive(Drop)]
pub(crate) struct ReadingsDraft {
    pub readings: Sequence<Reading>,
    pub clock: u32,
}
