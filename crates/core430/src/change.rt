/// What an instruction comes to, beside the registers that it leaves: nothing more, one word of memory at an even
/// address, or an access that is refused.
#[derive(Clone, Copy, Debug, PartialEq, Eq)]
pub enum Change {
    Sets,
    Stores { address: u16, word: u16 },
    Faults(u16),
}
