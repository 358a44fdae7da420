ghost use Rattle.std.specs.Prelude.{◌≡◌};
ghost use Rattle.c_run.specs.declared.halt.Halt.TheVariants.{NoMemory as OutOfMemory};

use base16::{EndKind, NoMemory};
use std::alloc::AllocError;

/// Why a run does not go on.
#[derive(Clone, Copy, Debug, PartialEq, Eq)]
pub enum Halt {
    /// The mark that was asked for is made, and not counted yet.
    Live,
    /// The run ended by itself.
    Ended(EndKind),
    /// The next reading is missing or of another kind.
    NeedsReading,
    /// A rule of undefined behaviour is broken at a node; rule 0 is none of the rules and met by no lawful program.
    Broken { rule: u8, node: u32 },
    /// Memory ran out.
    NoMemory,
}

impl From<AllocError> for Halt {
    ghost from_gives = { λ _ e. e ≡ OutOfMemory };

    fn from(_error: AllocError) -> Halt {
        Halt::NoMemory
    }
}

impl From<NoMemory> for Halt {
    ghost from_gives = { λ _ e. e ≡ OutOfMemory };

    fn from(_error: NoMemory) -> Halt {
        Halt::NoMemory
    }
}
