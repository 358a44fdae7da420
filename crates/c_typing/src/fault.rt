ghost use Rattle.std.specs.Prelude.{◌≡◌};
ghost use Rattle.c_typing.specs.declared.fault.Stop.TheVariants.{NoMemory as OutOfMemory};

use base16::NoMemory;
use std::alloc::AllocError;

/// The rules by which a source is refused, in the order of their numbers, E1 to E10.
#[derive(Clone, Copy, Debug, PartialEq, Eq)]
pub enum Rule {
    Unknown,
    Twice,
    WrongType,
    NotPlace,
    WrongArgs,
    Incomplete,
    TooBig,
    NoMain,
    ConstWrite,
    NotConstant,
}

/// A rule that is broken, and the line of the node that breaks it.
#[derive(Clone, Copy, Debug, PartialEq, Eq)]
pub struct Fault {
    pub rule: Rule,
    pub line: u32,
}

/// Why a check ended early.
#[derive(Clone, Copy, Debug, PartialEq, Eq)]
pub enum Stop {
    Broken(Fault),
    /// Memory ran out.
    NoMemory,
}

impl From<AllocError> for Stop {
    ghost from_gives = { λ _ e. e ≡ OutOfMemory };

    fn from(_error: AllocError) -> Stop {
        Stop::NoMemory
    }
}

impl From<NoMemory> for Stop {
    ghost from_gives = { λ _ e. e ≡ OutOfMemory };

    fn from(_error: NoMemory) -> Stop {
        Stop::NoMemory
    }
}
