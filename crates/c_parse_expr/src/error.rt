ghost use Rattle.std.specs.Prelude.{◌≡◌};
ghost use Rattle.c_parse_expr.specs.declared.error.ParseErr.TheVariants.{NoMemory as OutOfMemory};

use base16::NoMemory;
use std::alloc::AllocError;
use thiserror::Error;

/// Why there is no tree.
#[derive(Clone, Copy, Debug, PartialEq, Eq, Error)]
pub enum ParseErr {
    /// No tree of an allowed height spells the tokens. The number is that of the first token, from 0, after which none
    /// can go on, or the number of tokens where they end too early; where a tree would be too high it may be a later one.
    #[error("no tree goes on with token {token}")]
    Syntax { token: u32 },
    /// Memory ran out.
    #[error("memory ran out")]
    NoMemory,
}

impl From<AllocError> for ParseErr {
    ghost from_gives = { λ _ e. e ≡ OutOfMemory };

    fn from(_error: AllocError) -> ParseErr {
        ParseErr::NoMemory
    }
}

impl From<NoMemory> for ParseErr {
    ghost from_gives = { λ _ e. e ≡ OutOfMemory };

    fn from(_error: NoMemory) -> ParseErr {
        ParseErr::NoMemory
    }
}
