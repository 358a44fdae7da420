use base16::NoMemory;
use thiserror::Error;

/// Why a trace or a readings file was refused.
#[derive(Clone, Copy, Debug, PartialEq, Eq, Error)]
pub enum TraceErr {
    /// The first line, from 1, that is not in the file's form.
    #[error("line {line} is not in the form of the file")]
    BadLine { line: u32 },
    /// No line is bad, and the file says more than its limits allow.
    #[error("the file says more than its limits allow")]
    TooLong,
    /// Memory ran out.
    #[error("memory ran out")]
    NoMemory,
}

impl From<NoMemory> for TraceErr {
    ghost use Rattle.std.specs.Prelude.{◌≡◌};
    ghost use Rattle.world.specs.declared.error.TraceErr.TheVariants.{NoMemory as trace_no_memory};

    ghost from_gives = { λ _ e. e ≡ trace_no_memory };

    fn from(_error: NoMemory) -> TraceErr {
        TraceErr::NoMemory
    }
}
