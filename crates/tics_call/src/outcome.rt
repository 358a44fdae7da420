ghost use Rattle.std.specs.Prelude.{◌≡◌};
ghost use Rattle.tics_call.specs.Outcome.{said, status_of};

use edge::SinkErr;
use tics_front::SourceFault;
use tics_meaning::ReadingsFault;

/// The exit status for want of memory.
pub const NO_MEMORY: u8 = 10;

/// What a call of the program comes to.
#[derive(Clone, Copy, Debug, PartialEq, Eq)]
pub enum Outcome {
    /// The program ran to its end, and its report was printed.
    Done,
    /// What the program means was printed.
    Told,
    /// The source has this fault.
    Refused(SourceFault),
    /// The words are no command.
    Usage,
    /// The readings have this fault.
    ReadingsRefused(ReadingsFault),
    /// A read answered a fault.
    ReadFault,
    /// A put answered a fault.
    WriteFault,
    NoMemory,
    /// The source or the trace is in no form that is built yet.
    Unsupported,
}

impl Outcome {
    /// The exit status.
    pub fn status(self) -> u8
        ensures { result ≡ status_of self }
    {
        match self {
            Outcome::Done | Outcome::Told => 0,
            Outcome::Refused(_) => 1,
            Outcome::Usage => 2,
            Outcome::ReadingsRefused(_) => 3,
            Outcome::ReadFault => 8,
            Outcome::WriteFault => 9,
            Outcome::NoMemory => NO_MEMORY,
            Outcome::Unsupported => 13,
        }
    }

    /// This outcome once its text is put, or what became of the put.
    pub fn said(self, put: Result<(), SinkErr>) -> Outcome
        ensures { result ≡ said put self }
    {
        match put {
            Ok(()) => self,
            Err(SinkErr::Failed) => Outcome::WriteFault,
            Err(SinkErr::NoMemory) => Outcome::NoMemory,
        }
    }
}
