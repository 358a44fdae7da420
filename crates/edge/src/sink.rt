ghost use Rattle.std.specs.Prelude.{◌≡◌, ℕ, ◌≤◌, List, Option, OnOk, IsErrOf};
ghost use Rattle.edge.specs.Counts.{HasRisen};
ghost use Rattle.edge.specs.Told.{Appends, AppendsFront};

/// Why a piece was not taken whole.
#[derive(Clone, Copy, Debug, PartialEq, Eq)]
pub enum SinkErr {
    /// The sink answered a fault, or took nothing of a piece that is not empty.
    Failed,
    NoMemory,
}

/// What takes the bytes that the program prints.
pub trait Sink {
    /// The bytes put so far, where they are told.
    ghost bytes: { Self → Option (List ℕ) };

    /// How often the sink has answered a fault, at most 2^64 - 1.
    ghost faults: { Self → ℕ };

    fn faults(&self) -> u64
        ensures { result ≡ faults self.now };

    /// Adds a piece at the end. After a fault a front of it was added; want of memory adds nothing.
    fn put(&mut self, piece: &[u8]) -> Result<(), SinkErr>
        ensures ok { OnOk result (Appends (bytes self.old) (bytes self.new) piece.now) }
        ensures failed { IsErrOf result SinkErr.Failed → HasRisen (faults self.old) (faults self.new) }
        ensures front { IsErrOf result SinkErr.Failed → AppendsFront (bytes self.old) (bytes self.new) piece.now }
        ensures no_memory { IsErrOf result SinkErr.NoMemory → bytes self.new ≡ bytes self.old }
        ensures never_falls { faults self.old ≤ faults self.new };
}
