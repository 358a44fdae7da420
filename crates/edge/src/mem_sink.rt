ghost use Rattle.std.specs.Prelude.{◌≡◌, ◌≤◌, [], Some, true, false, OnOk, IsErrOf, MatchResult, ◌⊎◌};
ghost use Rattle.edge.specs.Counts.{risen};
ghost use Rattle.edge.specs.Memory.{is_to_fail, next_put, failed_put, with_piece};

use crate::sink::{Sink, SinkErr};
use std::alloc::Global;
use std::marker::Model;

/// A sink in memory, for tests. Its calls of `put` are numbered from 1, and those that are listed fail and add nothing.
#[derive(Drop)]
pub struct MemSink {
    bytes: Vec<u8>,
    fails: Vec<u64>,
    calls: u64,
    faults: u64,
}

impl Model for MemSink {
    ghost use Rattle.edge.specs.Memory.{MemBytes};

    ghost Value = { MemBytes };

    ghost view = { λ m. record { bytes = m.bytes.items; fails = m.fails.items; calls = m.calls; faults = m.faults } };
}

impl MemSink {
    /// No byte yet; the calls of these numbers are to fail. It takes no memory.
    pub fn new(alloc: Global, fails: Vec<u64>) -> MemSink
        ensures bytes { result.bytes ≡ [] }
        ensures fails { result.fails ≡ fails.items }
        ensures calls { result.calls ≡ 0 }
        ensures faults { result.faults ≡ 0 }
    {
        MemSink {
            bytes: Vec::new(alloc),
            fails,
            calls: 0,
            faults: 0,
        }
    }

    /// What was put.
    pub fn bytes(&self) -> &[u8]
        ensures { result.now ≡ self.now.bytes }
    {
        self.bytes.as_slice()
    }

    /// Numbers a call, and says whether it is to fail.
    fn begin_call(&mut self) -> bool
        ensures answer { result ≡ is_to_fail self.old.fails self.old.calls }
        ensures state { self.new ≡ next_put self.old }
    {
        self.calls = self.calls.saturating_add(1);
        let number = self.calls;
        self.fails.iter().any(|listed| *listed == number)
    }

    /// Counts a fault.
    fn fail(&mut self)
        ensures state { self.new ≡ record self.old { faults = risen self.old.faults } }
        ensures never_falls { self.old.faults ≤ self.new.faults }
    {
        self.faults = self.faults.saturating_add(1);
    }
}

impl Sink for MemSink {
    ghost bytes = { λ m. Some m.bytes };

    ghost faults = { λ m. m.faults };

    fn faults(&self) -> u64 {
        self.faults
    }

    /// Fails exactly where the number of this call is listed, want of memory aside, and counts each call and each that
    /// failed. A call that failed adds nothing.
    fn put(&mut self, piece: &[u8]) -> Result<(), SinkErr>
        ensures answer { MatchResult result
            (λ _. is_to_fail self.old.fails self.old.calls ≡ false)
            (λ e. (e ≡ SinkErr.NoMemory) ⊎ ((is_to_fail self.old.fails self.old.calls ≡ true) × (e ≡ SinkErr.Failed))) }
        ensures ok { OnOk result (self.new ≡ with_piece (next_put self.old) piece.now) }
        ensures failed { IsErrOf result SinkErr.Failed → self.new ≡ failed_put self.old }
        ensures no_memory { IsErrOf result SinkErr.NoMemory → self.new ≡ next_put self.old }
        ensures never_falls { self.old.faults ≤ self.new.faults }
    {
        if self.begin_call() {
            self.fail();
            return Err(SinkErr::Failed);
        }
        match self.bytes.extend_from_slice(piece) {
            Ok(()) => Ok(()),
            Err(_) => Err(SinkErr::NoMemory),
        }
    }
}
