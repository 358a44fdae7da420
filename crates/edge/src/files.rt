ghost use Rattle.std.specs.Prelude.{◌≡◌, ℕ, ◌<◌, ◌≤◌, List, Option, length, vec_len, IfOk, IfSome, IsSomeAnd, OnOk, IsErrOf};
ghost use Rattle.std.specs.Option.{option_copied};
ghost use Rattle.edge.specs.Counts.{HasRisen};
ghost use Rattle.edge.specs.Told.{Drive, KeepsOthers, SetsFile};

use base16::{Name, NoMemory};
use std::alloc::{AllocError, Global};

/// Why a file was not read.
#[derive(Clone, Copy, Debug, PartialEq, Eq)]
pub enum FileErr {
    /// The store answered a fault, or has no such file.
    Failed,
    /// The file has more bytes than the limit.
    TooBig,
    NoMemory,
}

/// Why a file was not written.
#[derive(Clone, Copy, Debug, PartialEq, Eq)]
pub enum WriteErr {
    /// The store answered a fault.
    Failed,
    NoMemory,
}

impl From<NoMemory> for FileErr {
    ghost use Rattle.std.specs.Prelude.{◌≡◌};
    ghost use Rattle.edge.specs.declared.files.FileErr.TheVariants.{NoMemory};

    ghost from_gives = { λ _ e. e ≡ NoMemory };

    fn from(_error: base16::NoMemory) -> FileErr {
        FileErr::NoMemory
    }
}

impl From<AllocError> for FileErr {
    ghost use Rattle.std.specs.Prelude.{◌≡◌};
    ghost use Rattle.edge.specs.declared.files.FileErr.TheVariants.{NoMemory};

    ghost from_gives = { λ _ e. e ≡ NoMemory };

    fn from(_error: AllocError) -> FileErr {
        FileErr::NoMemory
    }
}

impl From<NoMemory> for WriteErr {
    ghost use Rattle.std.specs.Prelude.{◌≡◌};
    ghost use Rattle.edge.specs.declared.files.WriteErr.TheVariants.{NoMemory};

    ghost from_gives = { λ _ e. e ≡ NoMemory };

    fn from(_error: base16::NoMemory) -> WriteErr {
        WriteErr::NoMemory
    }
}

/// A store of files by name.
pub trait Files {
    /// The files, where they are told.
    ghost contents: { Self → Option Drive };

    /// How often the store has answered a fault, at most 2^64 - 1.
    ghost faults: { Self → ℕ };

    /// The name of the last call that was answered with a fault.
    ghost last: { Self → Option (List ℕ) };

    fn faults(&self) -> u64
        ensures { result ≡ faults self.now };

    fn last(&self) -> Option<&Name>
        ensures { option_copied result ≡ last self.now };

    /// The bytes of a file of at most `limit` bytes; at most one byte more is read.
    fn read(&mut self, alloc: Global, name: &str, limit: u32) -> Result<Vec<u8>, FileErr>
        ensures bytes { IfOk result (λ v. IfSome (contents self.old) (λ files. files name.now ≡ Some v.items)) }
        ensures within { IfOk result (λ v. vec_len v ≤ limit) }
        ensures too_big { IsErrOf result FileErr.TooBig →
            IfSome (contents self.old) (λ files. IsSomeAnd (files name.now) (λ bytes. limit < length bytes)) }
        ensures failed { IsErrOf result FileErr.Failed → HasRisen (faults self.old) (faults self.new) }
        ensures named { IsErrOf result FileErr.Failed → last self.new ≡ Some name.now }
        ensures not_named { (IsErrOf result FileErr.Failed → ⊥) → last self.new ≡ last self.old }
        ensures never_falls { faults self.old ≤ faults self.new }
        ensures unchanged { contents self.new ≡ contents self.old };

    /// Makes a file these bytes. After a fault the file holds anything; want of memory changes nothing.
    fn write(&mut self, alloc: Global, name: &str, bytes: &[u8]) -> Result<(), WriteErr>
        ensures ok { OnOk result (SetsFile (contents self.old) (contents self.new) name.now bytes.now) }
        ensures failed { IsErrOf result WriteErr.Failed → HasRisen (faults self.old) (faults self.new) }
        ensures named { IsErrOf result WriteErr.Failed → last self.new ≡ Some name.now }
        ensures not_named { (IsErrOf result WriteErr.Failed → ⊥) → last self.new ≡ last self.old }
        ensures others { KeepsOthers (contents self.old) (contents self.new) name.now }
        ensures no_memory { IsErrOf result WriteErr.NoMemory → contents self.new ≡ contents self.old }
        ensures never_falls { faults self.old ≤ faults self.new };
}
