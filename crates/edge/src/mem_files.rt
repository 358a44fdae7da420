ghost use Rattle.std.specs.Prelude.{◌≡◌, ◌≤◌, [], Some, None, true, false, vec_len, IfOk, OnOk, OnErr, IsErrOf, MatchResult, ◌⊎◌};
ghost use Rattle.std.specs.Option.{option_copied};
ghost use Rattle.edge.specs.Counts.{risen};
ghost use Rattle.edge.specs.Memory.{file_of, is_to_fail, read_answer, next_call, failed_call, with_file};

use crate::files::{FileErr, Files, WriteErr};
use base16::{Name, NoMemory, Sequence};
use std::alloc::Global;
use std::marker::Model;

/// A file of a store in memory.
#[derive(Debug, Drop)]
pub struct StoredFile {
    pub name: Name,
    pub bytes: Sequence<u8>,
}

/// Files in memory, for tests. Its calls of `read` and `write` are numbered from 1, and those that are listed fail.
/// A file that is written again hides what it held before.
#[derive(Drop)]
pub struct MemFiles {
    files: Vec<StoredFile>,
    fails: Vec<u64>,
    calls: u64,
    faults: u64,
    last: Option<Name>,
}

impl Model for MemFiles {
    ghost use Rattle.edge.specs.Memory.{MemDrive};

    ghost Value = { MemDrive };

    ghost view = { λ m.
        record { files = m.files.items; fails = m.fails.items; calls = m.calls; faults = m.faults; last = m.last } };
}

impl MemFiles {
    /// No file yet; the calls of these numbers are to fail. It takes no memory.
    pub fn new(alloc: Global, fails: Vec<u64>) -> MemFiles
        ensures files { result.files ≡ [] }
        ensures fails { result.fails ≡ fails.items }
        ensures calls { result.calls ≡ 0 }
        ensures faults { result.faults ≡ 0 }
        ensures last { result.last ≡ None }
    {
        MemFiles {
            files: Vec::new(alloc),
            fails,
            calls: 0,
            faults: 0,
            last: None,
        }
    }

    /// Sets a file, and is no numbered call. Want of memory changes nothing.
    pub fn place(&mut self, alloc: Global, name: &str, bytes: &[u8]) -> Result<(), NoMemory>
        ensures ok { OnOk result (self.new ≡ with_file self.old name.now bytes.now) }
        ensures err { OnErr result (self.new ≡ self.old) }
    {
        let file = StoredFile {
            name: Name::new(alloc, name.as_bytes())?,
            bytes: Sequence::from_vec(Vec::from_slice(alloc, bytes)?),
        };
        self.files.insert(0, file)?;
        Ok(())
    }

    /// Numbers a call, and says whether it is to fail.
    fn begin_call(&mut self) -> bool
        ensures answer { result ≡ is_to_fail self.old.fails self.old.calls }
        ensures state { self.new ≡ next_call self.old }
    {
        self.calls = self.calls.saturating_add(1);
        let number = self.calls;
        self.fails.iter().any(|listed| *listed == number)
    }

    /// Counts a fault of a call under a name.
    fn fail(&mut self, name: Name)
        ensures state { self.new ≡ record self.old { faults = risen self.old.faults; last = Some name } }
        ensures never_falls { self.old.faults ≤ self.new.faults }
    {
        self.faults = self.faults.saturating_add(1);
        self.last = Some(name);
    }

    /// The newest file of a name.
    fn find(&self, name: &str) -> Option<&[u8]>
        ensures { option_copied result ≡ file_of self.now.files name.now }
    {
        for file in self.files.iter() {
            if file.name.bytes() == name.as_bytes() {
                return Some(file.bytes.as_slice());
            }
        }
        None
    }
}

impl Files for MemFiles {
    ghost contents = { λ m. Some (file_of m.files) };

    ghost faults = { λ m. m.faults };

    ghost last = { λ m. m.last };

    fn faults(&self) -> u64 {
        self.faults
    }

    fn last(&self) -> Option<&Name> {
        self.last.as_ref()
    }

    /// Fails exactly where the number of this call is listed or there is no such file, want of memory aside, and counts
    /// each call and each that failed.
    fn read(&mut self, alloc: Global, name: &str, limit: u32) -> Result<Vec<u8>, FileErr>
        ensures answer { MatchResult result
            (λ v. read_answer self.old name.now limit ≡ Ok v.items)
            (λ e. (e ≡ FileErr.NoMemory) ⊎ (read_answer self.old name.now limit ≡ Err e)) }
        ensures failed { IsErrOf result FileErr.Failed → self.new ≡ failed_call self.old name.now }
        ensures not_failed { (IsErrOf result FileErr.Failed → ⊥) → self.new ≡ next_call self.old }
        ensures within { IfOk result (λ v. vec_len v ≤ limit) }
        ensures never_falls { self.old.faults ≤ self.new.faults }
    {
        let is_to_fail = self.begin_call();
        let copy = Name::new(alloc, name.as_bytes())?;
        if is_to_fail {
            self.fail(copy);
            return Err(FileErr::Failed);
        }
        let Some(bytes) = self.find(name) else {
            self.fail(copy);
            return Err(FileErr::Failed);
        };
        if bytes.len() > limit as usize {
            return Err(FileErr::TooBig);
        }
        Ok(Vec::from_slice(alloc, bytes)?)
    }

    /// Fails exactly where the number of this call is listed, want of memory aside, and counts each call and each that
    /// failed. A call that failed changes no file.
    fn write(&mut self, alloc: Global, name: &str, bytes: &[u8]) -> Result<(), WriteErr>
        ensures answer { MatchResult result
            (λ _. is_to_fail self.old.fails self.old.calls ≡ false)
            (λ e. (e ≡ WriteErr.NoMemory) ⊎ ((is_to_fail self.old.fails self.old.calls ≡ true) × (e ≡ WriteErr.Failed))) }
        ensures ok { OnOk result (self.new ≡ with_file (next_call self.old) name.now bytes.now) }
        ensures failed { IsErrOf result WriteErr.Failed → self.new ≡ failed_call self.old name.now }
        ensures no_memory { IsErrOf result WriteErr.NoMemory → self.new ≡ next_call self.old }
        ensures never_falls { self.old.faults ≤ self.new.faults }
    {
        let is_to_fail = self.begin_call();
        let copy = Name::new(alloc, name.as_bytes())?;
        if is_to_fail {
            self.fail(copy);
            return Err(WriteErr::Failed);
        }
        self.place(alloc, name, bytes)?;
        Ok(())
    }
}
