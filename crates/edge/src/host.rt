ghost use Rattle.std.specs.Prelude.{◌≡◌, ◌≤◌, Some, None, vec_len, IfOk};
ghost use Rattle.edge.specs.Counts.{risen};

use crate::files::{FileErr, Files, WriteErr};
use crate::sink::{Sink, SinkErr};
use base16::Name;
use std::alloc::Global;
use std::fs;
use std::io::{ErrorKind, Read};
use std::rt::Files as HostFileSystem;

/// The host's files. What they hold is not told.
#[derive(Drop)]
pub struct HostFiles<'a, R: HostFileSystem> {
    rt: &'a R,
    faults: u64,
    last: Option<Name>,
}

impl<'a, R: HostFileSystem> HostFiles<'a, R> {
    /// The files of this host.
    pub fn new(rt: &'a R) -> HostFiles<'a, R>
        ensures faults { result.faults ≡ 0 }
        ensures last { result.last ≡ None }
    {
        HostFiles {
            rt,
            faults: 0,
            last: None,
        }
    }

    /// Counts a fault of a call under a name.
    fn fail(&mut self, name: Name)
        ensures faults { self.new.faults ≡ risen self.old.faults }
        ensures never_falls { self.old.faults ≤ self.new.faults }
        ensures last { self.new.last ≡ Some name }
    {
        self.faults = self.faults.saturating_add(1);
        self.last = Some(name);
    }
}

/// The bytes of a reader of at most `limit` bytes.
fn read_up_to<F: Read>(alloc: Global, file: &mut F, limit: u32) -> Result<Vec<u8>, FileErr>
    ensures { IfOk result (λ v. vec_len v ≤ limit) }
{
    let mut bytes = Vec::new(alloc);
    let mut piece = [0u8; 4096];
    for _ in 0..u64::MAX {
        // one byte past the limit shows that the file is longer
        let wanted = (limit as usize + 1 - bytes.len()).min(4096);
        match file.read(&mut piece[..wanted]) {
            Ok(0) => return Ok(bytes),
            Ok(n) => bytes.extend_from_slice(&piece[..n])?,
            Err(error) if error.kind() == ErrorKind::Interrupted => continue,
            Err(_) => return Err(FileErr::Failed),
        }
        if bytes.len() > limit as usize {
            return Err(FileErr::TooBig);
        }
    }
    Err(FileErr::Failed)
}

impl<'a, R: HostFileSystem> Files for HostFiles<'a, R> {
    ghost contents = { λ _. None };

    ghost faults = { λ h. h.faults };

    ghost last = { λ h. h.last };

    fn faults(&self) -> u64 {
        self.faults
    }

    fn last(&self) -> Option<&Name> {
        self.last.as_ref()
    }

    fn read(&mut self, alloc: Global, name: &str, limit: u32) -> Result<Vec<u8>, FileErr> {
        let copy = Name::new(alloc, name.as_bytes())?;
        let Ok(mut file) = fs::open(self.rt, name) else {
            self.fail(copy);
            return Err(FileErr::Failed);
        };
        match read_up_to(alloc, &mut file, limit) {
            Err(FileErr::Failed) => {
                self.fail(copy);
                Err(FileErr::Failed)
            }
            answer => answer,
        }
    }

    fn write(&mut self, alloc: Global, name: &str, bytes: &[u8]) -> Result<(), WriteErr> {
        let copy = Name::new(alloc, name.as_bytes())?;
        if fs::write(self.rt, name, bytes).is_err() {
            self.fail(copy);
            return Err(WriteErr::Failed);
        }
        Ok(())
    }
}

/// The standard output of the process. What it took is not told.
#[derive(Drop)]
pub struct StdSink<'a, P: Print> {
    rt: &'a P,
    faults: u64,
}

impl<'a, P: Print> StdSink<'a, P> {
    /// The standard output of this process.
    pub fn new(rt: &'a P) -> StdSink<'a, P>
        ensures { result.faults ≡ 0 }
    {
        StdSink { rt, faults: 0 }
    }
}

impl<'a, P: Print> Sink for StdSink<'a, P> {
    ghost bytes = { λ _. None };

    ghost faults = { λ s. s.faults };

    fn faults(&self) -> u64 {
        self.faults
    }

    fn put(&mut self, piece: &[u8]) -> Result<(), SinkErr> {
        if self.rt.write_all(piece).is_err() {
            self.faults = self.faults.saturating_add(1);
            return Err(SinkErr::Failed);
        }
        Ok(())
    }
}
