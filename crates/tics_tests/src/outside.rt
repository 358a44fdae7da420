use edge::{FileErr, Files, HostFiles, MemFiles, MemSink, Sink, StdSink, WriteErr};
use std::fs;
use std::test::Fail;

/// A file that the tests write where they run, and remove.
const SCRATCH: &str = "tics-tests-scratch";

#[test]
fn memory_takes_files_and_pieces(rt: HostRuntime) -> Result<(), Fail> {
    let alloc = rt.alloc();
    let mut files = MemFiles::new(alloc, Vec::new(alloc));
    files.place(alloc, "a", b"placed")?;
    files.write(alloc, "b", b"written")?;
    assert_eq!(rt; files.read(alloc, "a", 6)?.as_slice(), b"placed".as_slice());
    assert_eq!(rt;
        files.read(alloc, "b", 7)?.as_slice(),
        b"written".as_slice()
    );
    let mut sink = MemSink::new(alloc, Vec::new(alloc));
    assert_eq!(rt; sink.put(b"a piece\n").err(), None);
    assert_eq!(rt; sink.bytes(), b"a piece\n".as_slice());
    Ok(())
}

#[test]
fn host_files_read_and_write_real_files(rt: HostRuntime) -> Result<(), Fail> {
    let alloc = rt.alloc();
    let mut files = HostFiles::new(&rt);
    files.write(alloc, SCRATCH, b"0123456789")?;
    let all = files.read(alloc, SCRATCH, 10)?;
    let refused = files.read(alloc, SCRATCH, 9).err();
    fs::remove_file(&rt, SCRATCH)?;
    assert_eq!(rt; all.as_slice(), b"0123456789".as_slice());
    assert_eq!(rt; refused, Some(FileErr::TooBig));
    assert_eq!(rt; files.read(alloc, SCRATCH, 9).err(), Some(FileErr::Failed));
    let last = files.last().ok_or("no name")?;
    assert_eq!(rt; last.bytes(), SCRATCH.as_bytes());
    assert_eq!(rt;
        files.write(alloc, "no-such-folder/file", b"x").err(),
        Some(WriteErr::Failed)
    );
    assert_eq!(rt; files.faults(), 2);
    Ok(())
}

#[test]
fn the_standard_output_takes_a_piece(rt: HostRuntime) {
    let mut sink = StdSink::new(&rt);
    assert_eq!(rt; sink.put(b"a piece\n").err(), None);
    assert_eq!(rt; sink.faults(), 0);
}
