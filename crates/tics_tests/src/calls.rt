use edge::{Files, MemFiles, MemSink, Sink};
use fram::Fram;
use std::alloc::Global;
use std::test::Fail;
use tics_call::tics;
use world::History;

/// What was seen of a call of the program.
#[derive(Drop)]
pub struct Observed {
    pub status: u8,
    pub printed: Vec<u8>,
    pub records: usize,
    pub read_faults: u64,
    pub put_faults: u64,
}

/// Calls the program with a source `c` and a trace or readings `t` in memory; the reads and puts of these numbers fail.
pub fn call(
    alloc: Global,
    words: &[&str],
    source: &str,
    second: &str,
    read_fails: &[u64],
    put_fails: &[u64],
) -> Result<Observed, Fail> {
    let mut list = Vec::new(alloc);
    for word in words {
        list.push(String::from_str(alloc, word)?)?;
    }
    let mut files = MemFiles::new(alloc, Vec::from_slice(alloc, read_fails)?);
    files.place(alloc, "c", source.as_bytes())?;
    files.place(alloc, "t", second.as_bytes())?;
    let mut out = MemSink::new(alloc, Vec::from_slice(alloc, put_fails)?);
    let mut fram = Fram::blank(alloc)?;
    let mut book = History::new(alloc);
    let status = tics(alloc, &list, &mut files, &mut out, &mut fram, &mut book);
    Ok(Observed {
        status,
        printed: Vec::from_slice(alloc, out.bytes())?,
        records: book.records.len(),
        read_faults: files.faults(),
        put_faults: out.faults(),
    })
}

/// A text, this piece so many times, and a text.
pub fn repeated(
    alloc: Global,
    front: &str,
    piece: &str,
    count: usize,
    back: &str,
) -> Result<String, Fail> {
    let mut text = String::from_str(alloc, front)?;
    for _ in 0..count {
        text.push_str(piece)?;
    }
    text.push_str(back)?;
    Ok(text)
}
