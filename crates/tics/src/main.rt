//! The program `tics`: runs C on a board without batteries and reports what happened.
#![tactic(auto)]

use base16::NoMemory;
use edge::{HostFiles, StdSink};
use fram::Fram;
use std::env;
use std::process::ExitCode;
use std::rt::Env;
use tics_call::{NO_MEMORY, tics};
use world::History;

/// The words after the program's name; none where the host does not tell them as text.
fn command_words<R: Env + AllocGlobal>(rt: &R) -> Result<Vec<String>, NoMemory> {
    let mut words = Vec::new(rt.alloc());
    if let Ok(args) = env::args(rt) {
        for word in args.skip(1) {
            words.push(word)?;
        }
    }
    Ok(words)
}

fn main(rt: HostRuntime) -> ExitCode {
    let alloc = rt.alloc();
    let (Ok(words), Ok(mut fram)) = (command_words(&rt), Fram::blank(alloc)) else {
        return ExitCode::from(NO_MEMORY);
    };
    let mut files = HostFiles::new(&rt);
    let mut out = StdSink::new(&rt);
    let mut book = History::new(alloc);
    ExitCode::from(tics(alloc, &words, &mut files, &mut out, &mut fram, &mut book))
}
