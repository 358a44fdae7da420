//! The program's edge: files that it reads and writes, and the sink that takes what it prints.
#![tactic(auto)]

mod files;
mod host;
mod mem_files;
mod mem_sink;
mod sink;

pub use files::{FileErr, Files, WriteErr};
pub use host::{HostFiles, StdSink};
pub use mem_files::{MemFiles, StoredFile};
pub use mem_sink::MemSink;
pub use sink::{Sink, SinkErr};
