//! What outlives the program: power, a clock and sensors, the files that stand for them, and the history of a run.
#![tactic(auto)]

mod cycle;
mod draft;
mod entry;
mod error;
mod history;
mod outside;
mod reading_readings;
mod reading_trace;
mod readings_draft;
mod text;
mod trace;
mod trace_world;

pub use cycle::PowerCycle;
pub use error::TraceErr;
pub use history::{History, Record, Shown};
pub use outside::{Off, World};
pub use reading_readings::parse_readings;
pub use trace::{Trace, parse_trace};
pub use trace_world::TraceWorld;
