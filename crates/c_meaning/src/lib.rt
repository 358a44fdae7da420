//! What a program means: its run with unbroken power, on a list of readings.
#![tactic(auto)]

mod flow;
mod laws;
mod outcome;

pub use flow::Flow;
pub use laws::{
    live_runs_have_their_marks, more_depth_changes_nothing, runs_take_what_there_is,
    stopped_runs_stay_stopped,
};
pub use outcome::CState;
