//! Cells: what stands in memory, by address, and the rules by which code is proved against the machine with unbroken power.
#![tactic(auto)]

mod laws;

pub use laws::{
    frames_by_cells, routines_by_cells, services_by_cells, start_by_cells, stretches_are_runs,
};
