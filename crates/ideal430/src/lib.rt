//! The board with unbroken power: what each service does to registers and words, as one effect, the machine that runs
//! code with these services, and when a checkpoint is due and what it all takes in ticks.
#![tactic(auto)]

mod causes;
mod deed;
mod laws;
mod machine;
mod memory;
mod service;
mod state;

pub use deed::{Deed, Stores, deed_of, refusal};
pub use laws::{
    a_step_marks_once, later_readings_wait, runs_compose, settled_bytes_decide,
    watched_parts_have_no_effect,
};
pub use machine::ideal_run;
pub use service::{Ask, Service, Store, ask_of, service_at};
pub use state::{IdealEnd, IdealState};
