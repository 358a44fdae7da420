//! The services of the board: each is its effect on the machine with unbroken power, and then a commit exactly where one is
//! due. Instructions see the memory behind a write gate.
#![tactic(auto)]

mod acting;
mod bounds;
mod gated;
mod laws;
mod serving;
mod storing;

pub use acting::Committed;
pub use bounds::a_service_takes_few_ticks;
pub use gated::Gated;
pub use laws::{
    a_commit_is_where_the_machine_stands, a_service_is_counted_by_the_machine,
    a_service_is_that_of_the_machine,
};
pub use serving::{Served, serve};
