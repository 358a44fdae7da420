//! The three-address form of a program: lists of steps over temporaries that are numbered by depth, and its run.
#![tactic(auto)]

mod control;
mod form;
mod laws;
mod sizes;
mod stack;

pub use control::{Control, Frame, Temporary};
pub use core_tree::Slot as IrScalar;
pub use form::{
    Base, Ir, IrFunction, IrGlobal, IrLocal, IrState, Keep, Operand, Operation, Step, StepKind,
    Target, Test,
};
pub use laws::{
    bounded_runs_are_runs, ordered_forms_end_within_the_bound, ordered_forms_make_each_step_once,
};
pub use sizes::size;
pub use stack::Stack;
