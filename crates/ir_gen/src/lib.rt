//! The three-address form of a program: what its steps are, and that the form serves the program.
#![tactic(auto)]

mod laws;

pub use laws::{
    a_small_program_has_a_form, forms_serve_lawful_programs, forms_serve_their_programs,
    lawful_programs_are_built,
};
