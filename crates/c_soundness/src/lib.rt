//! Soundness of checking: a lawful program meets nothing but the rules of undefined behaviour.
#![tactic(auto)]

mod laws;

pub use laws::a_lawful_program_meets_only_the_rules;
