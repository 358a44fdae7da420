//! Checking expressions: what each expression is where these names are declared, or the first rule that it breaks.
#![tactic(auto)]

mod environment;
mod fault;
mod laws;
mod operand;

pub use environment::{Env, Named, Signature, What, lookup};
pub use fault::{Fault, Rule, Stop};
pub use laws::{
    address_is_lawful, arithmetic_is_lawful, deref_is_lawful, expressions_are_walked,
    faults_are_the_first, integers_are_lawful, logical_is_lawful, sequence_is_lawful,
    values_are_lawful,
};
pub use operand::{Builtin, Operand};
