//! Tests of values and runs of C programs, of constant expressions and of the typing rules, from outside: expected values
//! are worked out by hand.
#![tactic(auto)]

#[cfg(test)]
mod rules;
#[cfg(test)]
mod runs;
#[cfg(test)]
mod values;
