//! Tests of runs of three-address forms, from outside: the forms are written and the values worked out by hand.
#![tactic(auto)]

#[cfg(test)]
mod forms;
#[cfg(test)]
mod sizes;
