//! Tests of the crates that the board stands on, from outside: expected values are worked out by hand.
#![tactic(auto)]

#[cfg(test)]
mod boots;
#[cfg(test)]
mod checkpoints;
#[cfg(test)]
mod cuts;
#[cfg(test)]
mod maps;
#[cfg(test)]
mod memory;
#[cfg(test)]
mod refusals;
#[cfg(test)]
mod serving;
#[cfg(test)]
mod stores;
#[cfg(test)]
mod support;
#[cfg(test)]
mod traces;
