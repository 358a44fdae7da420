//! Tests of the program and of its edge, from outside: expected values are worked out by hand.
#![tactic(auto)]

#[cfg(test)]
mod calls;
#[cfg(test)]
mod commands;
#[cfg(test)]
mod meanings;
#[cfg(test)]
mod outside;
