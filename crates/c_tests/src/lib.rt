//! Tests of the typed tree and of what C programs mean, from outside: expected values are worked out by hand.
#![tactic(auto)]

#[cfg(test)]
mod tree;
#[cfg(test)]
mod trees;
