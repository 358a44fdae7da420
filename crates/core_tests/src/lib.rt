//! Tests of the 16-bit core: single steps, runs of several, the helper routines, the assembler, and runs with unbroken power.
#![tactic(auto)]

#[cfg(test)]
mod assembler;
#[cfg(test)]
mod ideal;
#[cfg(test)]
mod routines;
#[cfg(test)]
mod runs;
#[cfg(test)]
mod steps;
