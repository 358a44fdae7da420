//! The code of each step of the three-address form, run on the machine with unbroken power, does the step.
#![tactic(auto)]
