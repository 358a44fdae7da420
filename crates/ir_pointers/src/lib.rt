//! Along a run of a form without blocks all pointers stay inside the objects that they point to.
#![tactic(auto)]
