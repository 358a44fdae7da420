//! The code of a form that serves a lawful program does each step to which the form's run from the start comes.
#![tactic(auto)]
