//! The machine that a script drives: its state, what one step asks of the keeper and does, and the run of a whole script.
//! Definitions and laws alone.
#![tactic(auto)]

pub mod laws;
