//! Statuses: how a call of the program ended, the code with which the process ends, and the one line that says it in words.
//!
//! May stand on: asl_term
//!
//! Must not: read a file, print, know of agents, start a thread.
#![tactic(auto)]

pub mod status;
