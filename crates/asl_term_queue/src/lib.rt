//! Lists whose items are taken from the front.
//!
//! May stand on: asl_term
//!
//! Must not: know what its items are, start a thread, wait for an item, read or write a file.
#![tactic(auto)]

pub mod queue;
pub mod room;
