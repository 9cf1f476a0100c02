//! Artifacts in native code, each of which acts as its table of acts says: a slot, a tally and a belt.
//!
//! May stand on: asl_term, asl_unify, mas_mind, mas_world
//!
//! Must not: call a mind, know of agents' cycles, start a thread, read or write a file.
#![tactic(auto)]

pub mod belt;
pub mod frames;
pub mod kinds;
pub mod opening;
pub mod slot;
pub mod tally;
