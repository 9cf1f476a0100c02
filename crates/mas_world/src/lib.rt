//! Worlds: facts that guarded acts change, in segments of the world file and of artifacts; what agents see of them.
//!
//! May stand on: asl_term, asl_unify, mas_mind
//!
//! Must not: call a mind, know of agents' cycles, start a thread, read or write a file.
#![tactic(auto)]

pub mod acts;
pub mod artifact;
pub mod facts;
pub mod guards;
pub mod opening;
pub mod segment;
pub mod shown;
pub mod table;
pub mod world;
