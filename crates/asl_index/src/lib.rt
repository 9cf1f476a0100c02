//! `Indexed`, a belief base with the calls of `Beliefs`: it finds beliefs and rules by their frame, and equal beliefs by a number made of functor and
//! arguments.
//!
//! May stand on: asl_term, asl_unify, asl_beliefs, asl_index
//!
//! Must not: search for solutions, know of plans or intentions, start a thread, read or write a file.
#![tactic(auto)]

pub mod adding;
pub mod finding;
pub mod firsts;
pub mod indexed;
pub mod listed;
pub mod noted;
pub mod opening;
pub mod rules;
pub mod slots;
pub mod store;
pub mod taking;
pub mod updating;
