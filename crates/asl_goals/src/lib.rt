//! The internal actions of bodies that act on goals, on beliefs or on other agents.
//!
//! May stand on: asl_term, asl_unify, asl_beliefs, asl_resolve, asl_intend, asl_exec, mas_mind
//!
//! Must not: change plans, deliver the messages that it makes, start a thread, read or write a file.
#![tactic(auto)]

pub mod acted;
pub mod goals;
pub mod inside;
pub mod letter;
pub mod lookup;
pub mod sending;
pub mod sweep;
