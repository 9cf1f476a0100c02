//! The circumstance that the rows of a cycle share: their names, what they look at and change, the search for one solution, and the row for a stack
//! whose top is done. Literals and strings in contents, and the names that all agents share.
//!
//! May stand on: asl_term, asl_unify, asl_beliefs, asl_resolve, asl_plans, asl_intend, asl_fail
//!
//! Must not: change plans, send a message, start a thread, read or write a file.
#![tactic(auto)]

pub mod content;
pub mod emptied;
pub mod parts;
pub mod peers;
pub mod rows;
pub mod shared;
pub mod sought;
pub mod went;
