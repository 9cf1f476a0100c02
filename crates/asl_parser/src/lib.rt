//! The clauses of agents and whole sources, read from tokens, with their limits; laws of what is read.
//!
//! May stand on: asl_term, asl_lexer, asl_parser
//!
//! Must not: change what it is lent, run what it reads, start a thread, read or write a file.
#![tactic(auto)]

pub mod agent;
pub mod clauses;
pub mod laws;
pub mod limits;
pub mod marks;
pub mod saying;
pub mod sentence;
