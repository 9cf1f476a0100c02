//! Expressions, read from tokens, and the expression at a place among tokens.
//!
//! May stand on: asl_term, asl_lexer, asl_parser
//!
//! Must not: read clauses of agents, change what it is lent, start a thread, read or write a file.
#![tactic(auto)]

pub mod fault;
pub mod laws;
pub mod places;
pub mod reading;
