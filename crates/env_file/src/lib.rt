//! The file of a world, read from its tokens clause by clause, with its limits and faults; laws of what is read.
//!
//! May stand on: asl_term, asl_lexer, asl_parser, asl_unify, mas_world
//!
//! Must not: carry out acts, start a thread, read or write the file itself, print.
#![tactic(auto)]

pub mod binding;
pub mod clauses;
pub mod fault;
pub mod guards;
pub mod laws;
pub mod limits;
pub mod marks;
pub mod saying;
pub mod statement;
pub mod taking;
pub mod world;
