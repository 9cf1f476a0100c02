//! The tokens of the sources of agents, worlds and projects, their words, and the pieces into which grammars cut them; laws of the tokens that texts
//! give.
//!
//! May stand on: asl_term
//!
//! Must not: judge whether tokens form a clause, change what it is lent, start a thread, read or write a file.
#![tactic(auto)]

pub mod blanks;
pub mod laws;
pub mod lexing;
pub mod pieces;
pub mod scan;
pub mod signs;
pub mod strings;
pub mod token;
pub mod words;
