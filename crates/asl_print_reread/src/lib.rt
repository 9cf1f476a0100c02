//! Laws that printed texts are read again: the text of an agent that was read is a source of that agent and of no other. The texts of plans,
//! literals, terms and formulas that were read are read as the same again.
//!
//! May stand on: asl_term, asl_lexer, asl_parser, asl_print
//!
//! Must not: hold code that runs, take memory, print, read or write a file.
#![tactic(auto)]

pub mod laws;
