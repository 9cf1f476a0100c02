//! The plan that a text is, and laws that the text of a plan that was read is that plan again.
//!
//! May stand on: asl_term, asl_lexer, asl_parser, asl_print
//!
//! Must not: run the plan, change what it is lent, start a thread, read or write a file.
#![tactic(auto)]

pub mod laws;
pub mod reading;
