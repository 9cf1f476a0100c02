//! Where a piece of a source or of a world leaves its grammar, and why: the first token with which no reading goes on, a reason in words, a change
//! with which the piece is read. The faults of bytes, one behind the other. How all of these are shown.
//!
//! May stand on: asl_term, asl_lexer, asl_parser
//!
//! Must not: judge whether a file is refused, read a file, print.
#![tactic(auto)]

pub mod bytes;
pub mod clause;
pub mod excerpt;
pub mod expression;
pub mod flaws;
pub mod grammar;
pub mod mark;
pub mod mending;
pub mod phrase;
pub mod reading;
pub mod reason;
pub mod repair;
pub mod rules;
pub mod table;
pub mod world;
