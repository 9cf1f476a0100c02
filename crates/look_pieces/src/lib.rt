//! What is told of the source of an agent: each piece that its reader refuses, or the first fault of its bytes, with the line and the column. What its
//! clauses name: the goals that they post, with their places, and whether there is a plan for a name; sets of names.
//!
//! May stand on: asl_term, asl_lexer, asl_parser, look
//!
//! Must not: decide by a reason whether a piece is refused, decide what is worth a hint, read a file, print.
#![tactic(auto)]

pub mod agents;
pub mod clause;
pub mod findings;
pub mod goals;
pub mod name;
pub mod places;
pub mod printing;
pub mod spoilt;
