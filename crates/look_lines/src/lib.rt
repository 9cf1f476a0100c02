//! The lines of which the text of a mind is made, and those of messages and thoughts; what changed between two such texts; and the lines of an agent that
//! tell of a failure: what was dropped, what the world did not do, and which searches used up their budget.
//!
//! May stand on: asl_term, mas_mind, chart
//!
//! Must not: know what a mind is made of, change what it is lent, run an agent, read or write a file, print.
#![tactic(auto)]

pub mod change;
pub mod difference;
pub mod falls;
pub mod lines;
pub mod outs;
pub mod pieces;
pub mod words;
