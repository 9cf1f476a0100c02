//! The command `messages`: who sent what to whom in the run of a report, and when it was taken.
//!
//! May stand on: asl_term, mas_mind, mas_report, mas_top, look
//!
//! Must not: judge whether the report is that of a run, read a file, print.
#![tactic(auto)]

pub mod fitting;
pub mod lines;
pub mod messages;
pub mod table;
