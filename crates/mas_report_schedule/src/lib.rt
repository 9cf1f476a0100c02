//! The two lines of a schedule, written in each version and read, also as the last two of a text.
//!
//! May stand on: asl_term
//!
//! Must not: know of boards or minds, open a file, print.
#![tactic(auto)]

pub mod entry;
pub mod last;
pub mod laws;
pub mod reading;
pub mod schedule;
