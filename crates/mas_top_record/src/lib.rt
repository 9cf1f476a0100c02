//! The report of a run that is kept in a file of a disk that the caller lends, with the status of each refusal.
//!
//! May stand on: asl_term, mas_mind, mas_world, mas_board, mas_core, mas_io, mas_record, mas_report, mas_top
//!
//! Must not: touch a real file, print, start a thread of its own, decide when a turn counts.
#![tactic(auto)]

pub mod keep;
pub mod laws;
pub mod report;
