//! The report of a run: its options and its text; the version, options and schedule that a report holds; and whether bytes are the report of a run,
//! or that report renewed.
//!
//! May stand on: asl_term, mas_mind, mas_world, mas_board, mas_core, mas_report
//!
//! Must not: print, open a file, start a thread, know of AgentSpeak.
#![tactic(auto)]

pub mod checking;
pub mod options;
pub mod output;
pub mod reading;
pub mod report;
