//! The commands `check` and `renew`: whether a report is that of a run of a project, and that report anew, from the files to the answer and its status.
//!
//! May stand on: asl_term, asl_cycle, mas_mind, mas_world, mas_core, mas_io, mas_report, mas_top
//!
//! Must not: touch a real file, start a thread, decide how a report is written.
#![tactic(auto)]

pub mod checking;
