//! The command `sites`: two projects as two sites, from their files to the text about their runs.
//!
//! May stand on: asl_term, asl_parser, asl_cycle, mas_mind, mas_world, env_file, mas_board, mas_core, mas_io, mas_sites, mas_project, mas_report,
//! mas_top
//!
//! Must not: touch a real file, start a thread of its own, record a run.
#![tactic(auto)]

pub mod artifacts;
pub mod laws;
pub mod meeting;
pub mod names;
pub mod opening;
pub mod printing;
pub mod reading;
pub mod telling;
