//! The top call, from the words and the files to the output and the status: runs, replays, recorded runs, checks and renewals of reports, lint, sites
//! and the demo.
//!
//! May stand on: asl_term, asl_parser, asl_beliefs, asl_resolve, asl_cycle, mas_mind, mas_world, env_file, mas_board, mas_core, mas_pool, mas_steal,
//! mas_io, mas_record, mas_project, mas_report, mas_top
//!
//! Must not: touch a real file or standard output, decide a rule of the language, start a thread of its own, know which artifacts there are.
#![tactic(auto)]

pub mod demo;
pub mod laws;
pub mod linting;
pub mod playing;
pub mod recording;
pub mod running;
pub mod top;
