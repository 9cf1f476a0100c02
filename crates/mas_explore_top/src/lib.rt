//! The parts of the top call of `explore`: its words, what it tells of a project, and how it ended.
//!
//! May stand on: asl_term, asl_cycle, mas_mind, mas_world, mas_io, mas_report, mas_top, mas_free, mas_explore, mas_explore_agent, mas_explore_files,
//! program_words, the kit's `clap`
//!
//! Must not: touch a real file or standard output, know how states are held.
#![tactic(auto)]

pub mod app;
pub mod detail;
pub mod ends;
pub mod starting;
pub mod taken;
pub mod telling;
pub mod top;
pub mod values;
pub mod watching;
pub mod words;
