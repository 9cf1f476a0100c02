//! A source, from the word of a project to the moment before the first turn: its board, its world and the minds of its agents.
//!
//! May stand on: asl_term, asl_parser, asl_beliefs, asl_resolve, asl_exec, asl_cycle, mas_mind, mas_world, env_file, mas_board, mas_core, mas_io,
//! mas_project, mas_report, mas_top
//!
//! Must not: make a turn, touch a real file, start a thread, print.
#![tactic(auto)]

pub mod minds;
pub mod opening;
pub mod reading;
