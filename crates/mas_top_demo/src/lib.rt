//! The files of the demo, in memory, the law that they describe a run, and the lines that report it.
//!
//! May stand on: asl_term, asl_lexer, asl_parser, mas_mind, mas_world, env_file, mas_board, mas_io, mas_project, mas_top
//!
//! Must not: print, touch a real file, run an agent, start a thread.
#![tactic(auto)]

pub mod files;
pub mod laws;
pub mod lines;
