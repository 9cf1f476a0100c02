//! What the files of a run describe, or which of them is refused first, with the names that a world may use.
//!
//! May stand on: asl_term, asl_lexer, asl_parser, mas_mind, mas_world, env_file, mas_io, mas_project, mas_top
//!
//! Must not: touch a real file, write a text to a sink, run an agent, start a thread.
#![tactic(auto)]

pub mod faults;
pub mod files;
pub mod folder;
pub mod known;
pub mod laws;
pub mod project;
pub mod sources;
