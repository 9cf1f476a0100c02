//! The command `where`: what is refused in the files of a project, each place with a reason, from the files to the text that is written.
//!
//! May stand on: asl_term, asl_lexer, asl_parser, mas_world, env_file, mas_io, mas_project, mas_top, look
//!
//! Must not: decide by a reason whether a file is refused, touch a real file, write to a sink, run an agent.
#![tactic(auto)]

pub mod faults;
pub mod files;
pub mod leads;
pub mod printing;
pub mod projects;
pub mod worlds;
