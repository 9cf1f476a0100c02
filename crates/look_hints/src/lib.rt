//! The command `hints`: what is read in the files of a project and looks wrong, each place with its line and a reason.
//!
//! May stand on: asl_term, asl_lexer, asl_parser, asl_lint, mas_world, env_file, mas_io, mas_project, mas_top, look
//!
//! Must not: refuse a file, touch a real file, write to a sink, run an agent.
#![tactic(auto)]

pub mod covered;
pub mod deeds;
pub mod finding;
pub mod hint;
pub mod jason;
pub mod messages;
pub mod pen;
pub mod places;
pub mod planless;
pub mod printing;
pub mod project;
pub mod reading;
pub mod rules;
pub mod sends;
pub mod sight;
pub mod singles;
pub mod sources;
pub mod telling;
pub mod uses;
pub mod world;
