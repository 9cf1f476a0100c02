//! The reader of a project file: its agents, their source files, the world's file and the names of the agents.
//!
//! May stand on: asl_term, asl_lexer
//!
//! Must not: open the files that it names, start a thread, wait, print.
#![tactic(auto)]

pub mod draft;
pub mod fault;
pub mod laws;
pub mod lexeme;
pub mod names;
pub mod piece;
pub mod project;
pub mod reading;
pub mod state;
pub mod step;
pub mod syntax;
