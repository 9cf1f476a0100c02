//! Lists of outcomes in order: what is written of them, and what they answer.
//!
//! May stand on: asl_term, mas_mind, mas_world, mas_board, mas_core, mas_report, mas_free, mas_explore
//!
//! Must not: know of AgentSpeak, make a turn, search, read or write a file.
#![tactic(auto)]

pub mod answers;
pub mod laws;
pub mod lines;
pub mod sorting;
pub mod telling;
pub mod writing;
