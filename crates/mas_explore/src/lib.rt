//! The search of all schedules, over any mind that a quiet cycle leaves as it was: all outcomes that runs can have, each with a run that has it.
//!
//! May stand on: asl_term, mas_mind, mas_world, mas_board, mas_core, mas_report, mas_free
//!
//! Must not: know of AgentSpeak, make a turn, start a thread, wait, read or write a file.
#![tactic(auto)]

pub mod explore;
pub mod listing;
pub mod origin;
pub mod runs;
pub mod search;
pub mod space;
