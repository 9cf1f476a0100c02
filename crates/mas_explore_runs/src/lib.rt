//! Runs of the platform along plans, from any origin: what comes of each, as text.
//!
//! May stand on: asl_term, mas_mind, mas_world, mas_board, mas_core, mas_report, mas_free, mas_explore
//!
//! Must not: know of AgentSpeak, search, start a thread, wait, read or write a file.
#![tactic(auto)]

pub mod opening;
pub mod outcome;
pub mod runs;
