//! Laws of the runs of the platform over any `Mind`: the lead of one agent over another, the order of mail, agents that are quiet, and the number of
//! turns.
//!
//! May stand on: asl_term, mas_mind, mas_world, mas_board, mas_core
//!
//! Must not: hold code that runs, know of AgentSpeak, take memory, print.
#![tactic(auto)]

pub mod endings;
pub mod lead;
pub mod mail;
pub mod quiet;
