//! A site during its run, a turn a call; its rounds, over any carrier of messages; and two sites that make their rounds in turns until both have
//! ended. Laws of the rounds.
//!
//! May stand on: asl_term, mas_mind, mas_world, mas_board, mas_core, mas_sites
//!
//! Must not: start a thread, wait, know of AgentSpeak, open a file.
#![tactic(auto)]

pub mod laws;
pub mod rounds;
pub mod runs;
pub mod stage;
