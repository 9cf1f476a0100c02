//! A stand: the mind in the place of an agent that lives elsewhere, and what sits in the place of any agent, a stand or a mind of its own.
//!
//! May stand on: asl_term, mas_mind
//!
//! Must not: know of AgentSpeak, start a thread, wait, open a file.
#![tactic(auto)]

pub mod opening;
pub mod seated;
pub mod stand;
