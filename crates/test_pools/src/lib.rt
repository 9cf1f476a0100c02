//! Tests of runs of small minds by many workers: two agents that think at once, with either pool, one that is stolen, one that is too far ahead, and
//! one without memory.
//!
//! May stand on: asl_term, mas_mind, mas_world, mas_artifact, mas_board, mas_core, mas_pool, mas_steal
//!
//! Must not: serve a crate that is no test, touch a real file, read AgentSpeak.
#![tactic(auto)]

pub mod holding;
pub mod hungry;
#[cfg(test)]
mod runs;
