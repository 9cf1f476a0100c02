//! Tests of recorded runs of small minds: each call of the disk fails once, a crash keeps some of the changes, and the run goes on. One disk counts
//! its syncs while minds think.
//!
//! May stand on: asl_term, mas_mind, mas_world, mas_artifact, mas_board, mas_core, mas_io, mas_record
//!
//! Must not: serve a crate that is no test, touch a real file, read AgentSpeak.
#![tactic(auto)]

pub mod counting;
#[cfg(test)]
mod runs;
pub mod watching;
