//! Tests of runs of two sites by one worker and by two: a message arrives or is left, and of two messages, one from each site, at least one arrives.
//!
//! May stand on: asl_term, mas_mind, mas_world, mas_artifact, mas_board, mas_core, mas_sites
//!
//! Must not: serve another crate, touch a real file, read AgentSpeak.
#![tactic(auto)]

#[cfg(test)]
mod runs;
