//! Whole recorded runs over any mind, artifact and disk, from their beginning or on from the turns that a file holds.
//!
//! May stand on: asl_term, mas_mind, mas_world, mas_board, mas_core, mas_io, mas_record, the kit's `crossbeam_queue`
//!
//! Must not: know of AgentSpeak, name a real file, start a thread of its own, print.
#![tactic(auto)]

pub mod fault;
pub mod record;
pub mod run;
