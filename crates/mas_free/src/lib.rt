//! The free machine: what agents do, whatever the schedule. What comes of a run, how it is written, and the law that every end of a run is an
//! end of the free machine.
//!
//! May stand on: asl_term, mas_mind, mas_world, mas_board, mas_core, mas_report
//!
//! Must not: make a move, know of AgentSpeak, start a thread, read or write a file.
#![tactic(auto)]

pub mod laws;
pub mod outcome;
pub mod steady;
pub mod view;
