//! Minds that go on alike, known again: of those that nothing tells apart one stands for all.
//!
//! May stand on: asl_term, mas_mind, mas_free, mas_explore
//!
//! Must not: know of AgentSpeak, of worlds and boards, start a thread, wait, read or write a file.
#![tactic(auto)]

pub mod likened;
pub mod likes;
pub mod lines;
