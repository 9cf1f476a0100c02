//! A task: an agent on its way to or from a worker, with its seat and its mind, and one cycle of it. A gate is called before and after its thinking.
//!
//! May stand on: asl_term, mas_mind, mas_world, mas_board, mas_baton, mas_pool
//!
//! Must not: think while it holds the board, start a thread, know of AgentSpeak, open a file.
#![tactic(auto)]

pub mod gate;
pub mod going;
