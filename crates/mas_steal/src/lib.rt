//! A whole run of a platform by many workers, each with a deque of agents of its own, from which idle workers steal.
//!
//! May stand on: asl_term, mas_mind, mas_world, mas_board, mas_core, mas_baton, mas_pool, mas_steal, the kit's `crossbeam_queue`, `crossbeam_deque`
//!
//! Must not: think while it holds the board, know of AgentSpeak, start a thread of its own, open a file.
#![tactic(auto)]

pub mod journey;
pub mod shifts;
pub mod steal;
