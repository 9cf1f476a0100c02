//! A deque of agents for each worker, from which the others steal, the rule of a deque, the law over all deques, and the loop of one worker.
//!
//! May stand on: asl_term, mas_board, mas_patience, mas_pool, the kit's `crossbeam_queue`, `crossbeam_deque`
//!
//! Must not: start a thread, know what a turn with an agent does, open a file.
#![tactic(auto)]

pub mod agent;
pub mod deque;
pub mod hand;
pub mod looks;
pub mod rule;
pub mod turns;
