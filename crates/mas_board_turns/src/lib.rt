//! The record of a turn; a log of turns, what it makes of a board, and what a mind makes of its records. The rule of a board in a queue, whatever
//! lies there beside it: what each agent that takes the board knows of it.
//!
//! May stand on: asl_term, mas_mind, mas_world, mas_board, the kit's `crossbeam_queue`
//!
//! Must not: make a turn, take memory of its own, start a thread, wait.
#![tactic(auto)]

pub mod turn;
pub mod view;
