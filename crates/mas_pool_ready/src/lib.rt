//! A queue of numbered items, from which any worker takes the first, with the law that each item comes back once.
//!
//! May stand on: asl_term, mas_board, the kit's `crossbeam_queue`
//!
//! Must not: know what an item is, start a thread, open a file.
#![tactic(auto)]

pub mod ends;
pub mod queue;
pub mod rule;
