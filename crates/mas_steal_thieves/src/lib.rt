//! The agents dealt to the workers' deques in blocks, worked at in threads, and gathered again, each once and in no order.
//!
//! May stand on: asl_term, mas_board, mas_pool, mas_steal, the kit's `crossbeam_queue`, `crossbeam_deque`
//!
//! Must not: know what a turn with an agent does, know of boards or minds, open a file.
#![tactic(auto)]

pub mod closing;
pub mod opening;
pub mod running;
pub mod working;
