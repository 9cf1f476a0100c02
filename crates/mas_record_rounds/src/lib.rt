//! The rounds of a recorded run: agents with their tickets, minds and thoughts, dealt in shares. The shares make their rounds side by side until
//! every agent has left.
//!
//! May stand on: asl_term, mas_mind, mas_world, mas_board, mas_core, mas_io, mas_record, the kit's `crossbeam_queue`, `atomic_table`
//!
//! Must not: think while it holds the board, know of AgentSpeak, name a real file, print.
#![tactic(auto)]

pub mod dealing;
pub mod round;
pub mod rounds;
pub mod share;
pub mod sharer;
mod step;
