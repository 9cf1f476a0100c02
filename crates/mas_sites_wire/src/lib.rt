//! A wire: a queue of one agent's messages on their way to the other site, with its rule. The wires between two sites that run side by side are
//! opened and used here, and what is left on them is read.
//!
//! May stand on: asl_term, mas_mind, mas_world, mas_board, mas_core, mas_sites, the kit's `crossbeam_queue`
//!
//! Must not: make a turn, start a thread, open a file.
#![tactic(auto)]

pub mod ends;
pub mod ferry;
pub mod left;
pub mod wire;
pub mod wires;
