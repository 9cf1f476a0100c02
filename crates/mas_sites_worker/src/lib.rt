//! The run of one of two sites that run side by side, with its ends of the wires to the other.
//!
//! May stand on: asl_term, mas_mind, mas_world, mas_board, mas_core, mas_sites, the kit's `crossbeam_queue`
//!
//! Must not: look at the other site's board, start a thread, open a file, print.
#![tactic(auto)]

pub mod side;
