//! The scripts of stands and the messages between two sites: what a mind is given before a turn, and the trait `Carrier`. Its laws: a site's run is
//! one along whole scripts, and the turns of two sites on one thread are as the definitions make them.
//!
//! May stand on: asl_term, mas_mind, mas_world, mas_board, mas_core, mas_sites
//!
//! Must not: make a turn, start a thread, wait, open a file.
#![tactic(auto)]

pub mod carrier;
pub mod giving;
pub mod laws;
pub mod ways;
