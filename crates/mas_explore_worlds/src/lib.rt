//! Worlds of which none can be copied, held by the actions that were done on the world of the start: each has a number.
//!
//! May stand on: asl_term, mas_mind, mas_world, mas_explore
//!
//! Must not: know of minds and boards, start a thread, wait, read or write a file.
#![tactic(auto)]

pub mod fresh;
pub mod worlds;
