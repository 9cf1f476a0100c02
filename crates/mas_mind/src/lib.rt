//! The trait `Mind`: what goes in and out of a mind, its promises, and what a platform may know of it.
//!
//! May stand on: asl_term
//!
//! Must not: know how a mind thinks, start a thread, wait.
#![tactic(auto)]

pub mod copying;
pub mod limits;
pub mod mind;
pub mod thinking;
