//! The shelf that files come from and the sink that texts go to, as traits, in memory and over real files and standard output, and the writing of
//! whole texts.
//!
//! May stand on: asl_term
//!
//! Must not: write a file, know of agents or projects, start a thread, wait.
#![tactic(auto)]

pub mod calls;
pub mod memory;
pub mod real;
pub mod shelf;
pub mod sink;
pub mod sure;
pub mod writing;
