//! A test artifact over the calls of a world, and tests of artifacts that act and of artifacts that are dropped.
//!
//! May stand on: asl_term, mas_mind, mas_world, env_file
//!
//! Must not: serve a crate that is no test, start a thread, open a file.
#![tactic(auto)]

#[cfg(test)]
mod acting;
#[cfg(test)]
mod going;
pub mod pings;
