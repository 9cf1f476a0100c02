//! What the mains of programs share: the words of the command line, the line of a fault, and the texts of what clap took apart.
//!
//! May stand on: the kit's `clap`
//!
//! Must not: know what a word means, decide what is told.
#![tactic(auto)]

pub mod fault;
pub mod texts;
pub mod words;
