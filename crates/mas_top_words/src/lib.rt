//! The request that the words of a command line make: command, names and options. The kit's `clap` takes plain words apart.
//!
//! May stand on: asl_term, mas_mind, mas_report, program_words, the kit's `clap`
//!
//! Must not: open a file, print, run an agent, start a thread.
#![tactic(auto)]

pub mod apps;
pub mod asked;
pub mod numbers;
pub mod reading;
pub mod said;
pub mod table;
pub mod taken;
pub mod values;
