//! What a command of `jasonlook` answers: an output, or why there is none.
//!
//! May stand on: asl_term, mas_top
//!
//! Must not: read a file, print, know what a command does.
#![tactic(auto)]

pub mod answer;
