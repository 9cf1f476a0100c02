//! The top call of `jasonlook`, from its words, which it takes apart, and the files to the output and how it ended.
//!
//! May stand on: asl_term, mas_world, mas_io, mas_report, mas_top, look, chart, program_words, the kit's `clap`
//!
//! Must not: touch a real file or standard output, know how a command finds what it tells.
#![tactic(auto)]

pub mod apps;
pub mod dropping;
pub mod ends;
pub mod input;
pub mod looking;
pub mod minding;
pub mod paging;
pub mod reports;
pub mod taken;
pub mod top;
pub mod turns;
pub mod words;
