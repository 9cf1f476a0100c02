//! Tables in which values are known again by their content, and have numbers. Answers that are remembered. Values that are held by what befell them.
//!
//! May stand on: asl_term, mas_mind
//!
//! Must not: call a mind, start a thread, wait, read or write a file.
#![tactic(auto)]

pub mod answers;
pub mod history;
pub mod known;
pub mod mixing;
pub mod table;
