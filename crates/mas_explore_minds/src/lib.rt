//! Minds of which none can be copied, held by what befell them: each has a number, and what it thinks is computed once and remembered.
//!
//! May stand on: asl_term, mas_mind, mas_explore
//!
//! Must not: know of worlds and boards, start a thread, wait, read or write a file.
#![tactic(auto)]

pub mod copies;
pub mod fresh;
pub mod heard;
pub mod minds;
