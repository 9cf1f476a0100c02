//! Tables of places in a list: they find a place by the frame of what stands there (sign, functor, number of arguments) or by a number made of it.
//!
//! May stand on: asl_term, asl_unify
//!
//! Must not: keep the items whose places they file, know of beliefs or plans, start a thread, read or write a file.
#![tactic(auto)]

pub mod firsts;
pub mod frames;
pub mod keys;
pub mod prints;
