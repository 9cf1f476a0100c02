//! A journal: the turns of a run in the picked file of a disk, each of which outlives a crash once its append has succeeded. Its reading gives the
//! turns of a file, whatever a crash made of the end.
//!
//! May stand on: asl_term, mas_io, mas_record
//!
//! Must not: know of boards or minds, name a real file, start a thread, wait.
#![tactic(auto)]

pub mod back;
pub mod journal;
pub mod laws;
pub mod reading;
mod through;
