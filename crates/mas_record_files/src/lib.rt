//! The disks that there are: one in memory, of which everything is known and which can be crashed, and the files of the machine, of whose bytes
//! nothing is known.
//!
//! May stand on: asl_term, mas_io, mas_record
//!
//! Must not: know of journals or turns, start a thread, print.
#![tactic(auto)]

pub mod change;
pub mod files;
pub mod memory;
pub mod real;
pub mod replay;
