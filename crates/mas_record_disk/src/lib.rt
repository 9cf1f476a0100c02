//! The trait `Disk`: files by their names, of which one is picked, read, written, cut and synced, and what a crash may leave of them. `Watched` is
//! any disk together with how it was at a moment of the past.
//!
//! May stand on: asl_term, mas_io
//!
//! Must not: open a real file, know of turns, start a thread, wait.
#![tactic(auto)]

pub mod disk;
pub mod watch;
