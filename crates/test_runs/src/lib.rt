//! Tests of what no case can say: laws, runs with an artifact of one's own, what goes on in a run, real files and standard output.
//!
//! May stand on: asl_term, asl_parser, mas_mind, mas_world, env_file, mas_artifact, mas_pool, mas_io, mas_record, mas_project, mas_report, mas_top,
//! test
//!
//! Must not: serve another crate, repeat what a case can say, leave a file behind.
#![tactic(auto)]

#[cfg(test)]
mod calling;
#[cfg(test)]
mod edge;
#[cfg(test)]
mod laws;
#[cfg(test)]
mod meanwhile;
#[cfg(test)]
mod objects;
#[cfg(test)]
mod ticking;
