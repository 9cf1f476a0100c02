//! The start of all runs of a project, from what its files describe: its world and its agents, opened afresh as often as they are asked for.
//!
//! May stand on: asl_term, asl_beliefs, asl_exec, asl_resolve, asl_cycle, mas_mind, mas_world, mas_report, mas_top, mas_free, mas_explore,
//! mas_explore_agent
//!
//! Must not: read a file, make a turn, search, print.
#![tactic(auto)]

pub mod agents;
pub mod copies;
pub mod kinds;
pub mod origin;
pub mod worlds;
