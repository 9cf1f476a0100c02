//! What is told of a run whose report is given: what an agent has in mind after the first turns, a page of the run with what changed in minds, and what the
//! run dropped, what the world did not do, and which searches used up their budget.
//!
//! May stand on: asl_term, asl_print, asl_plans, asl_intend, asl_exec, asl_cycle, mas_mind, mas_world, mas_board, mas_core, mas_io, mas_report, mas_top,
//! chart, look
//!
//! Must not: touch a real file, start a thread, write to a sink.
#![tactic(auto)]

pub mod agent;
pub mod along;
pub mod changes;
pub mod drops;
pub mod entries;
pub mod fallen;
pub mod files;
pub mod html;
pub mod lines;
pub mod look;
pub mod marks;
pub mod reasons;
pub mod stacks;
pub mod telling;
