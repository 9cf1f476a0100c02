//! An agent: its configuration, the steps of its cycle, its trace, and `Agent`, which is a `Mind`. Laws of its cycles.
//!
//! May stand on: asl_term, asl_unify, asl_beliefs, asl_index, asl_resolve, asl_stdlib, asl_plans, asl_intend, asl_fail, asl_exec, asl_kqml,
//! asl_goals, mas_mind
//!
//! Must not: carry out actions on a world, deliver messages, start a thread, print.
#![tactic(auto)]

pub mod agent;
pub mod config;
pub mod cycle;
pub mod kept;
pub mod laws;
pub mod lines;
pub mod opening;
pub mod rows;
pub mod steps;
pub mod trace;
