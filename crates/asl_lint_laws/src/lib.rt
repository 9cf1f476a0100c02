//! Laws of agents all of whose goals are covered: what becomes of a covered goal stays covered, and a plan is relevant for its event. Rows, messages
//! and internal actions leave an agent so; no cycle of it lacks a relevant plan. The variables of a solution have numbers below its next fresh
//! number.
//!
//! May stand on: asl_term, asl_lexer, asl_parser, asl_print, asl_unify, asl_beliefs, asl_index, asl_resolve, asl_stdlib, asl_plans, asl_intend,
//! asl_fail, asl_exec, asl_kqml, asl_goals, asl_cycle, asl_lint, mas_mind
//!
//! Must not: hold code that runs, take memory, print, read or write a file.
#![tactic(auto)]

pub mod cycles;
pub mod deeds;
pub mod goals;
pub mod keeping;
pub mod laws;
pub mod mail;
pub mod opening;
pub mod rows;
