//! Laws: what the reader makes of an agent's source is as the laws of lint ask, and where lint says yes of a project, no run of it has an event of a
//! goal for which no plan is relevant.
//!
//! May stand on: asl_term, asl_lexer, asl_parser, asl_print, asl_unify, asl_beliefs, asl_index, asl_resolve, asl_stdlib, asl_plans, asl_intend,
//! asl_fail, asl_exec, asl_kqml, asl_goals, asl_cycle, asl_lint, mas_mind, mas_world, env_file, mas_board, mas_core, mas_io, mas_project, mas_report,
//! mas_top
//!
//! Must not: hold code that a program needs, open a file, print, start a thread.
#![tactic(auto)]

pub mod projects;
pub mod readers;
pub mod runs;
