//! The command `lint`: whether each goal of a project has a plan that covers it, from the files to the answer and its status.
//!
//! May stand on: asl_term, asl_beliefs, asl_cycle, asl_lint, mas_world, env_file, mas_io, mas_project, mas_top
//!
//! Must not: run an agent, touch a real file, start a thread.
#![tactic(auto)]

pub mod linting;
pub mod texts;
