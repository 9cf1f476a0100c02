//! The rows for the first formula of the current stack, and for what is left of the stack.
//!
//! May stand on: asl_term, asl_unify, asl_beliefs, asl_resolve, asl_intend, asl_exec
//!
//! Must not: choose a plan, carry out an action, send a message, print.
#![tactic(auto)]

pub mod believing;
pub mod clear;
pub mod exec;
pub mod goals;
pub mod said;
