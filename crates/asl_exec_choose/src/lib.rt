//! The choice of a plan for an event: the first relevant plan for whose context a solution is found.
//!
//! May stand on: asl_term, asl_unify, asl_beliefs, asl_resolve, asl_plans, asl_intend, asl_exec
//!
//! Must not: change what it is lent, start a thread, read or write a file, print.
#![tactic(auto)]

pub mod choosing;
pub mod chosen;
