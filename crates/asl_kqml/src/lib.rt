//! Speech acts: what messages are about, and the row that a received message makes.
//!
//! May stand on: asl_term, asl_print, asl_unify, asl_beliefs, asl_resolve, asl_plans, asl_intend, asl_fail, asl_exec, mas_mind
//!
//! Must not: deliver its reply, start a thread, wait, read or write a file.
#![tactic(auto)]

pub mod asks;
pub mod believing;
pub mod content;
pub mod goals;
pub mod how;
pub mod laws;
pub mod receive;
pub mod replies;
pub mod sourced;
pub mod took;
