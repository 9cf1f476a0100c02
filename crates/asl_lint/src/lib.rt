//! The verdict of lint on a project: whether each initial goal, each goal of a plan and each goal that is sent has a plan that covers it, and no
//! message brings plans or asks for them.
//!
//! May stand on: asl_term, asl_unify
//!
//! Must not: run an agent, change what it is lent, start a thread, read or write a file.
#![tactic(auto)]

pub mod covers;
pub mod goals;
pub mod items;
pub mod lint;
pub mod theorems;
