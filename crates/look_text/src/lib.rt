//! The texts of what an agent is made of: its rules and plans, its events and stacks.
//!
//! May stand on: asl_term, asl_print, asl_unify, asl_plans, asl_intend, asl_fail, mas_mind, look
//!
//! Must not: run an agent, change what it is lent, start a thread, read or write a file.
#![tactic(auto)]

pub mod agendas;
pub mod plans;
pub mod stacks;
