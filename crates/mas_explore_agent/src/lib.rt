//! An agent of AgentSpeak as a mind that a quiet cycle leaves as it was, and which can be compared with another; and the laws that say so.
//!
//! May stand on: asl_term, asl_unify, asl_beliefs, asl_resolve, asl_plans, mas_mind, asl_intend, asl_same, asl_exec, asl_cycle, mas_free,
//! mas_explore
//!
//! Must not: know of files, of worlds or of other agents than by their names, make a turn, take memory but for the agent that it opens and to compare
//! agents, print.
#![tactic(auto)]

pub mod agent;
pub mod laws;
pub mod same;
