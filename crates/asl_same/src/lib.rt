//! Whether what two agents are made of is the same: their plans and rules, their events and stacks, and the names that they know.
//!
//! May stand on: asl_term, asl_unify, asl_plans, asl_intend
//!
//! Must not: change what it compares, know of cycles or of beliefs, print.
#![tactic(auto)]

pub mod agendas;
pub mod lists;
pub mod names;
pub mod plans;
pub mod stacks;
