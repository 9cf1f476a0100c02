//! The internal actions of the language: their names, how many arguments each takes, and what each is for.
//!
//! May stand on: asl_term
//!
//! Must not: do what an action does, know what its arguments are.
#![tactic(auto)]

pub mod action;
pub mod named;
