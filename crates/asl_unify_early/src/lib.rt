//! Early answers of `asl_unify`, before a term is built, renamed or copied: relations of numbers, operations in goals, heads that
//! clash or bind alone, and literals without an operation.
//!
//! May stand on: asl_term, asl_unify
//!
//! Must not: answer otherwise than `asl_unify`, change what it is lent, start a thread, read or write a file.
#![tactic(auto)]

pub mod clashes;
pub mod goals;
pub mod heads;
pub mod numbers;
pub mod plain;
