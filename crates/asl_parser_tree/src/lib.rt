//! The tokens of a clause as the grammar sees them, the limits, the meanings of expressions, and what is kept of these.
//!
//! May stand on: asl_term, asl_lexer
//!
//! Must not: change what it is lent, start a thread, read or write a file, print.
#![tactic(auto)]

pub mod bounded;
pub mod conjuncts;
pub mod held;
pub mod leaves;
pub mod lexeme;
pub mod limits;
pub mod making;
pub mod meaning;
pub mod parts;
pub mod plain;
