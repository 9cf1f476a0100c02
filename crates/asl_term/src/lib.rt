//! Lists, lists with room kept in advance, boxes, and the trees of agents: their measures, comparisons, copies, variables and texts. Lists of names.
//!
//! May stand on: the kit's `indexmap`
//!
//! Must not: unify or evaluate terms, know of a search or a cycle, start a thread, read or write a file.
#![tactic(auto)]

pub mod boxed;
pub mod compare;
pub mod compare_expr;
pub mod copying;
pub mod expr_measure;
pub mod limits;
pub mod measure;
pub mod name;
pub mod names;
pub mod printing;
pub mod printing_expr;
pub mod room;
pub mod sequence;
pub mod syntax;
pub mod variables;
