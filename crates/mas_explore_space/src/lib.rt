//! The states of a search: rows of numbers, by which minds, worlds, boxes and outs are known again; and steps that are computed once and remembered.
//!
//! May stand on: asl_term, mas_mind, mas_world, mas_board, mas_core, mas_report, mas_free, mas_explore
//!
//! Must not: know of AgentSpeak, make a turn of the platform, start a thread, wait, read or write a file.
#![tactic(auto)]

pub mod boxes;
pub mod carrying;
pub mod held;
pub mod moving;
pub mod opened;
pub mod plan;
pub mod row;
pub mod settling;
pub mod states;
pub mod texts;
pub mod thinking;
