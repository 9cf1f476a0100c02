//! A run along the schedule of its report: the text of an agent's part of it after some of its turns, which failures its agents show, and the texts of
//! their minds before some of the turns, over any mind that has such texts.
//!
//! May stand on: asl_term, mas_mind, mas_world, mas_board, mas_core, mas_report, look
//!
//! Must not: know of AgentSpeak, open a file, start a thread, print.
#![tactic(auto)]

pub mod along;
pub mod before;
pub mod falling;
pub mod mind;
pub mod steps;
pub mod texts;
pub mod view;
