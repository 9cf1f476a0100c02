//! The law that joins logs and runs: where a log leads from board to board and every mind follows its records, the run along the log has this board
//! and these minds.
//!
//! May stand on: asl_term, mas_mind, mas_world, mas_board, mas_core
//!
//! Must not: hold code that runs, know of AgentSpeak, take memory, print.
#![tactic(auto)]
