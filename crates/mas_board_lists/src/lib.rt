//! Definitions and laws for the rules of queues: sums over lists, how often a number stands in a list, and beginnings of lists.
//!
//! May stand on: the kit's `crossbeam_queue`
//!
//! Must not: hold code that runs, take memory, know of boards or agents, start a thread.
#![tactic(auto)]
