//! How a worker waits for what another one has in hand: it looks again at once, and then it sleeps, longer each time.
//!
//! May stand on: nothing but std
//!
//! Must not: know what it waits for, start a thread.
#![tactic(auto)]

pub mod patience;
