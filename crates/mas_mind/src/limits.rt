//! How long a mind may go on, and how long it may search.

/// The most cycles of an agent in a run.
pub const MOST_CYCLES: u64 = 1_000_000;

/// The most cycles of all agents of a run together.
pub const MOST_CYCLES_TOGETHER: u64 = 2_000_000;

/// The most heads of beliefs and rules that one search tries.
pub const MOST_TRIES: u64 = 10_000_000;
