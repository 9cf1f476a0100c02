//! How large the trees of an agent may be.

/// The most nodes of a term, a literal or a formula.
pub const MOST_NODES: u64 = 10_000;

/// The most levels of a term, a literal or a formula.
pub const MOST_LEVELS: u64 = 250;
