//! What changed in the minds of agents, line by line, to stand beside the lines of a report.

/// What a line of a change is.
#[derive(Clone, Copy)]
pub enum ChangeSign {
    /// The head of a part of the mind, as it is after the change.
    Part,
    Gone,
    New,
}

/// A line of what changed in the mind of an agent, counted from 0, in one of its cycles.
#[derive(Clone, Copy)]
pub struct MindLine<'a> {
    pub agent: usize,
    pub cycle: u64,
    /// The turn that ends the cycle; 0 where none does.
    pub ends: u64,
    /// The turn in which this changed.
    pub turn: u64,
    pub sign: ChangeSign,
    pub text: &'a [u8],
}

/// What is told of minds.
#[derive(Clone, Copy)]
pub struct Minds<'a> {
    /// By agent, and those of an agent by cycle.
    pub lines: &'a [MindLine<'a>],
    /// The first turn of which nothing is told; None where there is none.
    pub untold: Option<u64>,
}

/// Nothing is told of minds.
pub fn no_minds<'a>() -> Minds<'a> {
    Minds {
        lines: &[],
        untold: None,
    }
}
