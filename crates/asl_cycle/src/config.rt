//! What one step of a cycle hands to the next.

use asl_intend::agenda::Event;
use asl_intend::entry::Means;
use asl_plans::library::Choices;
use asl_term::syntax::Literal;
use asl_unify::subst::Subst;

/// An event with its relevant plans, and the number by which these are renamed.
#[derive(Drop)]
pub struct Related {
    pub event: Event,
    pub choices: Choices,
    pub number: u64,
}

/// An event with the means that were chosen for it, their solution and its next fresh number.
#[derive(Drop)]
pub struct Intended {
    pub event: Event,
    pub means: Means,
    pub subst: Subst,
    pub next: u64,
}

/// What the search for an applicable plan hands on.
#[derive(Drop)]
pub enum Applied {
    Plan(Intended),
    Nothing,
    Spent,
}

/// Where a row for the current stack leads.
#[derive(Drop)]
pub enum After {
    /// To Clr.
    Clears,
    /// To the end of the cycle.
    Ends,
    /// To its end, with an action on the world.
    Acts(Literal),
    /// To its end by a spent budget.
    Spends,
}
