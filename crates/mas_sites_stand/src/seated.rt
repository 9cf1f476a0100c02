//! What sits in the place of an agent.

use crate::stand::Stand;
use asl_term::sequence::Starved;
use asl_term::syntax::Text;
use mas_mind::mind::{Feedback, Input, Thought};
use mas_mind::thinking::Mind;
use std::alloc::Global;

/// A mind of the agent's own, or a stand in its place.
pub enum Seated<M: Mind> {
    Own(M),
    Stand(Stand),
}

impl<M: Mind> Drop for Seated<M> {
    fn drop(self) {
        match self {
            Seated::Own(mind) => drop(mind),
            Seated::Stand(stand) => drop(stand),
        }
    }
}

impl<M: Mind> Mind for Seated<M> {
    ghost use Rattle.mas_sites_stand.specs.Seats.{seated};
    ghost use Rattle.mas_sites_stand.specs.inner.Seated as laws;

    ghost kind = { seated M.kind };

    ghost quiet_sends_nothing = { laws.quiet_sends_nothing M.kind M.quiet_sends_nothing };

    ghost quiet_again = { laws.quiet_again M.kind M.quiet_again };

    ghost awaits_after = { laws.awaits_after M.kind M.awaits_after };

    ghost awaits_no_more = { laws.awaits_no_more M.kind M.awaits_no_more };

    ghost goes_on = { laws.goes_on M.kind M.goes_on };

    ghost is_told = { laws.is_told M.kind M.is_told };

    fn think(&mut self, alloc: Global, input: Input) -> Result<Thought, Starved> {
        match self {
            Seated::Own(mind) => mind.think(alloc, input),
            Seated::Stand(stand) => stand.think(alloc, input),
        }
    }

    fn took(&mut self, feedback: Feedback) {
        match self {
            Seated::Own(mind) => mind.took(feedback),
            Seated::Stand(stand) => stand.took(feedback),
        }
    }

    fn lines(&self) -> &Text {
        match self {
            Seated::Own(mind) => mind.lines(),
            Seated::Stand(stand) => stand.lines(),
        }
    }
}
