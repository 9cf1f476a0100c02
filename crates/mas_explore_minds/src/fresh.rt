//! Minds that are opened afresh.

ghost use Rattle.std.specs.Prelude.{◌≡◌, ◌-◌, List, length, slice_get, Some, IfOk};
ghost use Rattle.mas_mind.specs.Minds.{IsAgent};

use asl_term::sequence::Starved;
use mas_mind::thinking::Mind;
use std::alloc::Global;

/// The minds of all agents as they are at the start, each of them as often as it is asked for.
pub trait Fresh<M: Mind> {
    ghost first: { Self → List M };

    /// The number of agents.
    fn agents(&self) -> u32
        ensures { result ≡ length (first self.now) };

    /// The mind of the agent of this number.
    fn mind(&self, alloc: Global, a: u32) -> Result<M, Starved>
        requires { IsAgent (length (first self.now)) a }
        ensures { IfOk result (λ m. slice_get (first self.now) (a - 1) ≡ Some m) };
}
