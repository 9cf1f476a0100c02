//! A start of runs, as often as it is asked for.

ghost use Rattle.std.specs.Prelude.{◌≡◌, ◌-◌, length, slice_get, Some, IfOk};
ghost use Rattle.mas_mind.specs.Minds.{IsAgent};
ghost use Rattle.mas_free.specs.Covers.{Start};
ghost use Rattle.mas_explore.specs.Origins as spec;

use asl_term::names::Names;
use asl_term::sequence::Starved;
use mas_free::steady::Steady;
use mas_world::artifact::Artifact;
use mas_world::world::World;
use std::alloc::Global;

/// What all runs begin with, opened afresh as often as it is wanted: nothing here can be copied, so who needs a second one asks again.
pub trait Origin<M: Steady, A: Artifact> {
    ghost start: { Self → Start M };

    /// The names of all agents.
    fn names(&self) -> &Names
        ensures names { result.now ≡ (start self.now).names }
        ensures origin { spec.IsOrigin M.kind (start self.now) };

    /// The world as it is at the start.
    fn world(&self, alloc: Global) -> Result<World<A>, Starved>
        ensures { IfOk result (λ w. w ≡ (start self.now).world) };

    /// The mind of the agent of this number as it is at the start.
    fn mind(&self, alloc: Global, a: u32) -> Result<M, Starved>
        requires { IsAgent (length (start self.now).names) a }
        ensures { IfOk result (λ m. slice_get (start self.now).minds (a - 1) ≡ Some m) };
}
