//! The states of the free machine that a search has met.

ghost use Rattle.std.specs.Prelude.{◌≡◌, ◌<◌, ◌^◌, List, length, IfOk};
ghost use Rattle.mas_mind.specs.Minds.{IsAgent};
ghost use Rattle.mas_free.specs.Free.{Free};
ghost use Rattle.mas_free.specs.Covers.{Start};
ghost use Rattle.mas_explore.specs.Searches as spec;

use crate::listing::Plan;
use asl_term::sequence::Starved;
use asl_term::syntax::Text;
use mas_free::steady::Steady;
use mas_free::view::View;
use mas_mind::limits::MOST_CYCLES;
use std::alloc::Global;

/// The most states that are followed, so that no mind has made more cycles than a mind can make.
pub const MOST_STATES: u64 = MOST_CYCLES;

/// States by their numbers, from 0 in the order in which they were met. How they are held, and how one is known again, is left open.
pub trait Space<M: Steady> {
    ghost start: { Self → Start M };

    ghost met: { Self → List (Free M) };

    /// The number of agents, each of which has a stage in each state.
    fn agents(&self) -> u32
        ensures number { result ≡ length (start self.now).names }
        ensures few { result < 2 ^ 16 }
        ensures sized { spec.AreSized (length (start self.now).names) (met self.now) };

    /// How many states were met.
    fn count(&self) -> u64
        ensures { result ≡ length (met self.now) };

    /// Follows the move of an agent from a state, where it has one: what it leads to, or a state that is like it in this view, is one of those that were
    /// met, now or before. Tells whether it has one. Of no more states than may be followed.
    fn follow(&mut self, alloc: Global, state: u64, a: u32, view: View) -> Result<bool, Starved>
        requires there { state < length (met self.old) }
        requires short { state < spec.most_states }
        requires agent { IsAgent (length (start self.old).names) a }
        ensures start { start self.new ≡ start self.old }
        ensures followed { IfOk result (spec.HasFollowed M.kind view (met self.old) (met self.new) state a) };

    /// The outcome of a state where it is at rest.
    fn outcome(&self, alloc: Global, state: u64, view: View) -> Result<Text, Starved>
        requires { state < length (met self.now) }
        ensures { IfOk result (spec.IsOutcomeAt M.kind view (met self.now) state) };

    /// A plan of a run that may come to a state at rest. Nothing is said of it: whoever takes it makes the run.
    fn plan(&self, alloc: Global, state: u64) -> Result<Plan, Starved>
        requires { state < length (met self.now) };
}
