//! Runs of the platform, by their plans.

ghost use Rattle.std.specs.Prelude.{IfOk, IfSome};
ghost use Rattle.mas_free.specs.Covers.{Start};
ghost use Rattle.mas_explore.specs.Listings as spec;

use crate::listing::Plan;
use asl_term::sequence::Starved;
use asl_term::syntax::Text;
use mas_free::steady::Steady;
use mas_free::view::View;
use std::alloc::Global;

/// Runs from one start, as often as they are asked for.
pub trait Runs<M: Steady> {
    ghost start: { Self → Start M };

    /// The outcome of a run along a plan, where its limits are those of some board, its schedule is legal and ends every agent, and none of them had to
    /// leave for its limit of cycles.
    fn outcome(&self, alloc: Global, plan: &Plan, view: View) -> Result<Option<Text>, Starved>
        ensures { IfOk result (λ o. IfSome o (spec.IsRunOf M.kind view (start self.now) plan.now)) };
}
