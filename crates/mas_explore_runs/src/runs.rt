//! Runs from an origin, by their plans.

ghost use Rattle.std.specs.Prelude.{◌≡◌, true, false, IfOk, MatchOption};
ghost use Rattle.mas_free.specs.Outcome as outcomes;
ghost use Rattle.mas_explore.specs.Listings.{IsRunOf};
ghost use Rattle.mas_explore_runs.specs.Runs as spec;

use crate::opening::{are_limits, board_at_start, minds_at_start};
use crate::outcome::{is_uncut, outcome_of};
use asl_term::sequence::Starved;
use asl_term::syntax::Text;
use mas_core::replay::{PlayFault, replay};
use mas_core::robin::Done;
use mas_explore::listing::Plan;
use mas_explore::origin::Origin;
use mas_explore::runs::Runs;
use mas_free::steady::Steady;
use mas_free::view::View;
use mas_mind::thinking::Mind;
use mas_world::artifact::Artifact;
use std::alloc::Global;
use std::marker::PhantomData;

/// The outcome of a run that is done; None where some agent had to leave for the limit of cycles.
fn uncut_outcome<M: Mind, A: Artifact>(
    alloc: Global,
    done: Done<M, A>,
    view: View,
) -> Result<Option<Text>, Starved>
    ensures { let b = done.board.state in
        IfOk result (λ r. MatchOption r (outcomes.uncut b.seats ≡ false)
        (λ t. (outcomes.uncut b.seats ≡ true) × (t ≡ outcomes.outcome M.kind view (spec.platform_of b done.minds)))) }
{
    if !is_uncut(&done.board) {
        drop(done);
        return Ok(None);
    }
    let text = outcome_of(alloc, &done, view);
    drop(done);
    match text {
        Ok(text) => Ok(Some(text)),
        Err(starved) => Err(starved),
    }
}

/// The outcome of a run along a plan; None where there is no such run.
pub fn outcome_along<M: Steady, A: Artifact, O: Origin<M, A>>(
    alloc: Global,
    origin: &O,
    plan: &Plan,
    view: View,
) -> Result<Option<Text>, Starved>
    ensures { let s = O.start origin.now in
        IfOk result (λ r. MatchOption r (spec.HasNoRun M.kind view s plan.now) (IsRunOf M.kind view s plan.now)) }
{
    if !are_limits(origin.names().len(), plan.cycles, plan.lead) {
        return Ok(None);
    }
    let board = board_at_start(alloc, origin, plan.cycles, plan.lead)?;
    let minds = match minds_at_start(alloc, origin) {
        Ok(minds) => minds,
        Err(starved) => {
            drop(board);
            return Err(starved);
        }
    };
    match replay(alloc, board, minds, &plan.schedule) {
        Ok(done) => uncut_outcome(alloc, done, view),
        Err(PlayFault::Memory) => Err(Starved),
        Err(PlayFault::Illegal(_)) => Ok(None),
        Err(PlayFault::Unended(_)) => Ok(None),
    }
}

/// The runs from an origin.
#[derive(Drop)]
pub struct OriginRuns<'a, M: Steady, A: Artifact, O: Origin<M, A>> {
    origin: &'a O,
    minds: PhantomData<M>,
    artifacts: PhantomData<A>,
}

impl<'a, M: Steady, A: Artifact, O: Origin<M, A>> OriginRuns<'a, M, A, O> {
    /// The runs from this origin.
    pub fn of(origin: &'a O) -> OriginRuns<'a, M, A, O>
        ensures { result.origin.now ≡ origin.now }
    {
        OriginRuns {
            origin,
            minds: PhantomData,
            artifacts: PhantomData,
        }
    }
}

impl<'a, M: Steady, A: Artifact, O: Origin<M, A>> Runs<M> for OriginRuns<'a, M, A, O> {
    ghost start = { λ r. O.start r.origin.now };

    fn outcome(&self, alloc: Global, plan: &Plan, view: View) -> Result<Option<Text>, Starved> {
        outcome_along::<M, A, O>(alloc, self.origin, plan, view)
    }
}
