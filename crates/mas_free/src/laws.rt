//! What the free machine tells of runs.

ghost use Rattle.mas_free.specs.Covers.{TurnsMove, CoversRuns, ClosedCovers};

use crate::steady::Steady;

/// Each turn of the platform is one move of the free machine, by the same agent, or none.
pub fn turns_move<M: Steady>()
    ensures { TurnsMove M.kind }
{}

/// Every run that ends, under whatever limits, comes to what the free machine comes to at some rest, but for runs of which some agent had to leave for
/// its limit of cycles. So one of the states that no move leaves, but for states like them, is such a rest.
pub fn covers_runs<M: Steady>()
    ensures runs { CoversRuns M.kind }
    ensures closed { ClosedCovers M.kind }
{}
