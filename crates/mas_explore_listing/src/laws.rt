//! What answers say of runs.

ghost use Rattle.mas_explore_listing.specs.Questions.{HoldsOfRuns, FailsInRun};

use mas_free::steady::Steady;

/// Where a list is whole and answers that a claim holds, it holds of every run that ends every agent and cuts none off, under whatever limits. Where an
/// outcome speaks against it, that outcome has a run.
pub fn answers_hold<M: Steady>()
    ensures holds { HoldsOfRuns M.kind }
    ensures fails { FailsInRun M.kind }
{}
