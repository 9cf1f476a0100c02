//! No agent is far ahead of another.

ghost use Rattle.mas_core_laws.specs.Lead.{NeverFarAhead};

use mas_mind::thinking::Mind;

/// After any run from the opening no agent that has not left is more than the lead ahead of another that has not left.
#[tactic(auto, using(crate::proofs::Leads::never_far_ahead))]
pub fn never_far_ahead<M: Mind>()
    ensures { NeverFarAhead M.kind }
{}
