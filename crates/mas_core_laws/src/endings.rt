//! Every run ends.

ghost use Rattle.mas_core_laws.specs.Ends.{RunsEnd};

use mas_mind::thinking::Mind;

/// A run from the opening, by whatever numbers, has no more turns than two for each cycle that its agents may make, and one in which
/// each leaves.
#[tactic(auto, using(crate::proofs::Ends::runs_end))]
pub fn runs_end<M: Mind>()
    ensures { RunsEnd M.kind }
{}
