//! Laws of the rounds of sites.

ghost use Rattle.mas_sites_rounds.specs.Laws.{RoundsFold, RoundsKeepTally, NoSiteEndsQuiet};

use mas_mind::thinking::Mind;

/// With what is on the way in lists, the first goes of a round are those of the fold.
pub fn rounds_fold<M: Mind>()
    ensures { RoundsFold M.kind }
{}

/// A round of both sites keeps, of each agent, what the stands at its site took of it, what came to the other site and what
/// is on the way in step.
pub fn rounds_keep_tally<M: Mind>()
    ensures { RoundsKeepTally M.kind }
{}

/// No site ends for quiet: the stand of an agent that lives elsewhere never does, and as long as it has not left no other
/// agent can.
pub fn no_site_ends_quiet<M: Mind>()
    ensures { NoSiteEndsQuiet M.kind }
{}
