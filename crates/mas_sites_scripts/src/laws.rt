//! Laws of sites.

ghost use Rattle.mas_sites_scripts.specs.Laws.{ScriptsMayGrow, TurnsFold};

use mas_mind::thinking::Mind;

/// A site's run so far does not look past the scripts that its stands were given: with a longer script it is the same.
pub fn scripts_may_grow<M: Mind>()
    ensures { ScriptsMayGrow M.kind }
{}

/// The turns of two sites on one thread are those of the fold.
pub fn turns_fold<M: Mind>()
    ensures { TurnsFold M.kind }
{}
