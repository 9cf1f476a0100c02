//! The runs of two sites that make their rounds in turns.

ghost use Rattle.std.specs.Prelude.{IfOk};
ghost use Rattle.mas_core.specs.Fits.{Start};
ghost use Rattle.mas_sites_stand.specs.Seats.{seated};
ghost use Rattle.mas_sites_scripts.specs.Sites.{AreFresh, before, after};
ghost use Rattle.mas_sites_scripts.specs.Ways.{AreWays};
ghost use Rattle.mas_sites_rounds.specs.Between.{AreApart};
ghost use Rattle.mas_sites_rounds.specs.Rounds as spec;

use crate::rounds::{BothSites, take_turns};
use crate::stage::{Closed, SiteState};
use asl_term::sequence::{Seq, Starved};
use mas_board::board::Board;
use mas_mind::mind::Messages;
use mas_mind::thinking::Mind;
use mas_sites_scripts::ways::open_ways;
use mas_sites_stand::seated::Seated;
use mas_world::artifact::Artifact;
use std::alloc::Global;

/// A site before its run: its board, and what sits in the places of the agents.
#[derive(Drop)]
pub struct Site<M: Mind, A: Artifact> {
    pub board: Board<A>,
    pub minds: Seq<Seated<M>>,
}

/// What the runs of two sites come to, and of each agent the messages that are left on the way.
#[derive(Drop)]
pub struct Runs<M: Mind, A: Artifact> {
    pub one: Closed<M, A>,
    pub two: Closed<M, A>,
    pub left: Seq<Messages>,
}

/// Site 1 makes a round, then site 2, until both have ended.
pub fn run_in_turns<M: Mind, A: Artifact>(
    alloc: Global,
    one: Site<M, A>,
    two: Site<M, A>,
) -> Result<Runs<M, A>, Starved>
    requires one { Start (seated M.kind) one.board one.minds }
    requires two { Start (seated M.kind) two.board two.minds }
    requires fresh { AreFresh one.minds × AreFresh two.minds }
    requires apart { AreApart one.minds two.minds }
    ensures run { IfOk result (λ r. spec.RanInTurns M.kind
        (before one.board.state one.minds) (before two.board.state two.minds)
        (after r.one.board r.one.minds r.one.scripts) (after r.two.board r.two.minds r.two.scripts) r.left) }
    ensures ways { IfOk result (λ r. AreWays r.left) }
{
    one.board.holds();
    two.board.holds();
    let ways = open_ways(alloc, one.board.names().len())?;
    let one = SiteState::open(alloc, one.board, one.minds)?;
    let two = SiteState::open(alloc, two.board, two.minds)?;
    let both = take_turns(alloc, BothSites { one, two, ways })?;
    let BothSites { one, two, ways } = both;
    Ok(Runs {
        one: one.close(),
        two: two.close(),
        left: ways.into_boxes(),
    })
}
