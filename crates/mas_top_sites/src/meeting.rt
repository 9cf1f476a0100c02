//! The runs of two sites, from what their projects bring to what is written.

ghost use Rattle.std.specs.Prelude.{length, IfOk};
ghost use Rattle.asl_cycle.specs.Agent.{agent_kind};
ghost use Rattle.mas_core.specs.Fits.{Start};
ghost use Rattle.mas_sites_rounds.specs.Between.{AreApart};
ghost use Rattle.mas_report.specs.Limits.{IsFrom, IsWithin};
ghost use Rattle.mas_sites_scripts.specs.Sites.{AreFresh, before};
ghost use Rattle.mas_sites_stand.specs.Seats.{seated};
ghost use Rattle.mas_top_sites.specs.Opening.{CanMeet, at_one, at_two, site};
ghost use Rattle.mas_top_sites.specs.Pairs.{pair};
ghost use Rattle.mas_top_sites.specs.Texts as spec;

use crate::opening::{OpenedSites, open_both};
use crate::reading::Sides;
use crate::telling::text_of_both;
use asl_term::sequence::Starved;
use mas_mind::thinking::Mind;
use mas_report::options::Options;
use mas_report::output::Output;
use mas_sites::sites::run_sites;
use mas_sites_rounds::runs::Site;
use mas_world::artifact::Artifact;
use std::alloc::Global;
use std::sync::Wait;
use std::thread::Threads;

/// Runs two sites by so many workers, and tells of it.
fn run_told<R: Threads + Wait + Sync, M: Mind + Send, A: Artifact + Send>(
    rt: &R,
    alloc: Global,
    o: &Options,
    one: Site<M, A>,
    two: Site<M, A>,
    workers: u32,
) -> Result<Output, Starved>
    requires one { Start (seated M.kind) one.board one.minds }
    requires two { Start (seated M.kind) two.board two.minds }
    requires fresh { AreFresh one.minds × AreFresh two.minds }
    requires apart { AreApart one.minds two.minds }
    requires workers { IsFrom 1 2 workers }
    ensures { IfOk result (λ out. spec.IsSitesText M.kind o.now (before one.board.state one.minds) (before two.board.state two.minds)
        workers out.spent out.text) }
{
    one.board.holds();
    two.board.holds();
    let met = run_sites(rt, alloc, one, two, workers)?;
    match text_of_both(alloc, o, &met) {
        Ok(out) => {
            drop(met);
            Ok(out)
        }
        Err(starved) => {
            drop(met);
            Err(starved)
        }
    }
}

/// Runs the sites of what two projects bring by so many workers, and tells of it.
#[tactic(auto, using(crate::proofs::Starting::both_start, asl_cycle::proofs::Sends::agent_send))]
pub fn run_sides<R: Threads + Wait + Sync, A: Artifact + Send>(
    rt: &R,
    alloc: Global,
    o: &Options,
    sides: Sides<A>,
    workers: u32,
) -> Result<Output, Starved>
    requires within { IsWithin o.now }
    requires can { CanMeet (pair sides.one.source sides.two.source) }
    requires workers { IsFrom 1 2 workers }
    ensures { let both = pair sides.one.source sides.two.source in
        let first = length both.one.names in
        IfOk result (λ out. spec.IsSitesText agent_kind o.now (site o.now both both.one.world sides.one.used (at_one first))
        (site o.now both both.two.world sides.two.used (at_two first)) workers out.spent out.text) }
{
    match open_both(alloc, o, sides) {
        Ok(both) => {
            let OpenedSites { one, two } = both;
            run_told(rt, alloc, o, one, two, workers)
        }
        Err(starved) => Err(starved),
    }
}
