//! The runs of two sites, by one worker or by two.

ghost use Rattle.std.specs.Prelude.{◌≡◌, ◌≤◌, IfOk};
ghost use Rattle.mas_core.specs.Fits.{Start};
ghost use Rattle.mas_sites_stand.specs.Seats.{seated};
ghost use Rattle.mas_sites_scripts.specs.Sites.{AreFresh, before};
ghost use Rattle.mas_sites_rounds.specs.Between.{AreApart};
ghost use Rattle.mas_sites_worker.specs.Sides.{MayRun};
ghost use Rattle.mas_sites.specs.Results as spec;
ghost use Rattle.mas_sites.specs.Pairs.{HasRun};

use crate::met::{Met, meet_in_turns, put_together};
use asl_term::sequence::{Seq, Starved};
use mas_mind::thinking::Mind;
use mas_sites_rounds::runs::Site;
use mas_sites_wire::left::left_between;
use mas_sites_wire::wire::{Wire, WireEnd};
use mas_sites_wire::wires::open_wires;
use mas_sites_worker::side::{Ran, homes, run_site};
use mas_world::artifact::Artifact;
use std::alloc::Global;
use std::sync::Wait;
use std::thread;
use std::thread::Threads;

/// What both sites come to.
#[derive(Drop)]
struct Both<M: Mind, A: Artifact> {
    one: Ran<M, A>,
    two: Ran<M, A>,
}

/// Both sites run, each in a thread of its own where one can be made.
fn both_run<R: Threads + Wait + Sync, M: Mind + Send, A: Artifact + Send>(
    rt: &R,
    alloc: Global,
    one: Site<M, A>,
    two: Site<M, A>,
    wires: &[Wire],
    ends_one: Seq<WireEnd>,
    ends_two: Seq<WireEnd>,
) -> Result<Both<M, A>, Starved>
    requires one { MayRun M.kind one.board one.minds wires.now ends_one }
    requires two { MayRun M.kind two.board two.minds wires.now ends_two }
    ensures { IfOk result (λ b. HasRun M.kind one.board one.minds wires.now b.one × HasRun M.kind two.board two.minds wires.now b.two) }
{
    let (one, two) = thread::join(
        rt,
        move || -> Result<Ran<M, A>, Starved>
            requires { MayRun M.kind one.board one.minds wires.now ends_one }
            ensures { IfOk result (HasRun M.kind one.board one.minds wires.entry.now) }
        { run_site(rt, alloc, one, wires, ends_one) },
        move || -> Result<Ran<M, A>, Starved>
            requires { MayRun M.kind two.board two.minds wires.now ends_two }
            ensures { IfOk result (HasRun M.kind two.board two.minds wires.entry.now) }
        { run_site(rt, alloc, two, wires, ends_two) },
    );
    Ok(Both {
        one: one?,
        two: two?,
    })
}

/// Two sites run side by side, each until all its agents have left.
fn meet_side_by_side<R: Threads + Wait + Sync, M: Mind + Send, A: Artifact + Send>(
    rt: &R,
    alloc: Global,
    one: Site<M, A>,
    two: Site<M, A>,
) -> Result<Met<M, A>, Starved>
    requires one { Start (seated M.kind) one.board one.minds }
    requires two { Start (seated M.kind) two.board two.minds }
    requires fresh { AreFresh one.minds × AreFresh two.minds }
    requires apart { AreApart one.minds two.minds }
    ensures { IfOk result (λ r. spec.HaveRun M.kind (before one.board.state one.minds) (before two.board.state two.minds)
        (spec.ended r.one.board r.one.minds) (spec.ended r.two.board r.two.minds) r.scripts r.between) }
{
    one.board.holds();
    two.board.holds();
    let here = homes(alloc, &one.minds)?;
    let opened = open_wires(alloc, &here)?;
    let wires = opened.wires;
    let both = both_run(
        rt,
        alloc,
        one,
        two,
        wires.as_slice(),
        opened.one,
        opened.two,
    )?;
    let Both { one, two } = both;
    let ways = left_between(rt, alloc, wires.as_slice(), &here, one.ends, two.ends)?;
    let met = put_together(alloc, one.site, two.site, ways)?;
    Ok(met)
}

/// Runs two sites until all their agents have left: by one worker that makes their rounds in turns, or by two, each of which
/// runs a site.
pub fn run_sites<R: Threads + Wait + Sync, M: Mind + Send, A: Artifact + Send>(
    rt: &R,
    alloc: Global,
    one: Site<M, A>,
    two: Site<M, A>,
    workers: u32,
) -> Result<Met<M, A>, Starved>
    requires one { Start (seated M.kind) one.board one.minds }
    requires two { Start (seated M.kind) two.board two.minds }
    requires fresh { AreFresh one.minds × AreFresh two.minds }
    requires apart { AreApart one.minds two.minds }
    requires workers { (1 ≤ workers) × (workers ≤ 2) }
    ensures run { IfOk result (λ r. spec.HaveRun M.kind (before one.board.state one.minds) (before two.board.state two.minds)
        (spec.ended r.one.board r.one.minds) (spec.ended r.two.board r.two.minds) r.scripts r.between) }
    ensures fold { workers ≡ 1 → IfOk result (λ r. spec.IsFold M.kind (before one.board.state one.minds) (before two.board.state two.minds)
        (spec.ended r.one.board r.one.minds) (spec.ended r.two.board r.two.minds) r.scripts r.between) }
{
    if workers == 1 {
        return meet_in_turns(alloc, one, two);
    }
    meet_side_by_side(rt, alloc, one, two)
}
