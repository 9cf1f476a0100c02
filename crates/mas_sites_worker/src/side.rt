//! The run of a site that has its ends of the wires to the other one.

ghost use Rattle.std.specs.Prelude.{◌≡◌, ◌<◌, ◌^◌, length, IfOk};
ghost use Rattle.mas_sites_scripts.specs.Sites.{before, after};
ghost use Rattle.mas_sites_rounds.specs.Rounds.{InRound};
ghost use Rattle.mas_sites_worker.specs.Sides as spec;

use asl_term::sequence::{Seq, Starved};
use mas_mind::thinking::Mind;
use mas_sites_rounds::rounds::{has_ended, round};
use mas_sites_rounds::runs::Site;
use mas_sites_rounds::stage::{Closed, SiteState};
use mas_sites_scripts::giving::lives_here;
use mas_sites_stand::seated::Seated;
use mas_sites_wire::ferry::Ferry;
use mas_sites_wire::wire::{Wire, WireEnd};
use mas_world::artifact::Artifact;
use std::alloc::Global;
use std::sync::Wait;

/// Of each agent whether it lives at the site.
pub fn homes<M: Mind>(alloc: Global, minds: &Seq<Seated<M>>) -> Result<Seq<bool>, Starved>
    requires { length minds.now < 2 ^ 16 }
    ensures { IfOk result (λ h. h ≡ spec.homes minds.now) }
{
    let mut homes = Seq::new(alloc);
    for i in 0..minds.len() as u32 {
        homes.push(lives_here(minds, i + 1))?;
    }
    Ok(homes)
}

/// Makes rounds until all agents of the site have left. No agent makes more cycles than its limit, so that after as many
/// rounds all have left.
fn run_out<'w, R: Wait, M: Mind, A: Artifact>(
    alloc: Global,
    stage: SiteState<M, A>,
    ferry: &mut Ferry<'w, R>,
) -> Result<SiteState<M, A>, Starved>
    requires agents { length ferry.old.wires ≡ length stage.platform.board.seats }
    requires first { InRound stage.platform.board.cycles 0 0 stage }
    ensures { IfOk result (λ s. spec.HasRunOut M.kind ferry.old ferry.new stage s) }
{
    let limit = stage.cycles();
    let mut stage = stage;
    for cycle in 0..limit + 1 {
        if has_ended(&stage) {
            return Ok(stage);
        }
        stage = round(alloc, stage, ferry)?;
        prove!(cycle <= limit);
    }
    Ok(stage)
}

/// What a site is let go with, and its ends of the wires.
#[derive(Drop)]
pub struct Ran<M: Mind, A: Artifact> {
    pub site: Closed<M, A>,
    pub ends: Seq<WireEnd>,
}

/// Runs a site until all its agents have left.
pub fn run_site<R: Wait, M: Mind, A: Artifact>(
    rt: &R,
    alloc: Global,
    site: Site<M, A>,
    wires: &[Wire],
    ends: Seq<WireEnd>,
) -> Result<Ran<M, A>, Starved>
    requires { spec.MayRun M.kind site.board site.minds wires.now ends }
    ensures { IfOk result (λ r. spec.RanBeside M.kind (before site.board.state site.minds)
        (after r.site.board r.site.minds r.site.scripts) wires.now r.ends) }
{
    site.board.holds();
    let puts = homes(alloc, &site.minds)?;
    let stage = SiteState::open(alloc, site.board, site.minds)?;
    let mut ferry = Ferry::open(rt, wires, ends, puts);
    let last = run_out(alloc, stage, &mut ferry)?;
    Ok(Ran {
        site: last.close(),
        ends: ferry.into_ends(),
    })
}
