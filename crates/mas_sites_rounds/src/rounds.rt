//! Rounds of a site, and of two sites in turn on one thread.

ghost use Rattle.std.specs.Prelude.{◌≡◌, ◌<◌, ◌+◌, ◌&&◌, false, length, IfOk};
ghost use Rattle.mas_mind.specs.Minds.{IsAgent};
ghost use Rattle.mas_board.specs.Boards.{is_gone, seat_at};
ghost use Rattle.mas_core.specs.Platform.{ended};
ghost use Rattle.mas_core.specs.Rounds.{IsNext};
ghost use Rattle.mas_sites_rounds.specs.Rounds as spec;

use crate::stage::SiteState;
use asl_term::sequence::Starved;
use mas_mind::thinking::Mind;
use mas_sites_scripts::carrier::Carrier;
use mas_sites_scripts::ways::Ways;
use mas_world::artifact::Artifact;
use std::alloc::Global;

/// The go of an agent: where it has not left a Sense, and an Emit or a Leave where that gave an input.
fn go<M: Mind, A: Artifact, C: Carrier>(
    alloc: Global,
    stage: SiteState<M, A>,
    carrier: &mut C,
    a: u32,
) -> Result<SiteState<M, A>, Starved>
    requires agent { IsAgent (length stage.platform.board.seats) a }
    requires agents { C.agents carrier.old ≡ length stage.platform.board.seats }
    requires next { is_gone (seat_at stage.platform.board a).phase ≡ false → IsNext stage.platform a }
    ensures went { IfOk result (λ s. spec.Went M.kind C.got C.put carrier.old carrier.new stage s a) }
    ensures same { C.agents carrier.new ≡ C.agents carrier.old }
{
    if stage.has_left(a) {
        return Ok(stage);
    }
    let begun = stage.turn(alloc, carrier, a)?;
    if begun.stage.has_left(a) {
        return Ok(begun.stage);
    }
    let ended = begun.stage.turn(alloc, carrier, a)?;
    Ok(ended.stage)
}

/// A round: all agents that have not left make their go, in order.
pub fn round<M: Mind, A: Artifact, C: Carrier>(
    alloc: Global,
    stage: SiteState<M, A>,
    carrier: &mut C,
) -> Result<SiteState<M, A>, Starved>
    requires agents { C.agents carrier.old ≡ length stage.platform.board.seats }
    requires may { spec.MayRound stage }
    ensures goes { IfOk result (λ s. spec.Goes M.kind C.got C.put (length stage.platform.board.seats) carrier.old carrier.new stage s) }
    ensures same { C.agents carrier.new ≡ C.agents carrier.old }
{
    let agents = stage.agents();
    let mut stage = stage;
    for i in 0..agents {
        stage = go(alloc, stage, carrier, i + 1)?;
    }
    Ok(stage)
}

/// Whether all agents of a site have left.
pub fn has_ended<M: Mind, A: Artifact>(stage: &SiteState<M, A>) -> bool
    ensures { result ≡ ended stage.now.platform.board.seats }
{
    stage.first_here().is_none()
}

/// Whether all agents of both sites have left.
fn have_ended<M: Mind, A: Artifact>(one: &SiteState<M, A>, two: &SiteState<M, A>) -> bool
    ensures { result ≡ (ended one.now.platform.board.seats && ended two.now.platform.board.seats) }
{
    has_ended(one) && has_ended(two)
}

/// Two sites, and the messages on the way between them.
#[derive(Drop)]
pub struct BothSites<M: Mind, A: Artifact> {
    pub one: SiteState<M, A>,
    pub two: SiteState<M, A>,
    pub ways: Ways,
}

/// Site 1 makes a round, and then site 2.
fn make_rounds<M: Mind, A: Artifact>(
    alloc: Global,
    one: SiteState<M, A>,
    two: SiteState<M, A>,
    ways: Ways,
) -> Result<BothSites<M, A>, Starved>
    requires { spec.MayMeet (spec.met one two ways) }
    ensures { IfOk result (λ b. spec.HasGoneOn M.kind (spec.met one two ways) (spec.met b.one b.two b.ways)) }
{
    let mut ways = ways;
    let one = round(alloc, one, &mut ways)?;
    let two = round(alloc, two, &mut ways)?;
    Ok(BothSites { one, two, ways })
}

/// Site 1 makes a round, then site 2, until both have ended. No agent makes more cycles than its limit, so that after as
/// many rounds all have left.
pub fn take_turns<M: Mind, A: Artifact>(
    alloc: Global,
    both: BothSites<M, A>,
) -> Result<BothSites<M, A>, Starved>
    requires { spec.IsOpening (spec.met both.one both.two both.ways) }
    ensures { IfOk result (λ b. spec.HaveMet M.kind (spec.met both.one both.two both.ways) (spec.met b.one b.two b.ways)) }
{
    let limit = both.one.cycles() + both.two.cycles();
    let mut both = both;
    for cycle in 0..limit + 1 {
        if have_ended(&both.one, &both.two) {
            return Ok(both);
        }
        both = make_rounds(alloc, both.one, both.two, both.ways)?;
        prove!(cycle <= limit);
    }
    Ok(both)
}
