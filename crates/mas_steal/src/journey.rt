//! An agent on its way, with what all agents of its run have in common.

ghost use Rattle.std.specs.Prelude.{◌≡◌, IfOk};
ghost use Rattle.mas_steal.specs.Journeys as spec;

use asl_term::sequence::{Seq, Starved};
use mas_baton::baton::Baton;
use mas_mind::thinking::Mind;
use mas_pool_task::gate::Gate;
use mas_pool_task::going::{Going, Goings, cycle};
use mas_steal_rack::agent::ReadyAgent;
use mas_steal_rack::turns::{AgentTurned, Turns};
use mas_world::artifact::Artifact;
use std::alloc::{AllocError, Global};
use std::snapshot::Snapshot;
use std::sync::Wait;
use std::thread::Threads;

/// The agents with which a run began, as clauses see them. It has no bytes.
pub type Beginning<M, A> = Snapshot<Goings<M, A>>;

/// An agent on its way, the baton of its seat, and the agents with which its run began.
#[derive(Drop)]
pub struct Journey<M: Mind, A: Artifact> {
    pub going: Going<M, A>,
    pub baton: Snapshot<Baton<A>>,
    pub beginning: Snapshot<Beginning<M, A>>,
}

impl<M: Mind, A: Artifact> ReadyAgent for Journey<M, A> {
    ghost use Rattle.mas_steal.specs.Journeys.{home_of, IsUnderWay};

    type Home = (Baton<A>, Goings<M, A>);

    ghost number = { λ j. j.going.number };

    ghost home = { home_of };

    ghost ready = { IsUnderWay M.kind };
}

/// A cycle of an agent, at this baton and this gate.
#[derive(Drop)]
pub struct Cycles<'a, M: Mind, A: Artifact, G: Gate> {
    pub alloc: Global,
    pub baton: &'a Baton<A>,
    pub gate: &'a G,
    pub beginning: Beginning<M, A>,
}

impl<'a, M: Mind, A: Artifact, G: Gate> Turns<Journey<M, A>> for Cycles<'a, M, A, G> {
    ghost use Rattle.std.specs.Prelude.{Some};
    ghost use Rattle.mas_pool.specs.Workers.{EndedOf};

    ghost serves = { λ w. Some (w.baton.now, w.beginning.value) };

    ghost ended = { λ w j. EndedOf M.kind w.beginning.value j.going };

    fn turn<R: Threads + Wait + Sync>(
        &self,
        rt: &R,
        mut agent: Journey<M, A>,
    ) -> AgentTurned<Journey<M, A>> {
        let before = agent.going.cycle;
        if !cycle(rt, self.alloc, self.baton, self.gate, &mut agent.going) {
            return AgentTurned::Ended(agent);
        }
        if agent.going.cycle == before {
            return AgentTurned::Ahead(agent);
        }
        AgentTurned::Again(agent)
    }
}

/// The agent, which sets out.
fn begun<M: Mind, A: Artifact>(
    going: Going<M, A>,
    baton: &Baton<A>,
    beginning: &Beginning<M, A>,
) -> Journey<M, A>
    ensures going { result.going ≡ going }
    ensures from { spec.IsFrom baton.now beginning.now.value result }
{
    Journey {
        going,
        baton: Snapshot::of(baton),
        beginning: Snapshot::of(beginning),
    }
}

/// The agents, all of which set out.
pub fn set_out<M: Mind, A: Artifact>(
    alloc: Global,
    goings: Goings<M, A>,
    baton: &Baton<A>,
    beginning: &Beginning<M, A>,
) -> Result<Vec<Journey<M, A>>, AllocError>
    ensures { IfOk result (λ v. spec.AreSetOut baton.now beginning.now.value goings v.items) }
{
    let mut journeys = Vec::new(alloc);
    for going in goings.into_vec() {
        journeys.push(begun(going, baton, beginning))?;
    }
    Ok(journeys)
}

/// The agents of these journeys.
pub fn arrived<M: Mind, A: Artifact>(
    alloc: Global,
    journeys: Vec<Journey<M, A>>,
) -> Result<Goings<M, A>, Starved>
    ensures { IfOk result (λ goings. goings ≡ spec.goings_of journeys.items) }
{
    let mut goings = Seq::new(alloc);
    for journey in journeys {
        let Journey {
            going,
            baton: _,
            beginning: _,
        } = journey;
        goings.push(going)?;
    }
    Ok(goings)
}
