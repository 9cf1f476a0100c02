//! Running agents until all have ended.
ghost use Rattle.std.specs.Prelude.{◌≡◌, ◌<◌, ◌≤◌, IfOk, OnOk, length};
ghost use Rattle.mas_board_lists.specs.Lists.{Each};
ghost use Rattle.mas_steal_rack.specs.Rule.{Waits};
ghost use Rattle.mas_steal_rack.specs.Racks.{first_home, AllWait, Dealt, Answered};
ghost use Rattle.mas_steal_thieves.specs.Running.{Adds};

use crate::closing::close_rack;
use crate::opening::open_rack;
use crate::working::worked;
use mas_steal_rack::agent::ReadyAgent;
use mas_steal_rack::hand::{Hand, Rack};
use mas_steal_rack::turns::{AgentTurned, Turns};
use std::alloc::{AllocError, Global};
use std::collections::VecDeque;
use std::snapshot::Snapshot;
use std::sync::Wait;
use std::thread::Threads;

// One worker ends all agents that are left.
fn end_all<T: ReadyAgent, W: Turns<T>, R: Threads + Wait + Sync>(
    rt: &R,
    mut left: VecDeque<T>,
    kept: &mut Vec<T>,
    work: &W,
) -> Result<(), AllocError>
    requires wait { Each (Waits T.number T.home T.ready (W.serves work.now)) left.items }
    requires ended { Each (W.ended work.now) kept.old.items }
    ensures ended { OnOk result (Each (W.ended work.now) kept.new.items) }
    ensures adds { OnOk result (Adds T.number kept.old.items left.items kept.new.items) }
{
    for _ in rt.forever() {
        let Some(agent) = left.pop_front() else {
            return Ok(());
        };
        match work.turn(rt, agent) {
            AgentTurned::Again(agent) => left.push_back(agent)?,
            AgentTurned::Ahead(agent) => left.push_back(agent)?,
            AgentTurned::Ended(agent) => kept.push(agent)?,
        }
    }
    unreachable!()
}

// Works in threads at agents that were dealt, until all have ended.
#[tactic(auto, using(crate::proofs::Runs::run_fresh, crate::proofs::Runs::run_worked, crate::proofs::Runs::run_ended, crate::proofs::Runs::run_answers))]
fn run_dealt<T: ReadyAgent + Send, W: Turns<T> + Sync, R: Threads + Wait + Sync>(
    rt: &R,
    alloc: Global,
    agents: &Snapshot<Vec<T>>,
    rack: Rack<T>,
    hands: Vec<Hand<T>>,
    work: &W,
) -> Result<Vec<T>, AllocError>
    requires dealt { Dealt T.number T.home T.ready agents.now.value.items rack hands.items }
    requires home { first_home T.home agents.now.value.items ≡ W.serves work.now }
    ensures { IfOk result (λ v. Answered T.number (W.ended work.now) agents.now.value.items v.items) }
{
    let _ = agents;
    let hands = worked(rt, &rack, hands, work);
    let (mut kept, left) = close_rack(rt, alloc, &rack, hands, work)?;
    end_all(rt, left, &mut kept, work)?;
    Ok(kept)
}

/// Deals the agents, works at them in threads until all have ended, and answers each once, in no order.
pub fn run_all<T: ReadyAgent + Send, W: Turns<T> + Sync, R: Threads + Wait + Sync>(
    rt: &R,
    alloc: Global,
    agents: Vec<T>,
    workers: usize,
    work: &W,
) -> Result<Vec<T>, AllocError>
    requires workers { (0 < workers) × (workers ≤ 64) }
    requires some { 0 < length agents.items }
    requires wait { AllWait T.number T.home T.ready agents.items }
    requires home { first_home T.home agents.items ≡ W.serves work.now }
    ensures { IfOk result (λ v. Answered T.number (W.ended work.now) agents.items v.items) }
{
    let all = Snapshot::of(&agents);
    let (rack, hands) = open_rack(alloc, agents, workers)?;
    run_dealt(rt, alloc, &all, rack, hands, work)
}
