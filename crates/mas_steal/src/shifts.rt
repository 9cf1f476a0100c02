//! Workers side by side.

ghost use Rattle.std.specs.Prelude.{◌≡◌, ◌<◌, ◌≤◌, length, IfOk};
ghost use Rattle.mas_board_lists.specs.Lists.{Each, numbers_from};
ghost use Rattle.mas_pool_ready.specs.Rule.{numbers};
ghost use Rattle.mas_pool_task.specs.Goings.{Became};
ghost use Rattle.mas_pool.specs.Workers as spec;

use crate::journey::{Cycles, arrived, set_out};
use asl_term::sequence::Starved;
use mas_baton::baton::Baton;
use mas_mind::thinking::Mind;
use mas_pool_ready::ends::in_order;
use mas_pool_task::gate::Gate;
use mas_pool_task::going::Goings;
use mas_steal_thieves::running::run_all;
use mas_world::artifact::Artifact;
use std::alloc::Global;
use std::snapshot::Snapshot;
use std::sync::Wait;
use std::thread::Threads;

/// All agents, each as it was kept by the worker that had it last, in the order of their numbers.
pub fn all_ended<R: Threads + Wait + Sync, M: Mind + Send, A: Artifact + Send, G: Gate + Sync>(
    rt: &R,
    alloc: Global,
    goings: Goings<M, A>,
    workers: u32,
    baton: &Baton<A>,
    gate: &G,
) -> Result<Goings<M, A>, Starved>
    requires some { 0 < length goings }
    requires workers { (1 ≤ workers) × (workers ≤ 64) }
    requires numbers { numbers (λ g. g.number) goings ≡ numbers_from 1 (length goings) }
    requires rests { Each (λ g. Became M.kind g g) goings }
    requires home { spec.AreAt baton.now goings }
    ensures { IfOk result (spec.AreEnded M.kind goings) }
{
    let count = goings.len();
    let beginning = Snapshot::of(&goings);
    let journeys = set_out(alloc, goings, baton, &beginning)?;
    let work = Cycles {
        alloc,
        baton,
        gate,
        beginning,
    };
    let answered = run_all(rt, alloc, journeys, workers as usize, &work)?;
    let kept = arrived(alloc, answered)?;
    let row = in_order(alloc, count, kept)?;
    Ok(row)
}
