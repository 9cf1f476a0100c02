//! Workers side by side.

ghost use Rattle.std.specs.Prelude.{◌≡◌, ◌<◌, ◌≤◌, [], ◌∷◌, ◌++◌, All, length, IfOk};
ghost use Rattle.std.specs.Thread.{IsSync};
ghost use Rattle.mas_board_lists.specs.Lists.{Each, numbers_from};
ghost use Rattle.mas_pool_ready.specs.Rule.{numbers};
ghost use Rattle.mas_pool_ready.specs.Passes.{IsOf, Gathered, all_kept};
ghost use Rattle.mas_pool_task.specs.Goings.{Became};
ghost use Rattle.mas_pool.specs.Workers as spec;

use crate::worker::worker;
use asl_term::sequence::{Seq, Starved};
use mas_baton::baton::Baton;
use mas_mind::thinking::Mind;
use mas_pool_ready::ends::in_order;
use mas_pool_ready::queue::{Pass, Ready, open_ready};
use mas_pool_task::gate::Gate;
use mas_pool_task::going::{Going, Goings};
use mas_world::artifact::Artifact;
use std::alloc::Global;
use std::sync::Wait;
use std::thread;
use std::thread::Threads;

/// One worker, at a pass that has room.
fn shift<R: Threads + Wait + Sync, M: Mind, A: Artifact, G: Gate>(
    rt: &R,
    alloc: Global,
    ready: &Ready<Going<M, A>>,
    pass: &mut Pass<Going<M, A>>,
    baton: &Baton<A>,
    gate: &G,
)
    requires { spec.MayWork ready.now baton.now pass.old }
    ensures { spec.HasWorked M.kind ready.now pass.old pass.new }
{
    worker(rt, alloc, ready, pass, baton, gate);
}

/// A worker for each pass, in a thread of its own where one can be made.
fn all_work<R: Threads + Wait + Sync, M: Mind + Send, A: Artifact + Send, G: Gate + Sync>(
    rt: &R,
    alloc: Global,
    ready: &Ready<Going<M, A>>,
    passes: &mut [Pass<Going<M, A>>],
    baton: &Baton<A>,
    gate: &G,
)
    requires some { 0 < length passes.old }
    requires may { All (λ p. spec.MayWork ready.now baton.now p) passes.old }
    ensures { spec.AllWorked M.kind ready.now passes.old passes.new }
{
    let workers = passes.len();
    let work = |_: usize, pass: &mut Pass<Going<M, A>>|
        requires { IsSync R.row × spec.MayWork ready.now baton.now pass.now }
        ensures { spec.HasWorked M.kind ready.entry.now pass.entry.now pass.exit.now }
    { shift(rt, alloc, ready, pass, baton, gate) };
    thread::for_each_mut(rt, passes, workers, &work);
}

/// The same of a list of passes.
fn have_worked<R: Threads + Wait + Sync, M: Mind + Send, A: Artifact + Send, G: Gate + Sync>(
    rt: &R,
    alloc: Global,
    ready: &Ready<Going<M, A>>,
    mut passes: Vec<Pass<Going<M, A>>>,
    baton: &Baton<A>,
    gate: &G,
) -> Vec<Pass<Going<M, A>>>
    requires some { 0 < length passes.items }
    requires may { All (λ p. spec.MayWork ready.now baton.now p) passes.items }
    ensures { spec.AllWorked M.kind ready.now passes.items result.items }
{
    all_work(rt, alloc, ready, passes.as_mut_slice(), baton, gate);
    passes
}

/// The last pass, and the others.
fn parted<T: Drop>(passes: Vec<Pass<T>>) -> (Pass<T>, Seq<Pass<T>>)
    requires { 0 < length passes.items }
    ensures { passes.items ≡ result.1 ++ result.0 ∷ [] }
{
    let mut others = Seq::from_vec(passes);
    match others.pop() {
        Some(last) => (last, others),
        None => unreachable!(),
    }
}

/// The last pass takes in all others, which have worked, and works once more: with all parts it then knows that no agent
/// waits. All agents that were kept.
fn last_work<R: Threads + Wait + Sync, M: Mind, A: Artifact, G: Gate>(
    rt: &R,
    alloc: Global,
    ready: &Ready<Going<M, A>>,
    last: Pass<Going<M, A>>,
    others: Seq<Pass<Going<M, A>>>,
    baton: &Baton<A>,
    gate: &G,
) -> Result<Goings<M, A>, Starved>
    requires last { IsOf ready.now last }
    requires others { Each (IsOf ready.now) others }
    requires again { (now : spec.PassOf M A) → Gathered ready.now others last now [] (all_kept others) → spec.MayWork ready.now baton.now now }
    ensures { IfOk result (spec.Collected M.kind ready.now others last) }
{
    let mut last = last;
    let mut kept = Seq::new(alloc);
    ready.gather(&mut last, others, &mut kept)?;
    worker(rt, alloc, ready, &mut last, baton, gate);
    let Pass {
        ticket: _,
        kept: more,
    } = last;
    kept.append_all(more.into_seq())?;
    Ok(kept)
}

/// All agents, each as it was kept by the worker that had it last, in the order of their numbers.
pub fn all_ended<R: Threads + Wait + Sync, M: Mind + Send, A: Artifact + Send, G: Gate + Sync>(
    rt: &R,
    alloc: Global,
    goings: Goings<M, A>,
    workers: u32,
    baton: &Baton<A>,
    gate: &G,
) -> Result<Goings<M, A>, Starved>
    requires some { 0 < length goings }
    requires workers { (1 ≤ workers) × (workers ≤ 64) }
    requires few { workers ≤ length goings }
    requires numbers { numbers (λ g. g.number) goings ≡ numbers_from 1 (length goings) }
    requires rests { Each (λ g. Became M.kind g g) goings }
    requires home { spec.AreAt baton.now goings }
    ensures { IfOk result (spec.AreEnded M.kind goings) }
{
    let count = goings.len();
    let (ready, passes) = open_ready(rt, alloc, goings, workers)?;
    let passes = passes.into_vec();
    let worked = have_worked(rt, alloc, &ready, passes, baton, gate);
    let (last, others) = parted(worked);
    let kept = last_work(rt, alloc, &ready, last, others, baton, gate)?;
    let row = in_order(alloc, count, kept)?;
    Ok(row)
}
