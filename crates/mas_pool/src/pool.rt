//! The whole run.

ghost use Rattle.std.specs.Prelude.{◌≡◌, ◌<◌, ◌≤◌, ◌⊎◌, IfOk};
ghost use Rattle.mas_core.specs.Platform.{opening_platform};
ghost use Rattle.mas_core.specs.Fits.{Start};
ghost use Rattle.mas_core.specs.Replay.{RanAlong};
ghost use Rattle.mas_core.specs.Robin.{RanOut};

use crate::ends::{closed, seated};
use crate::shifts::all_ended;
use asl_term::sequence::{Seq, Starved};
use mas_board::board::Board;
use mas_core::robin::{Done, round_robin};
use mas_mind::thinking::Mind;
use mas_pool_task::gate::Gate;
use mas_world::artifact::Artifact;
use std::alloc::Global;
use std::sync::Wait;
use std::thread::Threads;

/// How many workers are started: as many as are wanted, and no more than there are agents.
fn started(wanted: u32, agents: u64) -> u32
    requires some { (0 < wanted) × (0 < agents) }
    ensures some { 0 < result }
    ensures most { (result ≤ wanted) × (result ≤ agents) }
    ensures all { (result ≡ wanted) ⊎ (result ≡ agents) }
{
    if agents < wanted as u64 {
        agents as u32
    } else {
        wanted
    }
}

/// Runs all agents to their end by so many workers, or by one for each agent where these are fewer. The board and the
/// minds, one for each agent in order, are then those of the run along the board's own schedule; with one worker that is
/// the round robin.
pub fn run_pool<R: Threads + Wait + Sync, M: Mind + Send, A: Artifact + Send, G: Gate + Sync>(
    rt: &R,
    alloc: Global,
    board: Board<A>,
    minds: Seq<M>,
    workers: u32,
    gate: &G,
) -> Result<Done<M, A>, Starved>
    requires start { Start M.kind board minds }
    requires workers { (1 ≤ workers) × (workers ≤ 64) }
    ensures ran { IfOk result (λ d. RanAlong M.kind (opening_platform board.state minds) d.board.schedule d.board d.minds) }
    ensures alone { workers ≡ 1 → IfOk result (λ d. RanOut M.kind (opening_platform board.state minds) d.board d.minds) }
{
    board.holds();
    let workers = started(workers, minds.len());
    if workers == 1 {
        return round_robin(alloc, board, minds);
    }
    let (baton, goings) = seated(rt, alloc, board, minds)?;
    let goings = all_ended(rt, alloc, goings, workers, &baton, gate)?;
    closed(rt, alloc, baton, goings)
}
