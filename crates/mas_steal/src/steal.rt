//! The whole run.

ghost use Rattle.std.specs.Prelude.{◌≡◌, ◌≤◌, IfOk};
ghost use Rattle.mas_core.specs.Platform.{opening_platform};
ghost use Rattle.mas_core.specs.Fits.{Start};
ghost use Rattle.mas_core.specs.Replay.{RanAlong};
ghost use Rattle.mas_core.specs.Robin.{RanOut};

use crate::shifts::all_ended;
use asl_term::sequence::{Seq, Starved};
use mas_board::board::Board;
use mas_core::robin::Done;
use mas_mind::thinking::Mind;
use mas_pool::ends::{closed, seated};
use mas_pool::pool::run_pool;
use mas_pool_task::gate::Gate;
use mas_world::artifact::Artifact;
use std::alloc::Global;
use std::sync::Wait;
use std::thread::Threads;

/// Runs all agents to their end by so many workers, each with a deque of its own. The board and the minds, one for each
/// agent in order, are then those of the run along the board's own schedule; with one worker that is the round robin.
pub fn run_stealing<R: Threads + Wait + Sync, M: Mind + Send, A: Artifact + Send, G: Gate + Sync>(
    rt: &R,
    alloc: Global,
    board: Board<A>,
    minds: Seq<M>,
    workers: u32,
    gate: &G,
) -> Result<Done<M, A>, Starved>
    requires start { Start M.kind board minds }
    requires workers { (1 ≤ workers) × (workers ≤ 64) }
    ensures ran { IfOk result (λ d. RanAlong M.kind (opening_platform board.state minds) d.board.schedule d.board d.minds) }
    ensures alone { workers ≡ 1 → IfOk result (λ d. RanOut M.kind (opening_platform board.state minds) d.board d.minds) }
{
    if workers == 1 {
        return run_pool(rt, alloc, board, minds, workers, gate);
    }
    let (baton, goings) = seated(rt, alloc, board, minds)?;
    let goings = all_ended(rt, alloc, goings, workers, &baton, gate)?;
    closed(rt, alloc, baton, goings)
}
