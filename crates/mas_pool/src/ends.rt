//! The beginning and the end of a run by many workers, whichever way these share the agents.

ghost use Rattle.std.specs.Prelude.{IfOk};
ghost use Rattle.mas_core.specs.Fits.{Start};
ghost use Rattle.mas_pool.specs.Ends as spec;

use crate::dealing::{deal, have_left, part};
use asl_term::sequence::{Seq, Starved};
use mas_baton::baton::{Baton, open_baton};
use mas_board::board::Board;
use mas_core::robin::Done;
use mas_mind::thinking::Mind;
use mas_pool_task::going::Goings;
use mas_world::artifact::Artifact;
use std::alloc::Global;
use std::sync::Wait;
use std::thread::Threads;

/// The board goes to a baton, and each agent gets a seat at it and its mind.
pub fn seated<R: Threads + Wait + Sync, M: Mind, A: Artifact>(
    rt: &R,
    alloc: Global,
    board: Board<A>,
    minds: Seq<M>,
) -> Result<(Baton<A>, Goings<M, A>), Starved>
    requires { Start M.kind board minds }
    ensures { IfOk result (λ r. spec.AreSeated M.kind board minds r.0 r.1) }
{
    board.holds();
    let (baton, seats) = open_baton(rt, alloc, board)?;
    let goings = deal(alloc, seats, minds)?;
    Ok((baton, goings))
}

/// The board and the minds of a run whose agents have come back. Where one of them has not left there was want of memory.
pub fn closed<R: Threads + Wait + Sync, M: Mind, A: Artifact>(
    rt: &R,
    alloc: Global,
    baton: Baton<A>,
    goings: Goings<M, A>,
) -> Result<Done<M, A>, Starved>
    requires { spec.AreBack M.kind baton goings }
    ensures { IfOk result (λ d. spec.HasRun M.kind baton goings d.board d.minds) }
{
    let (seats, minds) = part(alloc, goings)?;
    let board = baton.close(rt, seats);
    if !have_left(&board) {
        return Err(Starved);
    }
    Ok(Done { board, minds })
}
