//! The failures that the agents of a run show.

ghost use Rattle.std.specs.Prelude.{◌≡◌, None, map, IfOk, MatchOption};
ghost use Rattle.mas_core.specs.Fits.{Start};
ghost use Rattle.mas_core.specs.Platform.{opening_platform, run};
ghost use Rattle.look_lines.specs.Falls.{falls};
ghost use Rattle.look_run.specs.Falling as spec;

use crate::steps::follow;
use asl_term::sequence::{Seq, Starved};
use asl_term::syntax::Numbers;
use look_lines::falls::{FallLines, falls};
use mas_board::board::Board;
use mas_core::play::Play;
use mas_mind::thinking::Mind;
use mas_world::artifact::Artifact;
use std::alloc::Global;

/// The failures of each of these minds, as its lines show them.
fn falls_of<M: Mind>(alloc: Global, minds: &[M]) -> Result<Seq<FallLines>, Starved>
    ensures { IfOk result (λ fs. fs ≡ map (λ m. falls (M.kind.lines m)) minds.now) }
{
    let mut found = Seq::new(alloc);
    for m in minds {
        found.push(falls(alloc, m.lines().as_slice())?)?;
    }
    Ok(found)
}

/// The failures that each agent shows in the run of these minds over this board along these turns, to the last of them; none where one of them cannot be made.
#[tactic(auto, using(crate::proofs::Fallen::not_gone))]
pub fn falls_after<M: Mind, A: Artifact>(
    alloc: Global,
    board: Board<A>,
    minds: Seq<M>,
    turns: &Numbers,
) -> Result<Option<Seq<FallLines>>, Starved>
    requires { Start M.kind board minds }
    ensures { let p = opening_platform board.state minds in
        IfOk result (λ r. MatchOption r (run M.kind p turns.now ≡ None) (spec.HaveFallen M.kind p turns.now)) }
{
    let play = Play::open(alloc, board, minds)?;
    let Some(play) = follow(alloc, play, turns.as_slice())? else {
        return Ok(None);
    };
    let (board, minds) = play.close();
    drop(board);
    let found = falls_of(alloc, minds.as_slice());
    drop(minds);
    Ok(Some(found?))
}
