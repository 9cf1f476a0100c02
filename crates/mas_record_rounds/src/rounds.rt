//! Rounds of all shares, side by side. Threads are started for a stretch of rounds, since to start one takes time.

ghost use Rattle.std.specs.Prelude.{◌<◌, All, OnOk, MatchResult};
ghost use Rattle.std.specs.Thread.{IsSync};
ghost use Rattle.mas_board_lists.specs.Lists.{Each};
ghost use Rattle.mas_record_rounds.specs.Sharers.{Shares, Stays, Both};
ghost use Rattle.mas_record_rounds.specs.Dealing.{all_of};
ghost use Rattle.mas_record_rounds.specs.Rounds as spec;

use crate::round::record_round;
use crate::share::Share;
use mas_mind::thinking::Mind;
use mas_record::deck::DeckFault;
use mas_record::recorder::Recorder;
use mas_record_disk::disk::Disk;
use mas_world::artifact::Artifact;
use std::alloc::Global;
use std::sync::Wait;
use std::thread;
use std::thread::Threads;

/// So many rounds a worker makes before it meets the others: as many as an agent may usually be ahead of another.
const STRETCH: u32 = 8;

/// A round of one share.
fn go<R: Threads + Wait + Sync, M: Mind, A: Artifact, D: Disk + Send>(
    rt: &R,
    alloc: Global,
    recorder: &Recorder<A, D>,
    share: &mut Share<M, A, D>,
)
    requires { spec.MayGo M.kind recorder.now share.old }
    ensures { spec.HasCome M.kind recorder.now share.old share.new }
{
    share.came = record_round(rt, alloc, recorder, &mut share.sharers);
}

/// Whether every agent of these shares has left; or why a round was refused.
fn come_to<M: Mind, A: Artifact, D: Disk + Send>(
    shares: &[Share<M, A, D>],
) -> Result<bool, DeckFault>
    ensures { MatchResult result (spec.AllCameSo shares.now) (λ f. Unit {0}) }
{
    let mut ended = true;
    for k in 0..shares.len() {
        match shares[k].came {
            Ok(here) => ended = ended && here == 0,
            Err(fault) => return Err(fault),
        }
    }
    Ok(ended)
}

/// A round of each of these shares, in order.
fn each_goes<R: Threads + Wait + Sync, M: Mind, A: Artifact, D: Disk + Send>(
    rt: &R,
    alloc: Global,
    recorder: &Recorder<A, D>,
    shares: &mut [Share<M, A, D>],
)
    requires { All (spec.MayGo M.kind recorder.now) shares.old }
    ensures { spec.AllCame M.kind recorder.now shares.old shares.new }
{
    for k in 0..shares.len() {
        go(rt, alloc, recorder, &mut shares[k]);
    }
}

/// Rounds of these shares, until every agent of them has left, a round is refused, or the stretch is over.
fn stretch<R: Threads + Wait + Sync, M: Mind, A: Artifact, D: Disk + Send>(
    rt: &R,
    alloc: Global,
    recorder: &Recorder<A, D>,
    shares: &mut [Share<M, A, D>],
)
    requires { All (spec.MayGo M.kind recorder.now) shares.old }
    ensures { spec.AllCame M.kind recorder.now shares.old shares.new }
{
    each_goes(rt, alloc, recorder, shares);
    for _ in 1..STRETCH {
        match come_to(shares) {
            Ok(false) => each_goes(rt, alloc, recorder, shares),
            Ok(true) => return,
            Err(_) => return,
        }
    }
}

/// A stretch of all shares, by so many workers: each has some that lie side by side.
fn all_go<R: Threads + Wait + Sync, M: Mind + Send, A: Artifact + Send, D: Disk + Send>(
    rt: &R,
    alloc: Global,
    recorder: &Recorder<A, D>,
    shares: &mut [Share<M, A, D>],
    workers: u32,
)
    requires some { 0 < workers }
    requires may { All (spec.MayGo M.kind recorder.now) shares.old }
    ensures { spec.AllCame M.kind recorder.now shares.old shares.new }
{
    let work = |_: usize, part: &mut [Share<M, A, D>]|
        requires { IsSync R.row × All (spec.MayGo M.kind recorder.now) part.now }
        ensures { spec.AllCame M.kind recorder.entry.now part.entry.now part.exit.now }
    { stretch(rt, alloc, recorder, part) };
    let size = shares.len().div_ceil(workers as usize).max(1);
    thread::for_each_chunk_mut(rt, shares, size, &work);
}

/// The same of a list of shares.
fn all_gone<R: Threads + Wait + Sync, M: Mind + Send, A: Artifact + Send, D: Disk + Send>(
    rt: &R,
    alloc: Global,
    recorder: &Recorder<A, D>,
    mut shares: Vec<Share<M, A, D>>,
    workers: u32,
) -> Vec<Share<M, A, D>>
    requires some { 0 < workers }
    requires may { All (spec.MayGo M.kind recorder.now) shares.items }
    ensures { spec.AllCame M.kind recorder.now shares.items result.items }
{
    all_go(rt, alloc, recorder, shares.as_mut_slice(), workers);
    shares
}

/// The shares after their rounds, and whether every agent has left or why a round was refused.
#[derive(Drop)]
pub struct Ended<M: Mind, A: Artifact, D: Disk + Send> {
    pub shares: Vec<Share<M, A, D>>,
    pub came: Result<(), DeckFault>,
}

/// Stretch after stretch by so many workers, until every agent has left, or a round is refused.
pub fn rounds<R: Threads + Wait + Sync, M: Mind + Send, A: Artifact + Send, D: Disk + Send>(
    rt: &R,
    alloc: Global,
    recorder: &Recorder<A, D>,
    mut shares: Vec<Share<M, A, D>>,
    workers: u32,
) -> Ended<M, A, D>
    requires some { 0 < workers }
    requires shares { Each (Shares M.kind recorder.now) (all_of shares.items) }
    ensures stay { Both (Stays recorder.now) (all_of shares.items) (all_of result.shares.items) }
    ensures ended { OnOk result.came (spec.AllEnded M.kind recorder.now (all_of shares.items) (all_of result.shares.items)) }
{
    for _ in rt.forever() {
        shares = all_gone(rt, alloc, recorder, shares, workers);
        match come_to(shares.as_slice()) {
            Ok(true) => {
                return Ended {
                    shares,
                    came: Ok(()),
                };
            }
            Ok(false) => {}
            Err(fault) => {
                return Ended {
                    shares,
                    came: Err(fault),
                };
            }
        }
    }
    unreachable!()
}
