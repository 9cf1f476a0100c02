//! A round of agents.

ghost use Rattle.std.specs.Prelude.{◌≡◌, ◌+◌, ◌<◌, ◌^◌, if◌then◌else◌, IfOk, IfErr};
ghost use Rattle.mas_board_lists.specs.Lists.{Each};
ghost use Rattle.mas_record_rounds.specs.Sharers as spec;

use crate::sharer::Sharers;
use crate::step::step;
use mas_mind::thinking::Mind;
use mas_record::deck::DeckFault;
use mas_record::recorder::Recorder;
use mas_record_disk::disk::Disk;
use mas_world::artifact::Artifact;
use std::alloc::Global;
use std::sync::Wait;
use std::thread::Threads;

/// One more, where it goes on.
fn counted(here: u64, goes: bool) -> u64
    requires { here + 1 < 2 ^ 64 }
    ensures { result ≡ (if goes then here + 1 else here) }
{
    if goes { here + 1 } else { here }
}

/// A round of these agents, in order: each that is in a cycle ends it, and each that has not left makes one more. It
/// answers how many of them have not left. After a refusal every ticket is still there.
pub fn record_round<R: Threads + Wait + Sync, M: Mind, A: Artifact, D: Disk + Send>(
    rt: &R,
    alloc: Global,
    recorder: &Recorder<A, D>,
    share: &mut Sharers<M, A, D>,
) -> Result<u64, DeckFault>
    requires { Each (spec.Shares M.kind recorder.now) share.old }
    ensures ok { IfOk result (spec.AllWent M.kind recorder.now share.old share.new) }
    ensures refused { IfErr result (spec.AllStay recorder.now share.old share.new) }
{
    let mut here = 0;
    for k in 0..share.len() {
        match step(rt, alloc, recorder, share.at_mut(k)) {
            Ok(goes) => here = counted(here, goes),
            Err(fault) => return Err(fault),
        }
    }
    Ok(here)
}
