//! What one agent does in a round.

ghost use Rattle.std.specs.Prelude.{true, IfOk, IfErr, OnOk};
ghost use Rattle.mas_mind.specs.declared.mind.Thought.TheVariants.{Outs as Acts};
ghost use Rattle.mas_board_turns.specs.Follows.{resting, thinking};
ghost use Rattle.mas_board_turns.specs.Cycles.{cycled};
ghost use Rattle.mas_record_rounds.specs.Sharers as spec;

use crate::sharer::Sharer;
use mas_board::seats::Sensed;
use mas_mind::mind::{Input, Outs, Thought};
use mas_mind::thinking::Mind;
use mas_record::deck::DeckFault;
use mas_record::recorder::Recorder;
use mas_record_disk::disk::Disk;
use mas_world::artifact::Artifact;
use std::alloc::Global;
use std::sync::Wait;
use std::thread::Threads;

/// Carries the outs of its thought out.
fn emit<R: Threads + Wait + Sync, M: Mind, A: Artifact, D: Disk + Send>(
    rt: &R,
    alloc: Global,
    recorder: &Recorder<A, D>,
    sharer: &mut Sharer<M, A, D>,
    outs: Outs,
) -> Result<(), DeckFault>
    requires { spec.SharerHasThought M.kind recorder.now (Acts outs) sharer.old }
    ensures ok { OnOk result (spec.GoesOn M.kind recorder.now (thinking sharer.old.mind (Acts outs)) sharer.old sharer.new true) }
    ensures refused { IfErr result (spec.IsRefused recorder.now sharer.old sharer.new) }
{
    let mut outs = outs;
    match recorder.emit(rt, alloc, &mut sharer.ticket, &mut outs) {
        Ok(None) => Ok(()),
        Ok(Some(feedback)) => {
            sharer.mind.took(feedback);
            Ok(())
        }
        Err(fault) => Err(fault),
    }
}

/// Ends its cycle with this thought: its outs are carried out, or it leaves. Whether it has not left.
fn end_cycle<R: Threads + Wait + Sync, M: Mind, A: Artifact, D: Disk + Send>(
    rt: &R,
    alloc: Global,
    recorder: &Recorder<A, D>,
    sharer: &mut Sharer<M, A, D>,
    thought: Thought,
) -> Result<bool, DeckFault>
    requires { spec.SharerHasThought M.kind recorder.now thought sharer.old }
    ensures ok { IfOk result (spec.GoesOn M.kind recorder.now (thinking sharer.old.mind thought) sharer.old sharer.new) }
    ensures refused { IfErr result (spec.IsRefused recorder.now sharer.old sharer.new) }
{
    match thought {
        Thought::Outs(outs) => match emit(rt, alloc, recorder, sharer, outs) {
            Ok(()) => Ok(true),
            Err(fault) => Err(fault),
        },
        Thought::Spent => match recorder.leave(rt, &mut sharer.ticket) {
            Ok(()) => Ok(false),
            Err(fault) => Err(fault),
        },
    }
}

/// Thinks on its input, without the board, and then ends the cycle. Whether it has not left.
fn answer<R: Threads + Wait + Sync, M: Mind, A: Artifact, D: Disk + Send>(
    rt: &R,
    alloc: Global,
    recorder: &Recorder<A, D>,
    sharer: &mut Sharer<M, A, D>,
    input: Input,
) -> Result<bool, DeckFault>
    requires { spec.SharerIsAsked M.kind recorder.now input sharer.old }
    ensures ok { IfOk result (spec.GoesOn M.kind recorder.now (cycled M.kind sharer.old.mind input) sharer.old sharer.new) }
    ensures refused { IfErr result (spec.IsRefused recorder.now sharer.old sharer.new) }
{
    match sharer.mind.think(alloc, input) {
        Ok(thought) => end_cycle(rt, alloc, recorder, sharer, thought),
        Err(_) => Err(DeckFault::Memory),
    }
}

/// Makes a cycle, where it is given an input. Whether it has not left.
fn make_cycle<R: Threads + Wait + Sync, M: Mind, A: Artifact, D: Disk + Send>(
    rt: &R,
    alloc: Global,
    recorder: &Recorder<A, D>,
    sharer: &mut Sharer<M, A, D>,
) -> Result<bool, DeckFault>
    requires { spec.SharerRests M.kind recorder.now sharer.old }
    ensures ok { IfOk result (spec.GoesOn M.kind recorder.now (resting sharer.old.mind) sharer.old sharer.new) }
    ensures refused { IfErr result (spec.IsRefused recorder.now sharer.old sharer.new) }
{
    match recorder.sense(rt, alloc, &mut sharer.ticket) {
        Ok(Sensed::Input(input)) => answer(rt, alloc, recorder, sharer, input),
        Ok(Sensed::Left(_)) => Ok(false),
        Ok(Sensed::Ahead { .. }) => Ok(true),
        Ok(Sensed::Halted) => Ok(true),
        Err(fault) => Err(fault),
    }
}

/// Ends the cycle in which it is, if it is in one. Whether it has not left.
fn settle<R: Threads + Wait + Sync, M: Mind, A: Artifact, D: Disk + Send>(
    rt: &R,
    alloc: Global,
    recorder: &Recorder<A, D>,
    sharer: &mut Sharer<M, A, D>,
) -> Result<bool, DeckFault>
    requires { spec.Shares M.kind recorder.now sharer.old }
    ensures ok { IfOk result (spec.GoesOn M.kind recorder.now (spec.thinking_of sharer.old) sharer.old sharer.new) }
    ensures refused { IfErr result (spec.IsRefused recorder.now sharer.old sharer.new) }
{
    match sharer.thought.take() {
        Some(thought) => end_cycle(rt, alloc, recorder, sharer, thought),
        None => Ok(!recorder.has_left(rt, &mut sharer.ticket)),
    }
}

/// Its part of a round: it ends the cycle in which it is, and makes one more. Whether it has not left.
pub fn step<R: Threads + Wait + Sync, M: Mind, A: Artifact, D: Disk + Send>(
    rt: &R,
    alloc: Global,
    recorder: &Recorder<A, D>,
    sharer: &mut Sharer<M, A, D>,
) -> Result<bool, DeckFault>
    requires { spec.Shares M.kind recorder.now sharer.old }
    ensures ok { IfOk result (spec.GoesOn M.kind recorder.now (spec.thinking_of sharer.old) sharer.old sharer.new) }
    ensures refused { IfErr result (spec.IsRefused recorder.now sharer.old sharer.new) }
{
    match settle(rt, alloc, recorder, sharer) {
        Ok(true) => make_cycle(rt, alloc, recorder, sharer),
        Ok(false) => Ok(false),
        Err(fault) => Err(fault),
    }
}
