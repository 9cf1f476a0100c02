//! An agent on its way, and its cycle.

ghost use Rattle.mas_mind.specs.declared.mind.Thought.TheVariants.{Outs as Acts};
ghost use Rattle.mas_board_turns.specs.Follows.{resting, thinking};
ghost use Rattle.mas_board_turns.specs.Cycles.{cycled};
ghost use Rattle.mas_baton.specs.Seats.{IsSeatOf};
ghost use Rattle.mas_pool_task.specs.Goings as spec;

use crate::gate::Gate;
use asl_term::sequence::Seq;
use mas_baton::baton::Baton;
use mas_baton::parcel::Parcel;
use mas_baton::seat::Seat;
use mas_board::seats::Sensed;
use mas_mind::mind::{Input, Outs, Thought};
use mas_mind::thinking::Mind;
use mas_pool_ready::rule::Numbered;
use mas_world::artifact::Artifact;
use std::alloc::Global;
use std::sync::Wait;
use std::thread::Threads;

/// An agent by its number, how many cycles it has begun, its right to make turns, and its mind.
#[derive(Drop)]
pub struct Going<M: Mind, A: Artifact> {
    pub number: u32,
    pub cycle: u64,
    pub seat: Seat<A>,
    pub mind: Parcel<M>,
}

pub type Goings<M, A> = Seq<Going<M, A>>;

impl<M: Mind, A: Artifact> Numbered for Going<M, A> {
    ghost use Rattle.mas_pool_task.specs.Goings.{Became};

    ghost number_of = { λ g. g.number };

    ghost became = { Became M.kind };

    fn number(&self) -> u32 {
        self.number
    }
}

/// Carries the outs of its thought out. Whether the agent goes on.
fn emit<R: Threads + Wait + Sync, M: Mind, A: Artifact>(
    rt: &R,
    alloc: Global,
    baton: &Baton<A>,
    going: &mut Going<M, A>,
    outs: Outs,
) -> bool
    requires seat { IsSeatOf baton.now going.old.seat }
    requires busy { spec.GoingHasThought M.kind (Acts outs) going.old }
    ensures seat { IsSeatOf baton.now going.new.seat }
    ensures went { spec.GoesOn result M.kind (thinking going.old.mind (Acts outs)) going.old going.new }
{
    let mut outs = outs;
    match baton.exchange_emit(rt, alloc, &mut going.seat, &mut outs) {
        Ok(None) => true,
        Ok(Some(feedback)) => {
            going.mind.value_mut().took(feedback);
            true
        }
        Err(_) => {
            baton.exchange_halt(rt, &mut going.seat);
            false
        }
    }
}

/// Thinks on its input, without the board, and then carries out what it thought. Whether the agent goes on.
fn answer<R: Threads + Wait + Sync, M: Mind, A: Artifact, G: Gate>(
    rt: &R,
    alloc: Global,
    baton: &Baton<A>,
    gate: &G,
    going: &mut Going<M, A>,
    input: Input,
) -> bool
    requires seat { IsSeatOf baton.now going.old.seat }
    requires asked { spec.GoingIsAsked M.kind input going.old }
    ensures seat { IsSeatOf baton.now going.new.seat }
    ensures went { spec.GoesOn result M.kind (cycled M.kind going.old.mind input) going.old going.new }
{
    going.cycle += 1;
    gate.thinking(going.number, going.cycle);
    let thought = going.mind.value_mut().think(alloc, input);
    gate.done(going.number, going.cycle);
    match thought {
        Ok(Thought::Outs(outs)) => emit(rt, alloc, baton, going, outs),
        Ok(Thought::Spent) => {
            baton.exchange_leave(rt, &mut going.seat);
            false
        }
        Err(_) => {
            baton.exchange_halt(rt, &mut going.seat);
            false
        }
    }
}

/// One Sense of the agent, and where that gives an input, its thinking and the Emit or Leave. Whether the agent goes on:
/// it does not where it has left, where the board was halted, and after want of memory, which halts the board.
pub fn cycle<R: Threads + Wait + Sync, M: Mind, A: Artifact, G: Gate>(
    rt: &R,
    alloc: Global,
    baton: &Baton<A>,
    gate: &G,
    going: &mut Going<M, A>,
) -> bool
    requires seat { IsSeatOf baton.now going.old.seat }
    requires rests { spec.Rests M.kind going.old }
    ensures seat { IsSeatOf baton.now going.new.seat }
    ensures went { spec.GoesOn result M.kind (resting going.old.mind) going.old going.new }
{
    match baton.exchange_sense(rt, alloc, &mut going.seat) {
        Ok(Sensed::Input(input)) => answer(rt, alloc, baton, gate, going, input),
        Ok(Sensed::Left(_)) => false,
        Ok(Sensed::Ahead { .. }) => true,
        Ok(Sensed::Halted) => false,
        Err(_) => {
            baton.exchange_halt(rt, &mut going.seat);
            false
        }
    }
}
