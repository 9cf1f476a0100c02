//! The board: one turn of an agent a call, and what can be read of it.

ghost use Rattle.std.specs.Prelude.{◌≡◌, ◌<◌, ◌+◌, ◌++◌, ◌∷◌, [], ◌^◌, length, true, false, IfOk, IfSome, OnOk, OnErr, IsOk, slice_get};
ghost use Rattle.std.specs.Option.{option_copied};
ghost use Rattle.asl_term.specs.Exprs.{is_ground_literal};
ghost use Rattle.mas_mind.specs.Minds.{IsAgent, AreOuts};
ghost use Rattle.mas_board.specs.Boards as spec;
ghost use Rattle.mas_board.specs.Seating as kept;
ghost use Rattle.mas_board.specs.declared.seats.Phase.TheVariants.{Idle, Busy};

use crate::mail::{make_room, post, put_all};
use crate::post::Post;
use crate::seats::{
    AgentPlace, AgentPlaces, Phase, Sensed, all_rest, count, held_by, open_seats, seat_of, set_seat,
};
use asl_term::names::Names;
use asl_term::room::Roomy;
use asl_term::sequence::{Seq, Starved};
use asl_term::syntax::{Literal, Text};
use mas_mind::mind::{End, Feedback, Input, Message, Outs};
use mas_world::artifact::Artifact;
use mas_world::world::World;
use std::alloc::Global;
use std::marker::Model;
use std::mem;

/// What all agents of a run share: their names, the world, their mail, and where each of them stands; and the
/// schedule of the turns that were made. An agent is idle at first; a Sense makes it busy, or it leaves; an Emit
/// makes a busy agent idle again, and a Leave ends its part. Once the board is halted no Sense makes a turn.
pub struct Board<A: Artifact> {
    names: Names,
    world: World<A>,
    mail: Post,
    version: u64,
    stop: bool,
    cycles: u64,
    lead: u64,
    seats: AgentPlaces,
    schedule: Roomy<u64>,
    halted: bool,
}

/// By hand, so that a crate above that lets a board go proves nothing of its parts.
impl<A: Artifact> Drop for Board<A> {
    fn drop(self) {
        let Board {
            names: _,
            world: _,
            mail: _,
            version: _,
            stop: _,
            cycles: _,
            lead: _,
            seats: _,
            schedule: _,
            halted: _,
        } = self;
    }
}

impl<A: Artifact> Model for Board<A> {
    ghost use Rattle.mas_board.specs.Boards.{Noted};
    ghost use Rattle.mas_board.specs.Boxes.{lists};
    ghost use Rattle.mas_board.specs.Seating.{IsBoard};
    ghost use Rattle.asl_term.specs.contracts.syntax.Term as t;
    ghost use Rattle.asl_term.specs.contracts.syntax.Expr as e;
    ghost use Rattle.std.specs.Coded.{codes};

    ghost Value = { Noted };

    ghost coded = { Prim.hlevel (codes, t.the_row.coded, e.the_row.coded) };

    ghost view = { λ b. record {
      state = record {
        names = b.names;
        world = b.world;
        boxes = lists b.mail;
        version = b.version;
        stop = b.stop;
        cycles = b.cycles;
        lead = b.lead;
        seats = b.seats;
      };
      schedule = b.schedule.list;
      halted = b.halted;
    } };

    ghost invariant = { λ b. IsBoard (record {
      state = record {
        names = b.names;
        world = b.world;
        boxes = lists b.mail;
        version = b.version;
        stop = b.stop;
        cycles = b.cycles;
        lead = b.lead;
        seats = b.seats;
      };
      schedule = b.schedule.list;
      halted = b.halted;
    }) b.schedule.spare };
}

/// Puts the number of an agent last into the schedule, in which there is room.
fn note(schedule: &mut Roomy<u64>, a: u32)
    requires { 0 < schedule.old.spare }
    ensures list { schedule.new.list ≡ schedule.old.list ++ a ∷ [] }
    ensures room { schedule.new.spare + 1 ≡ schedule.old.spare }
{
    match schedule.push(a as u64) {
        Ok(()) => {}
        Err(_) => unreachable!(),
    }
}

/// Does the action, where there is one.
fn act_once<A: Artifact>(
    alloc: Global,
    world: &mut World<A>,
    agent: &Text,
    action: &Option<Literal>,
) -> Result<Option<Feedback>, Starved>
    requires { IfSome action.now (λ l. is_ground_literal l ≡ true) }
    ensures acted { IfOk result (λ f. (f, world.new) ≡ spec.acted_as world.old agent.now action.now) }
    ensures refused { OnErr result (world.new ≡ world.old) }
{
    match action {
        None => Ok(None),
        Some(action) => {
            let feedback = world.act(alloc, agent, action)?;
            Ok(Some(feedback))
        }
    }
}

/// The version after an Emit.
fn version_after(version: u64, feedback: Option<Feedback>, messages: &[Message]) -> u64
    requires { version + 1 < 2 ^ 64 }
    ensures { result ≡ spec.version_after version feedback messages.now }
{
    if matches!(feedback, Some(Feedback::Done)) || !messages.is_empty() {
        version + 1
    } else {
        version
    }
}

/// The seat of an agent after its Emit.
fn rested(seat: AgentPlace, quiet: bool) -> AgentPlace
    ensures { result ≡ spec.rested seat quiet }
{
    AgentPlace {
        phase: Phase::Idle,
        cycle: seat.cycle,
        mark: if quiet { Some(seat.kept) } else { None },
        kept: seat.kept,
    }
}

/// Takes the outs out of their place.
fn take_outs(alloc: Global, outs: &mut Outs) -> Outs
    ensures taken { result ≡ outs.old }
    ensures empty { outs.new ≡ spec.no_outs }
{
    let none = Outs {
        action: None,
        messages: Seq::new(alloc),
        stop: false,
        quiet: false,
    };
    mem::replace(outs, none)
}

/// A board at which nothing has happened: every agent is idle at cycle 0, without a mark and mail.
pub fn open_board<A: Artifact>(
    alloc: Global,
    world: World<A>,
    names: Names,
    cycles: u64,
    lead: u64,
) -> Result<Board<A>, Starved>
    requires { kept.AreLimits (length names) cycles lead }
    ensures { IfOk result (λ b. b ≡ record { state = spec.opening names world cycles lead; schedule = []; halted = false }) }
{
    let agents = names.len();
    let mail = post(alloc, agents)?;
    let seats = open_seats(alloc, agents)?;
    let mut schedule = Roomy::new(alloc);
    schedule.reserve(agents as u64)?;
    Ok(Board {
        names,
        world,
        mail,
        version: 0,
        stop: false,
        cycles,
        lead,
        seats,
        schedule,
        halted: false,
    })
}

impl<A: Artifact> Board<A> {
    /// The agent leaves.
    fn go(&mut self, a: u32, end: End)
        requires known { IsAgent (length self.old.state.seats) a }
        requires stays { spec.is_gone (spec.seat_at self.old.state a).phase ≡ false }
        ensures { kept.HasLeft self.old self.new a end }
    {
        note(&mut self.schedule, a);
        let seat = seat_of(&self.seats, a);
        let left = AgentPlace {
            phase: Phase::Left(end),
            cycle: seat.cycle,
            mark: seat.mark,
            kept: seat.kept,
        };
        set_seat(&mut self.seats, a, left);
    }

    /// The input of an idle agent, which is busy from then on.
    fn give(&mut self, alloc: Global, a: u32) -> Result<Input, Starved>
        requires idle { kept.IsAt self.old.state a Idle }
        requires short { (spec.seat_at self.old.state a).cycle < self.old.state.cycles }
        requires close { spec.is_ahead self.old.state a ≡ false }
        ensures given { IfOk result (λ i. i ≡ spec.input_of self.old.state a) }
        ensures begun { IfOk result (kept.HasBegun self.old.state self.new.state a) }
        ensures schedule { OnOk result (self.new.schedule ≡ self.old.schedule ++ a ∷ []) }
        ensures halted { OnOk result (self.new.halted ≡ self.old.halted) }
        ensures refused { OnErr result (self.new ≡ self.old) }
    {
        let Some(name) = self.names.at(a) else {
            unreachable!()
        };
        let percepts = self.world.percepts(alloc, name)?;
        self.schedule.reserve(count(&self.seats) + 1)?;
        note(&mut self.schedule, a);
        let message = self.mail.take(a);
        let seat = seat_of(&self.seats, a);
        let busy = AgentPlace {
            phase: Phase::Busy,
            cycle: seat.cycle + 1,
            mark: None,
            kept: self.version,
        };
        set_seat(&mut self.seats, a, busy);
        Ok(Input { percepts, message })
    }

    /// The turn of an idle agent: it is given its input, it leaves, or it has to wait; on a halted board nothing
    /// happens. Where it is given no input no memory is taken.
    #[tactic(auto, using(crate::proofs::Soundness::below_limit))]
    pub fn sense(&mut self, alloc: Global, a: u32) -> Result<Sensed, Starved>
        requires idle { kept.IsAt self.old.state a Idle }
        ensures sensed { IfOk result (kept.HasSensed self.old self.new a) }
        ensures leaves { IfOk result (kept.SenseLeaves self.old self.new a) }
        ensures memory { kept.is_input (kept.sense self.old a).0 ≡ false → IsOk result }
        ensures refused { OnErr result (self.new ≡ self.old) }
    {
        if self.halted {
            return Ok(Sensed::Halted);
        }
        let seat = seat_of(&self.seats, a);
        if seat.cycle == self.cycles {
            self.go(a, End::Cycles);
            return Ok(Sensed::Left(End::Cycles));
        }
        if self.stop {
            self.go(a, End::Stopped);
            return Ok(Sensed::Left(End::Stopped));
        }
        if all_rest(&mut self.seats, self.version, &self.mail) {
            self.go(a, End::Quiet);
            return Ok(Sensed::Left(End::Quiet));
        }
        if let Some(least) = held_by(&mut self.seats, seat.cycle, self.lead) {
            return Ok(Sensed::Ahead {
                cycle: seat.cycle,
                least,
            });
        }
        let input = self.give(alloc, a)?;
        Ok(Sensed::Input(input))
    }

    /// The turn of a busy agent that has thought: the action is done, the messages are put into their boxes, and the outs
    /// are then empty. It answers what became of the action. After `Starved` the outs are as they were.
    pub fn emit(
        &mut self,
        alloc: Global,
        a: u32,
        outs: &mut Outs,
    ) -> Result<Option<Feedback>, Starved>
        requires busy { kept.IsAt self.old.state a Busy }
        requires lawful { AreOuts a (length self.old.state.seats) outs.old }
        ensures emitted { IfOk result (kept.HasEmitted self.old self.new a outs.old) }
        ensures empty { OnOk result (outs.new ≡ spec.no_outs) }
        ensures refused { OnErr result (self.new ≡ self.old) }
        ensures outs_stay { OnErr result (outs.new ≡ outs.old) }
    {
        let Some(name) = self.names.at(a) else {
            unreachable!()
        };
        make_room(&mut self.mail, outs.messages.as_slice())?;
        self.schedule.reserve(count(&self.seats) + 1)?;
        let feedback = act_once(alloc, &mut self.world, name, &outs.action)?;
        note(&mut self.schedule, a);
        let turns = self.schedule.len();
        prove!(self.version < turns);
        let Outs {
            action: _,
            messages,
            stop,
            quiet,
        } = take_outs(alloc, outs);
        self.version = version_after(self.version, feedback, messages.as_slice());
        put_all(&mut self.mail, messages);
        self.stop = self.stop || stop;
        let seat = seat_of(&self.seats, a);
        set_seat(&mut self.seats, a, rested(seat, quiet));
        Ok(feedback)
    }

    /// The turn of a busy agent whose budget is spent: it leaves. It takes no memory.
    pub fn leave(&mut self, a: u32)
        requires busy { kept.IsAt self.old.state a Busy }
        ensures { kept.HasLeft self.old self.new a End.Budget }
    {
        self.go(a, End::Budget);
    }

    /// Halts the board. It takes no memory.
    pub fn halt(&mut self)
        ensures { self.new ≡ kept.halt self.old }
    {
        self.halted = true;
    }

    /// Where an agent is.
    pub fn phase(&self, a: u32) -> Phase
        requires { IsAgent (length self.now.state.seats) a }
        ensures { result ≡ (spec.seat_at self.now.state a).phase }
    {
        seat_of(&self.seats, a).phase
    }

    /// How many cycles an agent has begun.
    pub fn cycle(&self, a: u32) -> u64
        requires { IsAgent (length self.now.state.seats) a }
        ensures { result ≡ (spec.seat_at self.now.state a).cycle }
    {
        seat_of(&self.seats, a).cycle
    }

    /// How many cycles an agent may make.
    pub fn cycles(&self) -> u64
        ensures { result ≡ self.now.state.cycles }
    {
        self.cycles
    }

    /// The numbers of the agents that made the turns, in order.
    pub fn schedule(&self) -> &[u64]
        ensures { result.now ≡ self.now.schedule }
    {
        self.schedule.as_slice()
    }

    /// The names of the agents. The place of a name, counted from 1, is the number of its agent.
    pub fn names(&self) -> &Names
        ensures { result.now ≡ self.now.state.names }
    {
        &self.names
    }

    /// The world, as the turns so far have left it.
    pub fn world(&self) -> &World<A>
        ensures { result.now ≡ self.now.state.world }
    {
        &self.world
    }

    /// How many messages of an agent are unread.
    pub fn unread(&self, a: u32) -> u64
        requires { IsAgent (length self.now.state.seats) a }
        ensures { result ≡ length (spec.box_of self.now.state.boxes a) }
    {
        self.mail.count(a)
    }

    /// The k-th unread message of an agent, counted from 0, the oldest first.
    pub fn mail(&self, a: u32, k: u64) -> Option<&Message>
        requires { IsAgent (length self.now.state.seats) a }
        ensures { option_copied result ≡ slice_get (spec.box_of self.now.state.boxes a) k }
    {
        self.mail.peek(a, k)
    }

    /// What holds of every board, as a law.
    pub fn holds(&self)
        ensures sound { kept.IsSound self.now.state }
        ensures opens { kept.Opens self.now }
    {
        let _ = &self.names;
    }
}
