//! The calls of a seat: each takes the board, makes one call of it, and gives it back.

ghost use Rattle.std.specs.Prelude.{◌≡◌, ◌<◌, [], true, false, None, Some, IfOk, OnOk, OnErr, IsOk};
ghost use Rattle.crossbeam_queue.specs.Passes.{view, IsPassOf};
ghost use Rattle.mas_mind.specs.Minds.{AreOuts};
ghost use Rattle.mas_board.specs.declared.seats.Phase.TheVariants.{Idle, Busy};
ghost use Rattle.mas_board.specs.Boards.{no_outs};
ghost use Rattle.mas_board.specs.Seating as board;
ghost use Rattle.mas_board_lists.specs.Lists.{Each};
ghost use Rattle.mas_board_turns.specs.Answers as turns;
ghost use Rattle.mas_board_turns.specs.Views.{bare};
ghost use Rattle.mas_board_turns.specs.Steps as step;
ghost use Rattle.mas_baton.specs.Seats as spec;
ghost use Rattle.mas_baton.specs.Gathering as gathering;

use crate::parcel::Parcel;
use crate::rule::{BatonCloses, BatonGives, BatonOpens, BatonRule, BatonTakes};
use crate::seat::{Seat, Seats};
use asl_term::sequence::{Seq, Starved};
use crossbeam_queue::{Pass, RuledArrayQueue};
use mas_board::board::Board;
use mas_board::seats::Sensed;
use mas_board_turns::view::{Departs, Making, Nothing, SideView, SplitsSide};
use mas_mind::mind::{Feedback, Outs};
use mas_patience::patience::Patience;
use mas_world::artifact::Artifact;
use std::alloc::Global;
use std::marker::Brand;
use std::snapshot::Snapshot;
use std::sync::Wait;
use std::thread;
use std::thread::Threads;

/// A worker that finds the board taken sleeps so many nanoseconds at first.
const FIRST_SLEEP: u64 = 50_000;

pub type BatonQueue<A> = RuledArrayQueue<Parcel<Board<A>>, SideView, BatonRule>;

/// The place of the board between two exchanges.
#[derive(Drop)]
pub struct Baton<A: Artifact> {
    pub line: BatonQueue<A>,
}

/// Lays the board out for its agents, with a seat for each, in order. No turn was made on it yet.
pub fn open_baton<R: Threads + Wait + Sync, A: Artifact>(
    rt: &R,
    alloc: Global,
    board: Board<A>,
) -> Result<(Baton<A>, Seats<A>), Starved>
    requires unplayed { board.schedule ≡ [] }
    ensures { IfOk result (λ r. spec.Opened board r.0 r.1) }
{
    board.holds();
    let agents = board.names().len();
    let mut seats = Seq::new(alloc);
    let (line, pass) = BatonQueue::ruled(alloc, 1)?;
    let baton = Baton { line };
    let board = Parcel::new(alloc, board)?;
    let mut pass = baton.begin(rt, pass, board);
    for k in 0..agents {
        let one = baton.line.another::<SplitsSide>(&mut pass);
        seats.push(Seat {
            number: k + 1,
            pass: one,
        })?;
    }
    Ok((baton, seats))
}

impl<A: Artifact> Baton<A> {
    /// Puts the board into the queue.
    fn begin<R: Wait>(
        &self,
        rt: &R,
        mut pass: Pass<Parcel<Board<A>>, SideView>,
        mut board: Parcel<Board<A>>,
    ) -> Pass<Parcel<Board<A>>, SideView>
        requires pass { IsPassOf self.now.line pass }
        requires empty { (view pass).started ≡ false }
        ensures pass { IsPassOf self.now.line result }
        ensures opened { view result ≡ step.opened (bare board) }
    {
        for _ in rt.forever() {
            match self.line.try_push_as::<BatonOpens>(&mut pass, board) {
                Ok(()) => return pass,
                Err(back) => board = back,
            }
            thread::yield_now();
        }
        unreachable!()
    }

    /// Takes the board.
    fn take<R: Wait>(&self, rt: &R, seat: &mut Seat<A>) -> Parcel<Board<A>>
        requires { spec.IsSeatOf self.now seat.old }
        ensures seat { spec.HasSeat self.now true seat.new }
        ensures met { spec.Met seat.old seat.new result }
    {
        let mut patience = Patience::new(FIRST_SLEEP);
        for _ in rt.forever() {
            if let Some(board) = self.line.try_pop_as::<BatonTakes>(&mut seat.pass) {
                return board;
            }
            patience.wait(rt);
        }
        unreachable!()
    }

    /// Gives the board back, with the turn that was made.
    fn give<K: Making, R: Wait>(&self, rt: &R, seat: &mut Seat<A>, mut board: Parcel<Board<A>>)
        requires hand { spec.HasSeat self.now true seat.old }
        requires made { step.Made K.made (spec.met_by seat.old) seat.old.number board }
        ensures seat { spec.IsSeatOf self.now seat.new }
        ensures number { seat.new.number ≡ seat.old.number }
        ensures gave { spec.known seat.new ≡ step.gave K.made (spec.known seat.old) board }
    {
        for _ in rt.forever() {
            match self
                .line
                .try_push_as::<BatonGives<K>>(&mut seat.pass, board)
            {
                Ok(()) => return,
                Err(back) => board = back,
            }
            thread::yield_now();
        }
    }

    /// Gives the board back after a Sense.
    fn give_sense<K: Making, R: Wait>(
        &self,
        rt: &R,
        seat: &mut Seat<A>,
        board: Parcel<Board<A>>,
        answer: &Result<Sensed, Starved>,
    )
        requires hand { spec.HasSeat self.now true seat.old }
        requires noted { K.made ≡ turns.made_by_sense answer.now }
        requires made { step.Made (turns.made_by_sense answer.now) (spec.met_by seat.old) seat.old.number board }
        ensures seat { spec.IsSeatOf self.now seat.new }
        ensures number { seat.new.number ≡ seat.old.number }
        ensures gave { spec.known seat.new ≡ step.gave (turns.made_by_sense answer.now) (spec.known seat.old) board }
    {
        self.give::<K, R>(rt, seat, board)
    }

    /// Gives the board back after an Emit of these outs.
    fn give_emit<K: Making, R: Wait>(
        &self,
        rt: &R,
        seat: &mut Seat<A>,
        board: Parcel<Board<A>>,
        outs: &Snapshot<Outs>,
        answer: &Result<Option<Feedback>, Starved>,
    )
        requires hand { spec.HasSeat self.now true seat.old }
        requires noted { K.made ≡ turns.made_by_emit outs.now.value answer.now }
        requires made { step.Made (turns.made_by_emit outs.now.value answer.now) (spec.met_by seat.old) seat.old.number board }
        ensures seat { spec.IsSeatOf self.now seat.new }
        ensures number { seat.new.number ≡ seat.old.number }
        ensures gave { spec.known seat.new ≡ step.gave (turns.made_by_emit outs.now.value answer.now) (spec.known seat.old) board }
    {
        self.give::<K, R>(rt, seat, board)
    }

    /// A Sense of the seat's agent. Where it is given no input no memory is taken.
    pub fn exchange_sense<R: Threads + Wait + Sync>(
        &self,
        rt: &R,
        alloc: Global,
        seat: &mut Seat<A>,
    ) -> Result<Sensed, Starved>
        requires seat { spec.IsSeatOf self.now seat.old }
        requires idle { spec.phase_of seat.old ≡ Idle }
        ensures seat { spec.IsSeatOf self.now seat.new }
        ensures sensed { IfOk result (spec.SenseExchanged seat.old seat.new) }
        ensures given { IfOk result (spec.GivenIf seat.old) }
        ensures memory { board.is_input (board.sense (spec.met_by seat.new) seat.old.number).0 ≡ false → IsOk result }
        ensures refused { OnErr result (spec.NothingExchanged seat.old seat.new) }
    {
        let mut board = self.take(rt, seat);
        let answer = board.value_mut().sense(alloc, seat.number);
        self.give_sense::<Brand, R>(rt, seat, board, &answer);
        answer
    }

    /// An Emit of the seat's agent: the outs are carried out and are then empty. It answers what became of the action.
    /// After `Starved` the outs are as they were.
    pub fn exchange_emit<R: Threads + Wait + Sync>(
        &self,
        rt: &R,
        alloc: Global,
        seat: &mut Seat<A>,
        outs: &mut Outs,
    ) -> Result<Option<Feedback>, Starved>
        requires seat { spec.IsSeatOf self.now seat.old }
        requires busy { spec.phase_of seat.old ≡ Busy }
        requires lawful { AreOuts seat.old.number (spec.agents_of seat.old) outs.old }
        ensures seat { spec.IsSeatOf self.now seat.new }
        ensures emitted { IfOk result (spec.EmitExchanged seat.old seat.new outs.old) }
        ensures empty { OnOk result (outs.new ≡ no_outs) }
        ensures refused { OnErr result (spec.NothingExchanged seat.old seat.new) }
        ensures outs_stay { OnErr result (outs.new ≡ outs.old) }
    {
        let mut board = self.take(rt, seat);
        let shown = Snapshot::of(&*outs);
        let answer = board.value_mut().emit(alloc, seat.number, outs);
        self.give_emit::<Brand, R>(rt, seat, board, &shown, &answer);
        answer
    }

    /// The seat's agent leaves, since its budget is spent. It takes no memory.
    pub fn exchange_leave<R: Threads + Wait + Sync>(&self, rt: &R, seat: &mut Seat<A>)
        requires seat { spec.IsSeatOf self.now seat.old }
        requires busy { spec.phase_of seat.old ≡ Busy }
        ensures seat { spec.IsSeatOf self.now seat.new }
        ensures left { spec.LeaveExchanged seat.old seat.new }
    {
        let mut board = self.take(rt, seat);
        board.value_mut().leave(seat.number);
        self.give::<Departs, R>(rt, seat, board)
    }

    /// Halts the board. It takes no memory.
    pub fn exchange_halt<R: Threads + Wait + Sync>(&self, rt: &R, seat: &mut Seat<A>)
        requires seat { spec.IsSeatOf self.now seat.old }
        ensures seat { spec.IsSeatOf self.now seat.new }
        ensures halted { spec.HaltExchanged seat.old seat.new }
    {
        let mut board = self.take(rt, seat);
        board.value_mut().halt();
        self.give::<Nothing, R>(rt, seat, board)
    }

    /// Takes the views of these seats into the pass.
    fn gather(
        &self,
        mut pass: Pass<Parcel<Board<A>>, SideView>,
        mut seats: Seats<A>,
    ) -> Pass<Parcel<Board<A>>, SideView>
        requires pass { IsPassOf self.now.line pass }
        requires gathers { gathering.Gathers (view pass) }
        requires seats { Each (spec.IsSeatOf self.now) seats }
        ensures pass { IsPassOf self.now.line result }
        ensures joined { view result ≡ gathering.joined (view pass) seats }
    {
        while let Some(seat) = seats.pop() {
            let Seat {
                number: _,
                pass: other,
            } = seat;
            self.line.absorb::<SplitsSide>(&mut pass, other);
        }
        pass
    }

    /// All seats come back, in order, and with them the board. It takes no memory.
    pub fn close<R: Threads + Wait + Sync>(self, rt: &R, mut seats: Seats<A>) -> Board<A>
        requires { spec.AllBack self seats }
        ensures { spec.Closed seats result }
    {
        let Some(first) = seats.remove(0) else {
            unreachable!()
        };
        let Seat { number: _, pass } = first;
        let mut pass = self.gather(pass, seats);
        match self.line.pop_as::<BatonCloses, R>(rt, &mut pass) {
            Some(board) => board.into_inner(),
            None => unreachable!(),
        }
    }
}
