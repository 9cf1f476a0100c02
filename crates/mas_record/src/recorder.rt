//! The calls of a ticket: each takes board and journal, makes one turn, appends it to the journal, and gives both back.

ghost use Rattle.std.specs.Prelude.{◌≡◌, ◌<◌, ◌+◌, ◌++◌, ◌∷◌, [], true, false, None, Some, length, Option, IfOk, IfErr, OnOk, OnErr};
ghost use Rattle.crossbeam_queue.specs.Passes.{view, IsPassOf};
ghost use Rattle.mas_mind.specs.Minds.{AreOuts};
ghost use Rattle.mas_board.specs.declared.seats.Phase.TheVariants.{Idle, Busy};
ghost use Rattle.mas_board.specs.Boards.{no_outs, is_gone};
ghost use Rattle.mas_record_disk.specs.PastDisk.{IsCounted, IsOnlyNow};
ghost use Rattle.mas_record_journal.specs.declared.back.BackWhy.TheVariants.{Memory};
ghost use Rattle.mas_record_journal.specs.Kept.{IsJournal, IsTurn};
ghost use Rattle.mas_board_lists.specs.Lists.{Each};
ghost use Rattle.mas_board_turns.specs.declared.turn.Turn.TheVariants.{Gone};
ghost use Rattle.mas_board_turns.specs.Answers as turns;
ghost use Rattle.mas_record.specs.Rule as rule;
ghost use Rattle.mas_record.specs.Entries as entries;
ghost use Rattle.mas_record.specs.Views as views;
ghost use Rattle.mas_record.specs.Standing as standing;
ghost use Rattle.mas_record.specs.Tickets as spec;
ghost use Rattle.mas_record.specs.Gathering as gathering;

use crate::deck::{Deck, DeckFault};
use crate::rule::{RecorderCloses, RecorderGives, RecorderOpens, RecorderRule, RecorderTakes};
use crate::side::{DeckView, SplitsDeck};
use crate::ticket::{Ticket, Tickets};
use asl_term::room::Roomy;
use asl_term::sequence::Starved;
use crossbeam_queue::{Pass, RuledArrayQueue};
use mas_board::board::Board;
use mas_board::seats::{Phase, Sensed};
use mas_board_turns::view::{Departs, Making, Nothing};
use mas_mind::mind::{Feedback, Outs};
use mas_patience::patience::Patience;
use mas_record_disk::disk::{Disk, DiskFail};
use mas_record_journal::back::{Back, BackWhy};
use mas_record_journal::journal::Journal;
use mas_world::artifact::Artifact;
use std::alloc::Global;
use std::marker::Brand;
use std::snapshot::Snapshot;
use std::sync::{Mutex, Wait};
use std::thread;
use std::thread::Threads;

/// A worker that finds board and journal taken sleeps so many nanoseconds at first: whoever has them waits for the disk.
const FIRST_SLEEP: u64 = 800_000;

pub type RecorderQueue<A, D> = RuledArrayQueue<Deck<A, D>, DeckView<D>, RecorderRule>;

/// The place of board and journal between two calls, and the door before which all sleep who wait for them but one.
#[derive(Drop)]
pub struct Recorder<A: Artifact, D: Disk + Send> {
    pub line: RecorderQueue<A, D>,
    pub door: Mutex<()>,
}

/// Lays board and journal out for the agents, with a ticket for each, in order. Want of memory gives the disk back as it was.
pub fn open_recorder<R: Threads + Wait + Sync, A: Artifact, D: Disk + Send>(
    rt: &R,
    alloc: Global,
    board: Board<A>,
    journal: Journal<D>,
) -> Result<(Recorder<A, D>, Tickets<A, D>), Back<D>>
    requires { rule.MayOpen {A = A} D.state (record { board = board; journal = journal }) }
    ensures ok { IfOk result (λ r. spec.Opened {A = A} D.state (record { board = board; journal = journal }) r.0 r.1) }
    ensures err { IfErr result (λ b. (b.disk ≡ journal.disk) × (b.why ≡ Memory)) }
{
    board.holds();
    let agents = board.names().len();
    let mut tickets = Roomy::new(alloc);
    if tickets.reserve(agents as u64).is_err() {
        return Err(starved(journal));
    }
    let Ok((line, pass)) = RecorderQueue::ruled(alloc, 1) else {
        return Err(starved(journal));
    };
    let recorder = Recorder {
        line,
        door: Mutex::new(()),
    };
    only_now(&journal);
    let mut pass = recorder.begin(rt, pass, Deck { board, journal });
    for k in 0..agents {
        let one = recorder.line.another::<SplitsDeck>(&mut pass);
        hand(
            &mut tickets,
            Ticket {
                number: k + 1,
                pass: one,
            },
        );
    }
    Ok((recorder, tickets.into_seq()))
}

/// Since this moment a crash leaves of the disk only what it may leave now.
fn only_now<D: Disk>(journal: &Journal<D>)
    ensures { IsOnlyNow (D.state journal.now.disk) }
{}

/// What a crash may leave of the disk now it may leave since any earlier moment.
fn counts_now<D: Disk>(journal: &Journal<D>)
    ensures { IsCounted (D.state journal.now.disk) }
{}

/// One more ticket, for which there is room.
fn hand<A: Artifact, D: Disk + Send>(tickets: &mut Roomy<Ticket<A, D>>, ticket: Ticket<A, D>)
    requires { 0 < tickets.old.spare }
    ensures list { tickets.new.list ≡ tickets.old.list ++ ticket ∷ [] }
    ensures room { tickets.new.spare + 1 ≡ tickets.old.spare }
{
    match tickets.push(ticket) {
        Ok(()) => {}
        Err(_) => unreachable!(),
    }
}

/// The disk of a journal, handed back for want of memory.
fn starved<D: Disk + Send>(journal: Journal<D>) -> Back<D>
    ensures disk { result.disk ≡ journal.disk }
    ensures why { result.why ≡ Memory }
{
    Back {
        disk: journal.release(),
        why: BackWhy::Memory,
    }
}

/// Appends the turn of this agent.
fn append<D: Disk + Send>(journal: &mut Journal<D>, a: u32) -> Result<(), DiskFail>
    requires turn { IsTurn a }
    requires whole { IsJournal (D.state journal.old.disk) journal.old.turns journal.old.torn }
    requires open_now { journal.old.torn ≡ None }
    ensures { entries.Appended D.state a journal.old journal.new result }
{
    let written = journal.append(a);
    counts_now(journal);
    written
}

/// Appends the turn that a Sense made, if it made one.
fn append_sensed<D: Disk + Send>(
    journal: &mut Journal<D>,
    a: u32,
    answer: &Result<Sensed, Starved>,
) -> Result<(), DiskFail>
    requires turn { IsTurn a }
    requires whole { IsJournal (D.state journal.old.disk) journal.old.turns journal.old.torn }
    requires open_now { journal.old.torn ≡ None }
    ensures { entries.NotedIn D.state (turns.made_by_sense answer.now) a journal.old journal.new result }
{
    match answer {
        Ok(Sensed::Input(_)) => append(journal, a),
        Ok(Sensed::Left(_)) => append(journal, a),
        Ok(Sensed::Ahead { .. }) => Ok(()),
        Ok(Sensed::Halted) => Ok(()),
        Err(_) => Ok(()),
    }
}

/// Appends the turn that an Emit of these outs made, if it made one.
fn append_emitted<D: Disk + Send>(
    journal: &mut Journal<D>,
    a: u32,
    outs: &Snapshot<Outs>,
    answer: &Result<Option<Feedback>, Starved>,
) -> Result<(), DiskFail>
    requires turn { IsTurn a }
    requires whole { IsJournal (D.state journal.old.disk) journal.old.turns journal.old.torn }
    requires open_now { journal.old.torn ≡ None }
    ensures { entries.NotedIn D.state (turns.made_by_emit outs.now.value answer.now) a journal.old journal.new result }
{
    match answer {
        Ok(_) => append(journal, a),
        Err(_) => Ok(()),
    }
}

/// Whether this is the phase of an agent that has left.
fn gone(phase: Phase) -> bool
    ensures { result ≡ is_gone phase }
{
    match phase {
        Phase::Left(_) => true,
        Phase::Idle => false,
        Phase::Busy => false,
    }
}

/// What a call answers: the board's answer, where the journal took the turn.
fn answered<T: Drop>(
    answer: Result<T, Starved>,
    written: Result<(), DiskFail>,
) -> Result<T, DeckFault>
    ensures { result ≡ spec.answered answer written }
{
    let value = answer?;
    written?;
    Ok(value)
}

impl<A: Artifact, D: Disk + Send> Recorder<A, D> {
    /// Puts board and journal into the queue.
    fn begin<R: Wait>(
        &self,
        rt: &R,
        mut pass: Pass<Deck<A, D>, DeckView<D>>,
        mut deck: Deck<A, D>,
    ) -> Pass<Deck<A, D>, DeckView<D>>
        requires pass { IsPassOf self.now.line pass }
        requires empty { (view pass).side.started ≡ false }
        requires shown { rule.shown deck ≡ deck.board }
        requires kept { rule.IsKept D.state (rule.opening D.state deck) deck }
        ensures pass { IsPassOf self.now.line result }
        ensures opened { view result ≡ views.opened (rule.opening D.state deck) }
    {
        for _ in rt.forever() {
            match self.line.try_push_as::<RecorderOpens>(&mut pass, deck) {
                Ok(()) => return pass,
                Err(back) => deck = back,
            }
            thread::yield_now();
        }
        unreachable!()
    }

    /// Takes board and journal. Of those who find them taken one looks again and again; the others sleep until it has them.
    fn take<R: Wait>(&self, rt: &R, ticket: &mut Ticket<A, D>) -> Deck<A, D>
        requires { spec.IsTicketOf self.now ticket.old }
        ensures ticket { spec.HasTicket self.now true ticket.new }
        ensures met { spec.Met D.state ticket.old ticket.new result }
    {
        if let Some(deck) = self.line.try_pop_as::<RecorderTakes>(&mut ticket.pass) {
            return deck;
        }
        let _door = self.door.lock(rt);
        let mut patience = Patience::new(FIRST_SLEEP);
        for _ in rt.forever() {
            if let Some(deck) = self.line.try_pop_as::<RecorderTakes>(&mut ticket.pass) {
                return deck;
            }
            patience.wait(rt);
        }
        unreachable!()
    }

    /// Gives board and journal back, with the turn that was made.
    fn give<K: Making, R: Wait>(&self, rt: &R, ticket: &mut Ticket<A, D>, mut deck: Deck<A, D>)
        requires hand { spec.HasTicket self.now true ticket.old }
        requires made { standing.DeckMayGive D.state K.made ticket.old.number (spec.knows ticket.old) deck }
        ensures ticket { spec.IsTicketOf self.now ticket.new }
        ensures number { ticket.new.number ≡ ticket.old.number }
        ensures gave { spec.knows ticket.new ≡ views.gave D.state K.made (spec.knows ticket.old) deck }
    {
        only_now(&deck.journal);
        for _ in rt.forever() {
            match self
                .line
                .try_push_as::<RecorderGives<K>>(&mut ticket.pass, deck)
            {
                Ok(()) => return,
                Err(back) => deck = back,
            }
            thread::yield_now();
        }
    }

    /// Gives board and journal back after a Sense.
    fn give_sense<K: Making, R: Wait>(
        &self,
        rt: &R,
        ticket: &mut Ticket<A, D>,
        deck: Deck<A, D>,
        answer: &Result<Sensed, Starved>,
    )
        requires hand { spec.HasTicket self.now true ticket.old }
        requires noted { K.made ≡ turns.made_by_sense answer.now }
        requires made { standing.DeckMayGive D.state (turns.made_by_sense answer.now) ticket.old.number (spec.knows ticket.old) deck }
        ensures ticket { spec.IsTicketOf self.now ticket.new }
        ensures number { ticket.new.number ≡ ticket.old.number }
        ensures gave { spec.knows ticket.new ≡ views.gave D.state (turns.made_by_sense answer.now) (spec.knows ticket.old) deck }
    {
        self.give::<K, R>(rt, ticket, deck)
    }

    /// Gives board and journal back after an Emit of these outs.
    fn give_emit<K: Making, R: Wait>(
        &self,
        rt: &R,
        ticket: &mut Ticket<A, D>,
        deck: Deck<A, D>,
        outs: &Snapshot<Outs>,
        answer: &Result<Option<Feedback>, Starved>,
    )
        requires hand { spec.HasTicket self.now true ticket.old }
        requires noted { K.made ≡ turns.made_by_emit outs.now.value answer.now }
        requires made { standing.DeckMayGive D.state (turns.made_by_emit outs.now.value answer.now) ticket.old.number (spec.knows ticket.old) deck }
        ensures ticket { spec.IsTicketOf self.now ticket.new }
        ensures number { ticket.new.number ≡ ticket.old.number }
        ensures gave { spec.knows ticket.new ≡ views.gave D.state (turns.made_by_emit outs.now.value answer.now) (spec.knows ticket.old) deck }
    {
        self.give::<K, R>(rt, ticket, deck)
    }

    /// A Sense of the ticket's agent.
    pub fn sense<R: Threads + Wait + Sync>(
        &self,
        rt: &R,
        alloc: Global,
        ticket: &mut Ticket<A, D>,
    ) -> Result<Sensed, DeckFault>
        requires ticket { spec.IsTicketOf self.now ticket.old }
        requires idle { spec.phase_of ticket.old ≡ Idle }
        ensures ticket { spec.IsTicketOf self.now ticket.new }
        ensures sensed { IfOk result (spec.SenseRecorded ticket.old ticket.new) }
        ensures given { IfOk result (spec.GivenIf ticket.old) }
        ensures refused { IfErr result (spec.SenseRefused ticket.old ticket.new) }
    {
        let mut deck = self.take(rt, ticket);
        if deck.journal.torn().is_some() {
            self.give::<Nothing, R>(rt, ticket, deck);
            return Ok(Sensed::Halted);
        }
        deck.board.holds();
        let answer = deck.board.sense(alloc, ticket.number);
        let written = append_sensed(&mut deck.journal, ticket.number, &answer);
        self.give_sense::<Brand, R>(rt, ticket, deck, &answer);
        answered(answer, written)
    }

    /// An Emit of the ticket's agent: the outs are carried out and are then empty.
    pub fn emit<R: Threads + Wait + Sync>(
        &self,
        rt: &R,
        alloc: Global,
        ticket: &mut Ticket<A, D>,
        outs: &mut Outs,
    ) -> Result<Option<Feedback>, DeckFault>
        requires ticket { spec.IsTicketOf self.now ticket.old }
        requires busy { spec.phase_of ticket.old ≡ Busy }
        requires lawful { AreOuts ticket.old.number (spec.agents_of ticket.old) outs.old }
        ensures ticket { spec.IsTicketOf self.now ticket.new }
        ensures emitted { IfOk result (spec.EmitRecorded ticket.old ticket.new outs.old) }
        ensures empty { OnOk result (outs.new ≡ no_outs) }
        ensures refused { IfErr result (spec.TurnRefused ticket.old ticket.new) }
    {
        let mut deck = self.take(rt, ticket);
        if let Some(why) = deck.journal.torn() {
            self.give::<Nothing, R>(rt, ticket, deck);
            return Err(why.into());
        }
        deck.board.holds();
        let shown = Snapshot::of(&*outs);
        let answer = deck.board.emit(alloc, ticket.number, outs);
        let written = append_emitted(&mut deck.journal, ticket.number, &shown, &answer);
        self.give_emit::<Brand, R>(rt, ticket, deck, &shown, &answer);
        answered(answer, written)
    }

    /// The ticket's agent leaves, since its budget is spent.
    pub fn leave<R: Threads + Wait + Sync>(
        &self,
        rt: &R,
        ticket: &mut Ticket<A, D>,
    ) -> Result<(), DeckFault>
        requires ticket { spec.IsTicketOf self.now ticket.old }
        requires busy { spec.phase_of ticket.old ≡ Busy }
        ensures ticket { spec.IsTicketOf self.now ticket.new }
        ensures left { OnOk result (spec.LeaveRecorded ticket.old ticket.new) }
        ensures refused { IfErr result (spec.TurnRefused ticket.old ticket.new) }
    {
        let mut deck = self.take(rt, ticket);
        if let Some(why) = deck.journal.torn() {
            self.give::<Nothing, R>(rt, ticket, deck);
            return Err(why.into());
        }
        deck.board.holds();
        deck.board.leave(ticket.number);
        let written = append(&mut deck.journal, ticket.number);
        self.give::<Departs, R>(rt, ticket, deck);
        answered(Ok(()), written)
    }

    /// Whether the ticket's agent has left. Nothing is made of board and journal.
    pub fn has_left<R: Threads + Wait + Sync>(&self, rt: &R, ticket: &mut Ticket<A, D>) -> bool
        requires { spec.IsTicketOf self.now ticket.old }
        ensures ticket { spec.IsTicketOf self.now ticket.new }
        ensures left { result ≡ is_gone (spec.phase_of ticket.old) }
        ensures same { spec.Exchanged ticket.old ticket.new None (spec.met_by ticket.new) }
    {
        let deck = self.take(rt, ticket);
        let phase = deck.board.phase(ticket.number);
        self.give::<Nothing, R>(rt, ticket, deck);
        gone(phase)
    }

    /// Takes the views of these tickets into the pass.
    fn gather(
        &self,
        mut pass: Pass<Deck<A, D>, DeckView<D>>,
        mut tickets: Tickets<A, D>,
    ) -> Pass<Deck<A, D>, DeckView<D>>
        requires pass { IsPassOf self.now.line pass }
        requires gathers { gathering.Gathers (view pass).side }
        requires tickets { Each (spec.IsTicketOf self.now) tickets }
        ensures pass { IsPassOf self.now.line result }
        ensures joined { view result ≡ gathering.joined (view pass) tickets }
    {
        while let Some(ticket) = tickets.pop() {
            let Ticket {
                number: _,
                pass: other,
            } = ticket;
            self.line.absorb::<SplitsDeck>(&mut pass, other);
        }
        pass
    }

    /// All tickets come back, in order, and with them board and journal. It takes no memory.
    pub fn close<R: Threads + Wait + Sync>(self, rt: &R, mut tickets: Tickets<A, D>) -> Deck<A, D>
        requires { spec.AllBack self tickets }
        ensures { spec.Closed D.state tickets result }
    {
        let Some(first) = tickets.remove(0) else {
            unreachable!()
        };
        let Ticket { number: _, pass } = first;
        let mut pass = self.gather(pass, tickets);
        match self.line.pop_as::<RecorderCloses, R>(rt, &mut pass) {
            Some(deck) => deck,
            None => unreachable!(),
        }
    }
}
