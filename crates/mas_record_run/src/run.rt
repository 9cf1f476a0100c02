//! A run whose turns are on the disk before they count.

ghost use Rattle.std.specs.Prelude.{◌≡◌, ◌<◌, length, IfOk, IfErr};
ghost use Rattle.mas_core.specs.Fits.{IsPlay};
ghost use Rattle.mas_board_lists.specs.Lists.{Each};
ghost use Rattle.mas_record.specs.Rule.{MayOpen};
ghost use Rattle.mas_record.specs.Tickets.{first_by};
ghost use Rattle.mas_record_rounds.specs.Dealing.{AreRooms, HasRoom};
ghost use Rattle.mas_record_disk.specs.PastDisk.{CameFrom, IsOnlyNow};
ghost use Rattle.mas_record_run.specs.declared.fault.RecordFault.TheVariants.{Memory};
ghost use Rattle.mas_record_run.specs.Runs as spec;

use crate::fault::{RecordFault, RecordedRun};
use asl_term::sequence::Seq;
use mas_core::replay::Rewound;
use mas_core::robin::Done;
use mas_mind::thinking::Mind;
use mas_record::deck::{Deck, DeckFault};
use mas_record::recorder::{Recorder, open_recorder};
use mas_record::ticket::Tickets;
use mas_record_disk::disk::{Disk, DiskFail};
use mas_record_disk::watch::{PastDisk, Watched};
use mas_record_journal::journal::{Journal, journal_of};
use mas_record_rounds::dealing::{deal, part, rooms, wait_all};
use mas_record_rounds::rounds::{Ended, rounds};
use mas_record_rounds::share::{Rooms, Waiting};
use mas_world::artifact::Artifact;
use std::alloc::Global;
use std::marker::Brand;
use std::sync::Wait;
use std::thread::Threads;

/// Board, journal and minds after the rounds, and why they ended before every agent had left.
#[derive(Drop)]
struct Closing<M: Mind, A: Artifact, D: Disk + Send> {
    deck: Deck<A, D>,
    minds: Seq<M>,
    came: Result<(), DeckFault>,
}

/// The rounds of the agents whose tickets these are, and the close.
fn play<R: Threads + Wait + Sync, M: Mind + Send, A: Artifact + Send, D: Disk + Send>(
    rt: &R,
    alloc: Global,
    recorder: Recorder<A, D>,
    tickets: Tickets<A, D>,
    waiting: Seq<Waiting<M, A, D>>,
    rooms: Rooms<M, A, D>,
    workers: u32,
) -> Closing<M, A, D>
    requires some { 0 < workers }
    requires rooms { AreRooms (length tickets) rooms }
    requires places { Each (λ w. HasRoom 1 w.place) waiting }
    requires begin { spec.Begins M.kind recorder (first_by tickets) tickets waiting }
    ensures { spec.HasPlayed M.kind D.state (first_by tickets) waiting result.deck result.minds result.came }
{
    let Rooms {
        shares,
        tickets: empty,
        minds,
    } = rooms;
    let shares = deal(shares, tickets, waiting);
    let Ended { shares, came } = rounds(rt, alloc, &recorder, shares, workers);
    let (tickets, minds) = part(empty, minds, shares);
    let deck = recorder.close(rt, tickets);
    Closing { deck, minds, came }
}

/// What the run comes to: the refusal that tore the journal, or else what the rounds came to.
fn came_to(torn: Option<DiskFail>, came: Result<(), DeckFault>) -> Result<(), RecordFault>
    ensures { result ≡ spec.came_to torn came }
{
    match torn {
        Some(DiskFail::Memory) => Err(RecordFault::Memory),
        Some(DiskFail::Failed) => Err(RecordFault::Disk),
        None => match came {
            Ok(()) => Ok(()),
            Err(_) => Err(RecordFault::Memory),
        },
    }
}

/// The disk, and the board and the minds where every agent has left.
fn settle<M: Mind, A: Artifact, D: Disk + Send>(closing: Closing<M, A, D>) -> RecordedRun<M, A, D>
    ensures disk { result.disk ≡ closing.deck.journal.disk }
    ensures ok { IfOk result.answer (λ d. spec.IsDone closing.deck closing.minds closing.came d.board d.minds) }
    ensures err { IfErr result.answer (spec.IsNotDone closing.deck closing.came) }
{
    let Closing { deck, minds, came } = closing;
    let Deck { board, journal } = deck;
    let torn = journal.torn();
    let disk = journal.release();
    match came_to(torn, came) {
        Ok(()) => RecordedRun {
            disk,
            answer: Ok(Done { board, minds }),
        },
        Err(fault) => {
            drop(board);
            drop(minds);
            RecordedRun {
                disk,
                answer: Err(fault),
            }
        }
    }
}

/// The disk of a journal, without a run.
pub fn refused<M: Mind, A: Artifact, D: Disk + Send>(
    journal: Journal<D>,
    fault: RecordFault,
) -> RecordedRun<M, A, D>
    ensures disk { result.disk ≡ journal.disk }
    ensures answer { spec.IsRefusal fault result.answer }
{
    RecordedRun {
        disk: journal.release(),
        answer: Err(fault),
    }
}

/// What a crash may leave of the disk of an open journal, when nothing was done with it.
pub fn only_open<D: Disk>(journal: &Journal<D>)
    ensures { IsOnlyNow (D.state journal.now.disk) }
{}

/// The run on a disk of which nothing is known but what its calls say.
fn run_open<R: Threads + Wait + Sync, M: Mind + Send, A: Artifact + Send, D: Disk + Send>(
    rt: &R,
    alloc: Global,
    rewound: Rewound<M, A>,
    journal: Journal<D>,
    workers: u32,
) -> RecordedRun<M, A, D>
    requires some { 0 < workers }
    requires play { IsPlay M.kind rewound.board rewound.minds rewound.thoughts }
    requires may { MayOpen {A = A} D.state (record { board = rewound.board; journal = journal }) }
    ensures ok { IfOk result.answer (λ d. spec.RanOn M.kind rewound.board rewound.minds rewound.thoughts d.board d.minds) }
    ensures there { IfOk result.answer (λ d. spec.HasLeft journal.turns d.board.schedule (D.state journal.disk) (D.state result.disk)) }
    ensures err { IfErr result.answer (spec.RunCause (D.state journal.disk) (D.state result.disk)) }
    ensures leaves { spec.LeavesSince journal.turns (D.state journal.disk) (D.state result.disk) }
{
    let Rewound {
        board,
        minds,
        thoughts,
    } = rewound;
    only_open(&journal);
    board.holds();
    let Ok(rooms) = rooms(alloc, minds.len()) else {
        return refused(journal, RecordFault::Memory);
    };
    let Ok(waiting) = wait_all(alloc, minds, thoughts) else {
        return refused(journal, RecordFault::Memory);
    };
    match open_recorder(rt, alloc, board, journal) {
        Ok((recorder, tickets)) => {
            settle(play(rt, alloc, recorder, tickets, waiting, rooms, workers))
        }
        Err(back) => RecordedRun {
            disk: back.disk,
            answer: Err(RecordFault::Memory),
        },
    }
}

/// The run on a disk that knows how it was as the run began.
fn run_watched<
    K: PastDisk + Send,
    R: Threads + Wait + Sync,
    M: Mind + Send,
    A: Artifact + Send,
    D: Disk + Send,
>(
    rt: &R,
    alloc: Global,
    rewound: Rewound<M, A>,
    journal: Journal<D>,
    workers: u32,
) -> RecordedRun<M, A, D>
    requires some { 0 < workers }
    requires play { IsPlay M.kind rewound.board rewound.minds rewound.thoughts }
    requires may { MayOpen {A = A} D.state (record { board = rewound.board; journal = journal }) }
    requires came { CameFrom K.past (D.state journal.disk) }
    ensures ok { IfOk result.answer (λ d. spec.RanOn M.kind rewound.board rewound.minds rewound.thoughts d.board d.minds) }
    ensures there { IfOk result.answer (λ d. spec.HasLeft journal.turns d.board.schedule (D.state journal.disk) (D.state result.disk)) }
    ensures err { IfErr result.answer (spec.RunCause (D.state journal.disk) (D.state result.disk)) }
    ensures leaves { spec.LeavesSince journal.turns (D.state journal.disk) (D.state result.disk) }
    ensures came { CameFrom K.past (D.state result.disk) }
{
    let (disk, turns) = journal.part();
    let journal = journal_of(Watched::<K, D>::new(disk), turns);
    let RecordedRun { disk, answer } = run_open(rt, alloc, rewound, journal, workers);
    disk.holds();
    RecordedRun {
        disk: disk.release(),
        answer,
    }
}

/// The run goes on from where the turns of the journal have led, by so many workers.
pub fn run_on<R: Threads + Wait + Sync, M: Mind + Send, A: Artifact + Send, D: Disk + Send>(
    rt: &R,
    alloc: Global,
    rewound: Rewound<M, A>,
    journal: Journal<D>,
    workers: u32,
) -> RecordedRun<M, A, D>
    requires some { 0 < workers }
    requires play { IsPlay M.kind rewound.board rewound.minds rewound.thoughts }
    requires may { MayOpen {A = A} D.state (record { board = rewound.board; journal = journal }) }
    ensures ok { IfOk result.answer (λ d. spec.RanOn M.kind rewound.board rewound.minds rewound.thoughts d.board d.minds) }
    ensures there { IfOk result.answer (λ d. spec.HasLeft journal.turns d.board.schedule (D.state journal.disk) (D.state result.disk)) }
    ensures err { IfErr result.answer (spec.RunCause (D.state journal.disk) (D.state result.disk)) }
    ensures leaves { spec.Leaves journal.turns (D.state journal.disk) (D.state result.disk) }
{
    run_watched::<Brand, R, M, A, D>(rt, alloc, rewound, journal, workers)
}
