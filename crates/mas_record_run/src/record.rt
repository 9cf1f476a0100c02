//! Runs that are recorded from their beginning, and those that go on from what a file tells.

ghost use Rattle.std.specs.Prelude.{◌≡◌, ◌<◌, [], None, IfOk, IfErr};
ghost use Rattle.mas_core.specs.Fits.{Start};
ghost use Rattle.mas_core.specs.Platform.{opening_platform};
ghost use Rattle.mas_core.specs.Replay.{RanAlong};
ghost use Rattle.mas_record_disk.specs.PastDisk.{IsOnlyNow};
ghost use Rattle.mas_record_journal.specs.Kept.{IsJournal};
ghost use Rattle.mas_record_run.specs.Records as spec;
ghost use Rattle.mas_record_run.specs.Runs.{IsRefusal, HasLeft, Leaves, WentOn};

use crate::fault::{RecordFault, RecordedRun};
use crate::run::{only_open, refused, run_on};
use asl_term::sequence::Seq;
use asl_term::syntax::Text;
use mas_board::board::Board;
use mas_core::replay::{PlayFault, rewind};
use mas_mind::thinking::Mind;
use mas_record_disk::disk::{Disk, Picked};
use mas_record_journal::journal::{Journal, create, open_journal};
use mas_world::artifact::Artifact;
use std::alloc::Global;
use std::sync::Wait;
use std::thread::Threads;

/// The run along the turns of a journal, and on from there to the end of every agent.
fn go_on<R: Threads + Wait + Sync, M: Mind + Send, A: Artifact + Send, D: Disk + Send>(
    rt: &R,
    alloc: Global,
    board: Board<A>,
    minds: Seq<M>,
    journal: Journal<D>,
    workers: u32,
) -> RecordedRun<M, A, D>
    requires some { 0 < workers }
    requires start { Start M.kind board minds }
    requires whole { IsJournal (D.state journal.disk) journal.turns journal.torn }
    requires open_now { journal.torn ≡ None }
    ensures ok { IfOk result.answer (λ d. spec.RanFrom M.kind (opening_platform board.state minds) journal.turns d.board d.minds) }
    ensures there { IfOk result.answer (λ d. HasLeft journal.turns d.board.schedule (D.state journal.disk) (D.state result.disk)) }
    ensures err { IfErr result.answer (spec.GoCause M.kind (opening_platform board.state minds) journal.turns (D.state journal.disk) (D.state result.disk)) }
    ensures leaves { Leaves journal.turns (D.state journal.disk) (D.state result.disk) }
{
    only_open(&journal);
    match rewind(alloc, board, minds, journal.turns()) {
        Ok(rewound) => run_on(rt, alloc, rewound, journal, workers),
        Err(PlayFault::Memory) => refused(journal, RecordFault::Memory),
        Err(PlayFault::Illegal(place)) => refused(journal, RecordFault::Illegal(place)),
        Err(PlayFault::Unended(_)) => unreachable!(),
    }
}

/// What a crash may leave of a disk with which nothing was done.
fn only_now<D: Disk>(disk: &D)
    ensures { IsOnlyNow (D.state disk.now) }
{}

/// A disk without a run.
fn back<M: Mind, A: Artifact, D: Disk + Send>(
    board: Board<A>,
    minds: Seq<M>,
    disk: D,
    fault: RecordFault,
) -> RecordedRun<M, A, D>
    ensures disk { result.disk ≡ disk }
    ensures answer { IsRefusal fault result.answer }
{
    drop(board);
    drop(minds);
    RecordedRun {
        disk,
        answer: Err(fault),
    }
}

/// A whole run, each turn of which is in the file of this name before it counts. What the file was is lost.
pub fn record_run<R: Threads + Wait + Sync, M: Mind + Send, A: Artifact + Send, D: Disk + Send>(
    rt: &R,
    alloc: Global,
    board: Board<A>,
    minds: Seq<M>,
    disk: D,
    file: &Text,
    workers: u32,
) -> RecordedRun<M, A, D>
    requires some { 0 < workers }
    requires start { Start M.kind board minds }
    requires free { (D.state disk).picked ≡ None }
    ensures ok { IfOk result.answer (λ d. RanAlong M.kind (opening_platform board.state minds) d.board.schedule d.board d.minds) }
    ensures there { IfOk result.answer (λ d. spec.IsKeptOn D.state file.now [] d.board.schedule (D.state disk) (D.state result.disk)) }
    ensures err { IfErr result.answer (spec.RecordCause (D.state disk) (D.state result.disk)) }
    ensures on { WentOn (D.state disk) (D.state result.disk) }
{
    let mut disk = disk;
    match disk.pick(file, true) {
        Ok(Picked::Ready) => match create(alloc, disk) {
            Ok(journal) => go_on(rt, alloc, board, minds, journal, workers),
            Err(refused) => back(board, minds, refused.disk, refused.why.into()),
        },
        Ok(Picked::Missing) => unreachable!(),
        Err(fail) => back(board, minds, disk, fail.into()),
    }
}

/// The run that the file of this name tells, and on from there to its end.
pub fn resume_run<R: Threads + Wait + Sync, M: Mind + Send, A: Artifact + Send, D: Disk + Send>(
    rt: &R,
    alloc: Global,
    board: Board<A>,
    minds: Seq<M>,
    disk: D,
    file: &Text,
    workers: u32,
) -> RecordedRun<M, A, D>
    requires some { 0 < workers }
    requires start { Start M.kind board minds }
    requires free { (D.state disk).picked ≡ None }
    ensures ok { let p = opening_platform board.state minds in
        IfOk result.answer (λ d. spec.IsResumed M.kind p D.state file.now (D.state disk) (D.state result.disk) d.board d.minds) }
    ensures err { let p = opening_platform board.state minds in
        IfErr result.answer (spec.ResumeCause M.kind p file.now (D.state disk) (D.state result.disk)) }
    ensures on { WentOn (D.state disk) (D.state result.disk) }
    ensures crash { spec.IsCrashSafe file.now (D.state disk) (D.state result.disk) }
{
    only_now(&disk);
    let mut disk = disk;
    match disk.pick(file, false) {
        Ok(Picked::Ready) => match open_journal(alloc, disk) {
            Ok(journal) => go_on(rt, alloc, board, minds, journal, workers),
            Err(refused) => back(board, minds, refused.disk, refused.why.into()),
        },
        Ok(Picked::Missing) => back(board, minds, disk, RecordFault::Missing),
        Err(fail) => back(board, minds, disk, fail.into()),
    }
}
