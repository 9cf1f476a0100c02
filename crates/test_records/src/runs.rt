//! Recorded runs of three minds, on disks that fail, crash and are gone on from.

ghost use Rattle.std.specs.Prelude.{◌≡◌, ◌<◌, None, IfOk, length};
ghost use Rattle.test_records.specs.Watchers as spec;

use crate::counting::Counting;
use crate::watching::{Marks, Watching};
use asl_term::copying::text_of;
use asl_term::names::{Names, number};
use asl_term::sequence::{Seq, Starved};
use asl_term::syntax::{Filed, Files, Numbers, Text};
use mas_artifact::tally::Tally;
use mas_board::board::{Board, open_board};
use mas_record_disk::disk::Disk;
use mas_record_files::memory::{MemoryDisk, memory_disk};
use mas_record_journal::reading::recovered;
use mas_record_run::fault::{RecordFault, RecordedRun};
use mas_record_run::record::{record_run, resume_run};
use mas_world::segment::Segment;
use mas_world::world::{Artifacts, World};
use std::alloc::Global;
use std::sync::Wait;
use std::sync::atomic::Ordering;
use std::thread::Threads;

fn put_name(alloc: Global, names: &mut Names, name: &[u8]) -> Result<(), Starved> {
    let text = text_of(alloc, name)?;
    if names.len() < 3 {
        number(names, &text)?;
    }
    Ok(())
}

fn three_names(alloc: Global) -> Result<Names, Starved>
    ensures { IfOk result (λ names. length names ≡ 3) }
{
    let mut names = Names::new(alloc)?;
    put_name(alloc, &mut names, b"x")?;
    put_name(alloc, &mut names, b"y")?;
    put_name(alloc, &mut names, b"z")?;
    if names.len() == 3 {
        Ok(names)
    } else {
        Err(Starved)
    }
}

/// A board of three agents in a world without facts, on which each may make three cycles.
#[tactic(auto, using(crate::proofs::Starts::opened))]
fn board_of_three(alloc: Global) -> Result<Board<Tally>, Starved>
    ensures { IfOk result spec.IsOpened }
{
    let hidden = Names::new(alloc)?;
    let names = three_names(alloc)?;
    let file = Segment::new(Seq::new(alloc), Seq::new(alloc));
    let world = World::of(file, hidden, Artifacts::new(alloc));
    open_board(alloc, world, names, 3, 2)
}

fn mind<'a>(alloc: Global, me: u32, marks: &'a Marks) -> Watching<'a>
    ensures { spec.IsFresh me result }
{
    Watching {
        me,
        made: 0,
        waits: false,
        text: Seq::new(alloc),
        marks,
    }
}

fn three_minds<'a>(alloc: Global, marks: &'a Marks) -> Result<Seq<Watching<'a>>, Starved>
    ensures { IfOk result spec.AreThree }
{
    let mut minds = Seq::new(alloc);
    minds.push(mind(alloc, 1, marks))?;
    minds.push(mind(alloc, 2, marks))?;
    minds.push(mind(alloc, 3, marks))?;
    Ok(minds)
}

/// Whether a run begins in its file, or goes on from what the file tells.
#[derive(Clone, Copy)]
enum From {
    Nothing,
    File,
}

fn run<'a, R: Threads + Wait + Sync, D: Disk + Send>(
    rt: &R,
    alloc: Global,
    from: From,
    disk: D,
    marks: &'a Marks,
    workers: u32,
) -> Result<RecordedRun<Watching<'a>, Tally, D>, Starved>
    requires some { 0 < workers }
    requires free { (D.state disk).picked ≡ None }
{
    let minds = three_minds(alloc, marks)?;
    let board = board_of_three(alloc)?;
    let file = text_of(alloc, b"f.rec")?;
    match from {
        From::Nothing => Ok(record_run(rt, alloc, board, minds, disk, &file, workers)),
        From::File => Ok(resume_run(rt, alloc, board, minds, disk, &file, workers)),
    }
}

fn disk_of(alloc: Global, files: Files, fail: u64) -> Result<MemoryDisk, Starved>
    ensures { IfOk result (λ d. d.picked ≡ None) }
{
    let mut refused = Seq::new(alloc);
    refused.push(fail)?;
    memory_disk(alloc, files, refused)
}

fn file_of(alloc: Global, bytes: &[u8]) -> Result<Files, Starved> {
    let mut files = Seq::new(alloc);
    let name = text_of(alloc, b"f.rec")?;
    let bytes = text_of(alloc, bytes)?;
    files.push(Filed { name, bytes })?;
    Ok(files)
}

/// What became of a run: its fault or none; the numbers of its turns; and the files after a crash that keeps so many calls.
#[derive(Drop)]
struct Came {
    fault: Option<RecordFault>,
    turns: Numbers,
    made: u64,
    files: Files,
}

/// The run over these files by so many workers, in which the call of this number fails.
fn come<R: Threads + Wait + Sync>(
    rt: &R,
    alloc: Global,
    from: From,
    files: Files,
    fail: u64,
    kept: u64,
    workers: u32,
) -> Result<Came, Starved>
    requires { 0 < workers }
{
    let marks = Marks::new();
    let disk = disk_of(alloc, files, fail)?;
    let RecordedRun { disk, answer } = run(rt, alloc, from, disk, &marks, workers)?;
    let files = disk.crash(alloc, kept)?;
    let mut turns = Seq::new(alloc);
    let mut made = 0u64;
    let mut fault = None;
    match answer {
        Ok(done) => {
            for turn in done.board.schedule() {
                turns.push(*turn)?;
            }
            for mind in done.minds.as_slice() {
                made = made.saturating_add(mind.made);
            }
            drop(done);
        }
        Err(why) => fault = Some(why),
    }
    Ok(Came {
        fault,
        turns,
        made,
        files,
    })
}

/// The turns that the file tells, or none.
fn told(alloc: Global, files: &Files) -> Result<Option<Numbers>, Starved> {
    match files.at(0) {
        Some(file) => recovered(alloc, file.bytes.as_slice()),
        None => Ok(None),
    }
}

/// Whether all three minds made their three cycles, and the file tells the turns of the schedule.
fn is_whole(alloc: Global, came: &Came) -> Result<bool, Starved> {
    let Some(turns) = told(alloc, &came.files)? else {
        return Ok(false);
    };
    let whole = came.fault.is_none() && came.made == 9 && came.turns.len() == 21;
    Ok(whole && turns.as_slice() == came.turns.as_slice())
}

fn begins_with(all: &Numbers, first: &Numbers) -> bool {
    let n = first.len();
    n <= all.len() && &all.as_slice()[..n as usize] == first.as_slice()
}

#[test]
fn a_run_is_recorded_whole(rt: HostRuntime) -> Result<(), Starved> {
    let alloc = rt.alloc();
    for workers in [1, 2, 3, 64] {
        let came = come(&rt, alloc, From::Nothing, Seq::new(alloc), 0, 0, workers)?;
        assert!(rt; is_whole(alloc, &came)?);
    }
    Ok(())
}

/// Whether a run in which this call fails, and a crash then, leave what is gone on from to the end. Nothing, where no call has
/// this number.
fn goes_on<R: Threads + Wait + Sync>(
    rt: &R,
    alloc: Global,
    fail: u64,
    kept: u64,
    workers: u32,
) -> Result<Option<bool>, Starved>
    requires { 0 < workers }
{
    let came = come(
        rt,
        alloc,
        From::Nothing,
        Seq::new(alloc),
        fail,
        kept,
        workers,
    )?;
    let Some(fault) = came.fault else {
        return Ok(None);
    };
    let before = told(alloc, &came.files)?;
    let after = come(rt, alloc, From::File, came.files, 0, 0, workers)?;
    let good = match before {
        Some(turns) => {
            let calls = turns.len().saturating_mul(4);
            let first = calls.saturating_add(5);
            let acknowledged = first <= fail && fail <= first.saturating_add(4);
            acknowledged && is_whole(alloc, &after)? && begins_with(&after.turns, &turns)
        }
        None => {
            let missing = after.fault == Some(RecordFault::Missing);
            fail <= 5 && (missing || after.fault == Some(RecordFault::NoHeader))
        }
    };
    Ok(Some(good && fault == RecordFault::Disk))
}

#[test]
fn each_call_fails(rt: HostRuntime) -> Result<(), Starved> {
    let alloc = rt.alloc();
    for workers in [1, 2] {
        for kept in [0, 1, 2] {
            let mut last = 0;
            for fail in 1..200u64 {
                match goes_on(&rt, alloc, fail, kept, workers)? {
                    Some(good) => assert!(rt; good),
                    None => {
                        last = fail;
                        break;
                    }
                }
            }
            assert!(rt; last == 90);
        }
    }
    Ok(())
}

/// The ninth call of the disk is the sync that makes the first turn count. Where it fails a crash leaves that turn if it keeps
/// the write before, and else not.
#[test]
fn a_crash_keeps_the_last_write_or_not(rt: HostRuntime) -> Result<(), Starved> {
    let alloc = rt.alloc();
    for (kept, wanted) in [(0, 0), (1, 1)] {
        let came = come(&rt, alloc, From::Nothing, Seq::new(alloc), 9, kept, 1)?;
        match told(alloc, &came.files)? {
            Some(turns) => assert!(rt; turns.len() == wanted),
            None => assert!(rt; false),
        }
    }
    Ok(())
}

#[test]
fn each_beginning_of_a_file_is_gone_on_from(rt: HostRuntime) -> Result<(), Starved> {
    let alloc = rt.alloc();
    let came = come(&rt, alloc, From::Nothing, Seq::new(alloc), 0, 0, 1)?;
    let Some(file) = came.files.at(0) else {
        return Err(Starved);
    };
    let bytes = file.bytes.as_slice();
    assert!(rt; bytes.len() == 72);
    for n in 0..73usize {
        let Some(begin) = bytes.get(..n) else {
            return Err(Starved);
        };
        let after = come(&rt, alloc, From::File, file_of(alloc, begin)?, 0, 0, 1)?;
        match recovered(alloc, begin)? {
            Some(turns) => {
                assert!(rt; is_whole(alloc, &after)?);
                assert!(rt; turns.len() == (n as u64).saturating_sub(8) / 3 || turns.len() == 21);
                assert!(rt; begins_with(&after.turns, &turns));
            }
            None => assert!(rt; n < 8 && after.fault == Some(RecordFault::NoHeader)),
        }
    }
    Ok(())
}

#[test]
fn what_is_no_run_is_refused(rt: HostRuntime) -> Result<(), Starved> {
    let alloc = rt.alloc();
    let none = come(&rt, alloc, From::File, Seq::new(alloc), 0, 0, 1)?;
    assert!(rt; none.fault == Some(RecordFault::Missing));
    let bytes = b"JASREC1\n\x01\x00\x01\x01\x00\x02\x01\x00\x09";
    let files = file_of(alloc, bytes)?;
    let illegal = come(&rt, alloc, From::File, files, 0, 0, 1)?;
    assert!(rt; illegal.fault == Some(RecordFault::Illegal(3)));
    Ok(())
}

#[test]
fn journal_keeps_up(rt: HostRuntime) -> Result<(), Starved> {
    let alloc = rt.alloc();
    let marks = Marks::new();
    let disk = Counting {
        name: None,
        marks: &marks,
    };
    let RecordedRun { disk, answer } = run(&rt, alloc, From::Nothing, disk, &marks, 1)?;
    drop(disk);
    let ended = answer.is_ok();
    drop(answer);
    assert!(rt; ended);
    let first = marks.first.load(Ordering::SeqCst);
    let second = marks.second.load(Ordering::SeqCst);
    assert!(rt; 2 <= first);
    assert!(rt; first < second);
    Ok(())
}
