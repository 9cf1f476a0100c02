//! Runs that are recorded on disks that fail, and gone on from what crashes leave.

use crate::comparing::held;
use crate::form::{CaseSetting, Desk};
use crate::running::{CallEnd, code_of, copy_files, is_again, left, make, sink_of};
use asl_term::sequence::{Seq, Starved};
use asl_term::syntax::{Files, Text};
use mas_io::memory::memory_shelf;
use mas_record_files::memory::{MemoryDisk, memory_disk};
use std::sync::Wait;
use std::thread::Threads;

/// How a recorded run ended, by its code, what it wrote, and its disk.
#[derive(Drop)]
struct Came {
    status: u8,
    written: Text,
    disk: Option<MemoryDisk>,
}

/// Calls these words over these files and a disk of these, whose call of that number fails; none fails where it is 0.
fn call<R: Threads + Wait + Sync>(
    rt: &R,
    words: &[String],
    files: &Files,
    disk: Files,
    fails: u64,
    desk: &mut Desk,
) -> Result<Came, Starved> {
    let mut numbers = Seq::new(desk.alloc);
    if fails > 0 {
        desk.check(numbers.push(fails));
    }
    let mut disk = Some(memory_disk(desk.alloc, disk, numbers)?);
    let mut shelf = memory_shelf(copy_files(files, desk), Seq::new(desk.alloc));
    let mut sink = sink_of(1_000_000, desk);
    let made = make(rt, desk.alloc, words, &mut shelf, &mut sink, &mut disk);
    drop(shelf);
    let status = code_of(made, desk);
    let mut written = Seq::new(desk.alloc);
    desk.put(sink.written(), &mut written);
    drop(sink);
    Ok(Came {
        status,
        written,
        disk,
    })
}

fn is_whole(came: &Came) -> bool {
    came.status == 0 || came.status == 8
}

/// These words with another command.
fn with_command(words: &[String], command: &str, desk: &mut Desk) -> Vec<String> {
    let mut all = Vec::new(desk.alloc);
    desk.put_word(command, &mut all);
    for word in words.iter().skip(1) {
        desk.put_word(word.as_str(), &mut all);
    }
    all
}

/// Whether the schedule of this run is legal, and what goes on from where it ended writes the same.
fn repeats<R: Threads + Wait + Sync>(
    rt: &R,
    words: &[String],
    files: &Files,
    came: &Came,
    reason: &mut Text,
    desk: &mut Desk,
) -> Result<bool, Starved> {
    let done = CallEnd {
        status: came.status,
        written: came.written.as_slice(),
    };
    if !is_again(rt, words, files, &done, reason, desk)? {
        return Ok(false);
    }
    let kept = left(desk.alloc, &came.disk, 0)?;
    let again = call(rt, words, files, kept, 0, desk)?;
    let same = again.status == came.status && again.written.as_slice() == came.written.as_slice();
    drop(again);
    Ok(same)
}

/// Whether a run that goes on from these files of a disk comes to its end, its schedule is legal, and its file tells it whole: what
/// goes on from there writes the same. Where the file has no whole header, the run is refused.
fn goes_on<R: Threads + Wait + Sync>(
    rt: &R,
    words: &[String],
    files: &Files,
    disk: Files,
    reason: &mut Text,
    desk: &mut Desk,
) -> Result<bool, Starved> {
    let name = match words.get(2) {
        Some(name) => name.as_str().as_bytes(),
        None => &[],
    };
    let begun = held(&disk, name).unwrap_or(&[]).starts_with(b"JASREC1\n");
    let came = call(rt, words, files, disk, 0, desk)?;
    let on = if is_whole(&came) {
        repeats(rt, words, files, &came, reason, desk)
    } else {
        Ok(!begun && (came.status == 3 || came.status == 6))
    };
    drop(came);
    on
}

/// Whether a run, a call of whose disk failed, goes on from each of the files that a crash may then leave.
fn outlives<R: Threads + Wait + Sync>(
    rt: &R,
    given: &CaseSetting,
    resume: &[String],
    came: &Came,
    fails: u64,
    reason: &mut Text,
    desk: &mut Desk,
) -> Result<bool, Starved> {
    for kept in 0..given.crashes {
        let disk = left(desk.alloc, &came.disk, kept)?;
        reason.truncate(0);
        if !goes_on(rt, resume, &given.files, disk, reason, desk)? {
            desk.put_named(" call ", fails, reason);
            desk.put_named(" of the disk fails, changes kept: ", kept, reason);
            return Ok(false);
        }
    }
    Ok(true)
}

/// The same of each call of the disk, one run for each, until none is left that could fail.
fn outlives_all<R: Threads + Wait + Sync>(
    rt: &R,
    given: &CaseSetting,
    resume: &[String],
    reason: &mut Text,
    desk: &mut Desk,
) -> Result<bool, Starved> {
    for fails in 1..1_000_000u64 {
        let disk = Seq::new(desk.alloc);
        let came = call(rt, given.words.as_slice(), &given.files, disk, fails, desk)?;
        let is_last = is_whole(&came);
        let on = if is_last {
            Ok(true)
        } else {
            outlives(rt, given, resume, &came, fails, reason, desk)
        };
        drop(came);
        if !on? {
            return Ok(false);
        }
        if is_last {
            return Ok(true);
        }
    }
    Ok(false)
}

/// Whether the recorded run of a case outlives a fault of each call of its disk: it goes on from what a crash leaves, whatever of the
/// last changes the crash keeps, up to the number that the case tells. If not, why, in `reason`.
pub fn survives<R: Threads + Wait + Sync>(
    rt: &R,
    given: &CaseSetting,
    reason: &mut Text,
    desk: &mut Desk,
) -> Result<bool, Starved> {
    if given.crashes == 0 {
        return Ok(true);
    }
    let resume = with_command(given.words.as_slice(), "resume", desk);
    let on = outlives_all(rt, given, resume.as_slice(), reason, desk);
    drop(resume);
    on
}
