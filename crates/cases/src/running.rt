//! The call of a case, over a shelf and a sink in memory.

ghost use Rattle.std.specs.Prelude.{◌≡◌, ◌≤◌, true, is_some, IfOk, OnOk};
ghost use Rattle.mas_top_record.specs.Disks.{IsFree};

use crate::comparing::{Difference, Got, first_difference, passes, put_shown};
use crate::crashing::survives;
use crate::form::{CaseSetting, Desk, Plain, Section, Wanted, WantedPlace};
use crate::lines::{is_feed, read_lines};
use crate::reading::{fault_of, read_case, read_refused};
use crate::telling::{put_fault, put_reason};
use asl_term::copying::copy_text;
use asl_term::room::Roomy;
use asl_term::sequence::{Seq, Starved};
use asl_term::syntax::{Files, Numbers, Text};
use mas_artifact::opening::all_kinds;
use mas_io::memory::{MemoryShelf, MemorySink, memory_shelf, memory_sink};
use mas_pool_task::gate::OpenGate;
use mas_record_disk::disk::Disk;
use mas_record_files::memory::{MemoryDisk, memory_disk};
use mas_top::top::run_words;
use mas_top_status::status::{Status, code, fault_line};
use mas_world::artifact::Artifact;
use std::alloc::Global;
use std::sync::Wait;
use std::thread::Threads;

/// Takes free places with blanks, until so many are left.
fn fill(room: &mut Roomy<u8>, places: u64) -> Result<(), Starved>
    requires { places ≤ room.old.spare }
    ensures { OnOk result (room.new.spare ≡ places) }
{
    'more: while room.spare() > places {
        room.push(b' ')?;
    }
    Ok(())
}

/// A list of blanks with exactly so many free places behind it.
fn room_of(alloc: Global, places: u64) -> Result<Roomy<u8>, Starved>
    ensures { IfOk result (λ r. r.spare ≡ places) }
{
    let mut room = Roomy::new(alloc);
    if let Err(starved) = room.reserve(places) {
        drop(room);
        return Err(starved);
    }
    match fill(&mut room, places) {
        Ok(()) => Ok(room),
        Err(starved) => {
            drop(room);
            Err(starved)
        }
    }
}

/// The name of the file of the schedule that a report prints.
const PRINTED: &str = "the printed schedule";

/// The name of the file of a report of version 1.
const OLD: &str = "the report of version 1";

/// Calls the words, with a tally, a slot and a belt.
pub fn make<R: Threads + Wait + Sync, D: Disk + Send>(
    rt: &R,
    alloc: Global,
    words: &[String],
    shelf: &mut MemoryShelf,
    sink: &mut MemorySink,
    disk: &mut Option<D>,
) -> Result<Status, Starved>
    requires { IsFree D.state disk.old }
{
    let mut all: Vec<Box<dyn Artifact + Send>> = Vec::new(alloc);
    for kind in all_kinds(alloc)? {
        all.push(Box::new(alloc, kind)?)?;
    }
    Ok(run_words(rt, alloc, words, shelf, sink, &OpenGate, all, disk))
}

/// The code with which a call ended. Where memory is short, that is a fault of no line.
pub fn code_of(made: Result<Status, Starved>, desk: &mut Desk) -> u8 {
    match made {
        Ok(status) => {
            let ended = code(&status);
            drop(status);
            ended
        }
        Err(starved) => {
            desk.check(Err(starved));
            u8::MAX
        }
    }
}

/// A sink with room for so many bytes.
pub fn sink_of(places: u64, desk: &mut Desk) -> MemorySink {
    let mut room = Roomy::new(desk.alloc);
    desk.check(room.reserve(places));
    memory_sink(room, 1_000_000, Seq::new(desk.alloc))
}

/// The files of a disk after a crash that keeps so many of the changes since the last sync.
pub fn left(alloc: Global, disk: &Option<MemoryDisk>, kept: u64) -> Result<Files, Starved> {
    match disk {
        Some(disk) => disk.crash(alloc, kept),
        None => Ok(Seq::new(alloc)),
    }
}

/// The files of a disk after a crash that keeps all changes. Where memory is short there are none, which is a fault of no line.
fn all_left(disk: &Option<MemoryDisk>, desk: &mut Desk) -> Files {
    match left(desk.alloc, disk, u64::MAX) {
        Ok(files) => files,
        Err(starved) => {
            desk.check(Err(starved));
            Seq::new(desk.alloc)
        }
    }
}

fn place_of(found: &Option<Difference<'_>>) -> Option<WantedPlace> {
    match found {
        None => None,
        Some(difference) => Some(difference.place),
    }
}

/// Whether what came is what the case wants; if not, why, in `reason`.
fn judge(
    plain: &Plain,
    wanted: &Wanted,
    status: &Status,
    written: &[u8],
    files: &Files,
    reason: &mut Text,
    desk: &mut Desk,
) -> bool {
    let Ok(fault) = fault_line(desk.alloc, status) else {
        desk.refuse(0, "memory");
        return false;
    };
    let mut shown = Seq::new(desk.alloc);
    put_shown(plain.mode, written, &mut shown, desk);
    let got = Got {
        status: u64::from(code(status)),
        fault: fault.as_slice(),
        written: shown.as_slice(),
        files,
    };
    let found = first_difference(plain, wanted, &got);
    let is_passed = passes(&place_of(&found), &plain.differs);
    if !is_passed {
        put_reason(plain, got.status, &found, reason, desk);
    }
    is_passed
}

/// How a call ended, by its code, and what it wrote.
#[derive(Clone, Copy)]
pub struct CallEnd<'a> {
    pub status: u8,
    pub written: &'a [u8],
}

/// How many bytes of the file of this name the call finds: all, or its first ones alone.
#[derive(Clone, Copy)]
struct Cut<'a> {
    name: &'a [u8],
    length: u64,
}

/// The files, of which the one that is cut has its first bytes alone.
fn cut_files(files: &Files, cut: Cut<'_>, desk: &mut Desk) -> Files {
    let mut all = Seq::new(desk.alloc);
    for file in files.as_slice() {
        match copy_text(desk.alloc, &file.bytes) {
            Ok(mut bytes) => {
                if file.name.as_slice() == cut.name {
                    bytes.truncate(cut.length);
                }
                desk.put_file(file.name.as_slice(), bytes, &mut all);
            }
            Err(starved) => desk.check(Err(starved)),
        }
    }
    all
}

/// How many bytes the file of this name has.
fn length_of(files: &Files, name: &[u8]) -> u64 {
    for file in files.as_slice() {
        if file.name.as_slice() == name {
            return file.bytes.len();
        }
    }
    0
}

/// Equal files, for a call that takes or changes them. Where memory is short a file is left out,
/// which is a fault of no line.
pub fn copy_files(files: &Files, desk: &mut Desk) -> Files {
    let mut all = Seq::new(desk.alloc);
    for file in files.as_slice() {
        match copy_text(desk.alloc, &file.bytes) {
            Ok(bytes) => desk.put_file(file.name.as_slice(), bytes, &mut all),
            Err(starved) => desk.check(Err(starved)),
        }
    }
    all
}

/// The last two lines of a report, which are its schedule.
fn schedule_of(report: &[u8]) -> &[u8] {
    let (mut at, mut last, mut before) = (0usize, 0usize, 0usize);
    for line in report.split_inclusive(is_feed) {
        before = last;
        last = at;
        at = at.saturating_add(line.len());
    }
    report.get(before..).unwrap_or(&[])
}

fn copy_numbers(numbers: &Numbers, desk: &mut Desk) -> Numbers {
    let mut all = Seq::new(desk.alloc);
    for number in numbers.as_slice() {
        desk.check(all.push(*number));
    }
    all
}

/// These words, and then how many workers there are.
fn with_workers(words: &[String], workers: u64, desk: &mut Desk) -> Vec<String> {
    let mut all = Vec::new(desk.alloc);
    for word in words {
        desk.put_word(word.as_str(), &mut all);
    }
    let mut digits = Seq::new(desk.alloc);
    desk.put_named("", workers, &mut digits);
    desk.put_word("--workers", &mut all);
    desk.put_word(
        std::str::from_utf8(digits.as_slice()).unwrap_or(""),
        &mut all,
    );
    all
}

/// The options among the words of a run, but for the workers and their pool, which a replay has not.
fn put_options(options: &[String], words: &mut Vec<String>, desk: &mut Desk) {
    let mut passes = false;
    for option in options {
        let option = option.as_str();
        if option == "--workers" || option == "--pool" {
            passes = true;
        } else if passes {
            passes = false;
        } else if !option.starts_with("--workers=") && !option.starts_with("--pool=") {
            desk.put_word(option, words);
        }
    }
}

/// Whether behind a command that makes a run the project has another name.
fn has_two_names(command: &str) -> bool {
    command == "replay" || command == "record" || command == "resume"
}

/// The words of the replay along the schedule that is printed, of words that name the project first, and then options.
fn replay_words(words: &[String], desk: &mut Desk) -> Option<Vec<String>> {
    let (project, options) = match words {
        [command, project, options @ ..] if command.as_str() == "run" => (project, options),
        [command, project, _, options @ ..] if has_two_names(command.as_str()) => (
            project, options,
        ),
        _ => return None,
    };
    if project.as_str().starts_with("-") {
        return None;
    }
    let mut all = Vec::new(desk.alloc);
    desk.put_word("replay", &mut all);
    desk.put_word(project.as_str(), &mut all);
    desk.put_word(PRINTED, &mut all);
    put_options(options, &mut all, desk);
    Some(all)
}

/// One file more.
#[derive(Clone, Copy)]
struct Extra<'a> {
    name: &'a str,
    bytes: &'a [u8],
}

/// Whether these words, with one file more, write this and end with this code.
fn writes<R: Threads + Wait + Sync>(
    rt: &R,
    words: &[String],
    files: &Files,
    extra: Extra<'_>,
    wanted: &CallEnd<'_>,
    desk: &mut Desk,
) -> Result<bool, Starved> {
    let mut disk = Some(memory_disk(desk.alloc, Seq::new(desk.alloc), Seq::new(desk.alloc))?);
    let mut files = copy_files(files, desk);
    let mut bytes = Seq::new(desk.alloc);
    desk.put(extra.bytes, &mut bytes);
    desk.put_file(extra.name.as_bytes(), bytes, &mut files);
    let mut shelf = memory_shelf(files, Seq::new(desk.alloc));
    let mut sink = sink_of(wanted.written.len() as u64, desk);
    let made = make(rt, desk.alloc, words, &mut shelf, &mut sink, &mut disk);
    drop(shelf);
    drop(disk);
    let same = code_of(made, desk) == wanted.status && sink.written() == wanted.written;
    drop(sink);
    Ok(same)
}

/// Whether a run along the schedule that the report prints writes the report again, and ends as the run did; if not, why, in `reason`.
pub fn is_again<R: Threads + Wait + Sync>(
    rt: &R,
    words: &[String],
    files: &Files,
    done: &CallEnd<'_>,
    reason: &mut Text,
    desk: &mut Desk,
) -> Result<bool, Starved> {
    if done.status != 0 && done.status != 8 {
        return Ok(true);
    }
    let Some(words) = replay_words(words, desk) else {
        return Ok(true);
    };
    let printed = Extra {
        name: PRINTED,
        bytes: schedule_of(done.written),
    };
    let again = writes(rt, words.as_slice(), files, printed, done, desk);
    drop(words);
    let again = again?;
    if !again {
        desk.put(b"its replay differs", reason);
    }
    Ok(again)
}

/// The report as version 1 has it, with this as its last line.
fn old_report(report: &[u8], last: &[u8], desk: &mut Desk) -> Text {
    let mut out = Seq::new(desk.alloc);
    desk.put(b"jasonrun 1\n", &mut out);
    let mut held: Option<&[u8]> = None;
    for line in report.split_inclusive(is_feed).skip(1) {
        if let Some(before) = held {
            desk.put(before, &mut out);
        }
        held = Some(line);
    }
    desk.put(last, &mut out);
    out
}

/// The words that renew the report of version 1 of a run.
fn renew_words(words: &[String], desk: &mut Desk) -> Option<Vec<String>> {
    let [command, project, ..] = words else {
        return None;
    };
    if command.as_str() != "run" {
        return None;
    }
    let mut all = Vec::new(desk.alloc);
    desk.put_word("renew", &mut all);
    desk.put_word(project.as_str(), &mut all);
    desk.put_word(OLD, &mut all);
    Some(all)
}

/// Whether the report of version 1 that has this as its last line is renewed to the report; if not, why, in `reason`.
fn is_renewed<R: Threads + Wait + Sync>(
    rt: &R,
    words: &[String],
    files: &Files,
    last: &[u8],
    report: &[u8],
    reason: &mut Text,
    desk: &mut Desk,
) -> Result<bool, Starved> {
    if last.is_empty() {
        return Ok(true);
    }
    let Some(words) = renew_words(words, desk) else {
        desk.put(b"it is no run", reason);
        return Ok(false);
    };
    let old = old_report(report, last, desk);
    let extra = Extra {
        name: OLD,
        bytes: old.as_slice(),
    };
    let wanted = CallEnd {
        status: 0,
        written: report,
    };
    let renewed = writes(rt, words.as_slice(), files, extra, &wanted, desk);
    drop(words);
    drop(old);
    let renewed = renewed?;
    if !renewed {
        desk.put(b"its report of version 1 is not renewed to it", reason);
    }
    Ok(renewed)
}

/// A call of a case, and how it ended: its status, what it wrote, and the files of its disk after a crash that keeps all.
#[derive(Clone, Copy)]
struct Ended<'a> {
    words: &'a [String],
    files: &'a Files,
    status: &'a Status,
    written: &'a [u8],
    kept: &'a Files,
}

/// Whether a call ended as the case wants, and so do the replay of its schedule and the renewal of its report of version 1.
fn is_wanted<R: Threads + Wait + Sync>(
    rt: &R,
    plain: &Plain,
    given: &CaseSetting,
    wanted: &Wanted,
    ended: &Ended<'_>,
    reason: &mut Text,
    desk: &mut Desk,
) -> Result<bool, Starved> {
    if !judge(
        plain,
        wanted,
        ended.status,
        ended.written,
        ended.kept,
        reason,
        desk,
    ) {
        return Ok(false);
    }
    let done = CallEnd {
        status: code(ended.status),
        written: ended.written,
    };
    if !is_again(rt, ended.words, ended.files, &done, reason, desk)? {
        return Ok(false);
    }
    let old = given.old.as_slice();
    is_renewed(
        rt,
        ended.words,
        ended.files,
        old,
        ended.written,
        reason,
        desk,
    )
}

/// Whether the call of these words does what the case wants, and so do the replay of its schedule and the renewal of its report
/// of version 1.
fn run_once<R: Threads + Wait + Sync>(
    rt: &R,
    plain: &Plain,
    given: &CaseSetting,
    files: &Files,
    words: &[String],
    wanted: &Wanted,
    reason: &mut Text,
    desk: &mut Desk,
) -> Result<bool, Starved> {
    let room = room_of(desk.alloc, plain.room)?;
    let blanks = room.len() as usize;
    let held = copy_files(&given.disk, desk);
    let fails = copy_numbers(&given.disk_fails, desk);
    let disk = match memory_disk(desk.alloc, held, fails) {
        Ok(disk) => disk,
        Err(starved) => {
            drop(room);
            return Err(starved);
        }
    };
    let mut disk = Some(disk);
    let shelved = copy_files(files, desk);
    let mut shelf = memory_shelf(shelved, copy_numbers(&given.shelf_fails, desk));
    let mut sink = memory_sink(room, plain.short, copy_numbers(&given.sink_fails, desk));
    let made = make(rt, desk.alloc, words, &mut shelf, &mut sink, &mut disk);
    drop(shelf);
    let kept = all_left(&disk, desk);
    drop(disk);
    let passed = match made {
        Ok(status) => {
            let ended = Ended {
                words,
                files,
                status: &status,
                written: sink.written().get(blanks..).unwrap_or(&[]),
                kept: &kept,
            };
            let passed = is_wanted(rt, plain, given, wanted, &ended, reason, desk);
            drop(status);
            passed
        }
        Err(starved) => Err(starved),
    };
    drop(sink);
    drop(kept);
    passed
}

/// Calls the words once, or once for each proper prefix of the file that is cut.
fn run_cut<R: Threads + Wait + Sync>(
    rt: &R,
    plain: &Plain,
    given: &CaseSetting,
    wanted: &Wanted,
    reason: &mut Text,
    desk: &mut Desk,
) -> Result<bool, Starved> {
    let (words, name) = (given.words.as_slice(), given.cut.as_slice());
    for length in 0..length_of(&given.files, name) {
        reason.truncate(0);
        desk.put_named("cut at ", length, reason);
        desk.put(b": ", reason);
        let files = cut_files(&given.files, Cut { name, length }, desk);
        if !run_once(rt, plain, given, &files, words, wanted, reason, desk)? {
            return Ok(false);
        }
    }
    Ok(true)
}

/// Calls the words, with each of the numbers of workers where the case tells some.
fn run<R: Threads + Wait + Sync>(
    rt: &R,
    plain: &Plain,
    given: &CaseSetting,
    wanted: &Wanted,
    reason: &mut Text,
    desk: &mut Desk,
) -> Result<bool, Starved> {
    let words = given.words.as_slice();
    if given.workers.len() == 0 {
        let files = &given.files;
        return if given.cut.len() == 0 {
            run_once(rt, plain, given, files, words, wanted, reason, desk)
        } else {
            run_cut(rt, plain, given, wanted, reason, desk)
        };
    }
    for workers in given.workers.as_slice() {
        reason.truncate(0);
        desk.put_named("workers ", *workers, reason);
        desk.put(b": ", reason);
        let words = with_workers(words, *workers, desk);
        let files = &given.files;
        let passed = run_once(
            rt,
            plain,
            given,
            files,
            words.as_slice(),
            wanted,
            reason,
            desk,
        );
        drop(words);
        if !passed? {
            return Ok(false);
        }
    }
    Ok(true)
}

/// Runs a case, and tells whether it passed; if not, why, in `reason`.
pub fn run_case<R: Threads + Wait + Sync>(
    rt: &R,
    section: &Section<'_>,
    reason: &mut Text,
    desk: &mut Desk,
) -> bool {
    let (mut given, mut wanted) = (CaseSetting::new(desk.alloc), Wanted::new(desk.alloc));
    let plain = read_case(section, &mut given, &mut wanted, desk);
    if desk.fault.is_some() {
        return false;
    }
    let passed = match run(rt, &plain, &given, &wanted, reason, desk) {
        Ok(true) => survives(rt, &given, reason, desk),
        other => other,
    };
    match passed {
        Ok(is_passed) => is_passed,
        Err(starved) => {
            desk.check(Err(starved));
            false
        }
    }
}

/// Reads the text of a file that has to be refused with its message; else what was told, in `reason`.
pub fn run_refused(section: &Section<'_>, reason: &mut Text, desk: &mut Desk) -> bool {
    let (mut file, mut message) = (Seq::new(desk.alloc), Seq::new(desk.alloc));
    read_refused(section, &mut file, &mut message, desk);
    let mut lines = Vec::new(desk.alloc);
    desk.check(read_lines(file.as_slice(), &mut lines));
    match fault_of(desk.alloc, lines.as_slice()) {
        None => desk.put(b"it can be read", reason),
        Some(fault) => put_fault(&fault, reason, desk),
    }
    reason.as_slice() == message.as_slice()
}
