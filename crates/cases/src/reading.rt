//! Cases from the lines of a file.

ghost use Rattle.std.specs.Prelude.{◌≡◌, ◌≢◌, ◌++◌, ◌∷◌, [], OnOk};

use crate::form::{
    CaseEntry, CaseFault, CaseLine, CaseSetting, Desk, Mode, Plain, Section, Wanted, WantedPlace,
};
use crate::lines::{
    check_name, check_section, entry_at, find, has_word, is_feed, is_head, line_of, section_at,
};
use crate::values::{lines_into, number, number_at, numbers_into, put_pieces, text_at, text_into};
use asl_term::sequence::{Seq, Starved};
use asl_term::syntax::{Files, Numbers, Text};
use std::alloc::Global;

/// The name of the file that `source` makes.
const SOURCE_NAME: &str = "a.asl";

/// The name of the file that `world` makes, and that of the project that has this world and the agent of `source`.
const WORLD_NAME: &str = "w.env";

const PROJECT_NAME: &str = "m.mas2j";

const PROJECT_TEXT: &str = "MAS m { environment: w agents: solo a.asl; }";

/// The name of the file that `schedule` makes.
const SCHEDULE_NAME: &str = "s.txt";

/// The keys of the options of a run, with their words.
const OPTIONS: [(&str, &str); 5] = [
    ("cycles", "--cycles"),
    ("lead", "--lead"),
    ("depth", "--depth"),
    ("tries", "--tries"),
    ("level", "--level"),
];

const LEVELS: [&str; 3] = ["say", "acts", "rules"];

/// The keys of which each makes a case the call of a project.
const PROJECT_KEYS: [&str; 7] = [
    "project", "schedule", "cycles", "lead", "depth", "tries", "level",
];

/// The level of a run, by its word.
fn level_of<'a>(section: &Section<'a>, desk: &mut Desk) -> &'a [u8] {
    let Some(entry) = find(section, "level") else {
        return b"acts";
    };
    for known in &LEVELS {
        if entry.rest == known.as_bytes() {
            return entry.rest;
        }
    }
    desk.refuse(entry.number, "unknown level");
    entry.rest
}

/// The first two lines of a report: the options that the case has, and the usual ones for those that it leaves out.
fn put_front(section: &Section<'_>, out: &mut Text, desk: &mut Desk) {
    let cycles = number_at(section, "cycles", 1, 1_000_000, 1000, desk);
    let lead = number_at(section, "lead", 1, 1000, 8, desk);
    let depth = number_at(section, "depth", 1, 10_000, 500, desk);
    let tries = number_at(section, "tries", 1, 10_000_000, 100_000, desk);
    desk.put_named("jasonrun 2\ncycles ", cycles, out);
    desk.put_named(" lead ", lead, out);
    desk.put_named(" depth ", depth, out);
    desk.put_named(" tries ", tries, out);
    desk.put(b" level ", out);
    let level = level_of(section, desk);
    desk.put(level, out);
    desk.put(b"\n", out);
}

/// The word of these bytes.
fn put_bytes(line: u64, bytes: &[u8], words: &mut Vec<String>, desk: &mut Desk) {
    match std::str::from_utf8(bytes) {
        Ok(word) => desk.put_word(word, words),
        Err(_) => desk.refuse(line, "a word is no text"),
    }
}

fn without_feed(line: &[u8]) -> &[u8] {
    line.split(is_feed).next().unwrap_or(line)
}

/// The name of the project that is run where none is named.
fn usual_project(section: &Section<'_>) -> &'static str {
    if has_word(section.body, b"world") {
        PROJECT_NAME
    } else {
        SOURCE_NAME
    }
}

/// The words of the command line: the lines under `words`, or the usual ones.
fn words_into(section: &Section<'_>, words: &mut Vec<String>, desk: &mut Desk) {
    let Some(entry) = find(section, "words") else {
        desk.put_word("run", words);
        return desk.put_word(usual_project(section), words);
    };
    let mut text = Seq::new(desk.alloc);
    lines_into(&entry, &mut text, desk);
    for line in text.as_slice().split_inclusive(is_feed) {
        put_bytes(entry.number, without_feed(line), words, desk);
    }
}

fn is_of_project(section: &Section<'_>) -> bool {
    for key in &PROJECT_KEYS {
        if has_word(section.body, key.as_bytes()) {
            return true;
        }
    }
    false
}

/// The word of a project: what stands under `project`, or the usual name.
fn project_into(section: &Section<'_>, words: &mut Vec<String>, desk: &mut Desk) {
    let mut name = Seq::new(desk.alloc);
    match find(section, "project") {
        Some(entry) => text_into(&entry, &mut name, desk),
        None => desk.put(usual_project(section).as_bytes(), &mut name),
    }
    put_bytes(section.number, name.as_slice(), words, desk);
}

/// The words of a run of a project, or of its replay where there is a schedule, with the options that the case has. One worker
/// makes the run, where the case does not tell how many.
fn project_words_into(section: &Section<'_>, words: &mut Vec<String>, desk: &mut Desk) {
    let replays = has_word(section.body, b"schedule");
    desk.put_word(if replays { "replay" } else { "run" }, words);
    project_into(section, words, desk);
    if replays {
        desk.put_word(SCHEDULE_NAME, words);
    }
    for (key, option) in &OPTIONS {
        if let Some(entry) = find(section, *key) {
            desk.put_word(*option, words);
            put_bytes(entry.number, entry.rest, words, desk);
        }
    }
    if !replays && find(section, "workers").is_none() {
        desk.put_word("--workers", words);
        desk.put_word("1", words);
    }
}

/// The words that are called.
fn ask_into(section: &Section<'_>, words: &mut Vec<String>, desk: &mut Desk) {
    match find(section, "words") {
        _ if !is_of_project(section) => words_into(section, words, desk),
        Some(entry) => desk.refuse(entry.number, "words stand beside project or options"),
        None => project_words_into(section, words, desk),
    }
}

/// The numbers of workers, which no replay has.
fn workers_into(section: &Section<'_>, workers: &mut Numbers, desk: &mut Desk) {
    match (find(section, "workers"), find(section, "schedule")) {
        (Some(entry), Some(_)) => desk.refuse(entry.number, "workers stand beside a schedule"),
        _ => numbers_into(section, "workers", 64, workers, desk),
    }
}

/// A file of a usual name.
fn put_usual(name: &str, entry: &CaseEntry<'_>, files: &mut Files, desk: &mut Desk) {
    let mut bytes = Seq::new(desk.alloc);
    text_into(entry, &mut bytes, desk);
    desk.put_file(name.as_bytes(), bytes, files);
}

/// A file of the name behind its key.
fn put_named_file(entry: &CaseEntry<'_>, files: &mut Files, desk: &mut Desk) {
    if entry.rest.is_empty() {
        desk.refuse(entry.number, "a file has no name");
    }
    let mut bytes = Seq::new(desk.alloc);
    put_pieces(entry.pieces, &mut bytes, desk);
    desk.put_file(entry.rest, bytes, files);
}

/// The project of a world, and the world.
fn put_world(entry: &CaseEntry<'_>, files: &mut Files, desk: &mut Desk) {
    let mut project = Seq::new(desk.alloc);
    desk.put(PROJECT_TEXT.as_bytes(), &mut project);
    desk.put_file(PROJECT_NAME.as_bytes(), project, files);
    put_usual(WORLD_NAME, entry, files, desk);
}

/// The files of the shelf in the order in which they stand.
fn files_into(section: &Section<'_>, files: &mut Files, desk: &mut Desk) {
    let lines = section.body;
    for at in 0..lines.len() {
        let entry = entry_at(lines, at);
        if lines[at].word == b"source".as_slice() {
            put_usual(SOURCE_NAME, &entry, files, desk);
        } else if lines[at].word == b"schedule".as_slice() {
            put_usual(SCHEDULE_NAME, &entry, files, desk);
        } else if lines[at].word == b"world".as_slice() {
            put_world(&entry, files, desk);
        } else if lines[at].word == b"file".as_slice() {
            put_named_file(&entry, files, desk);
        }
    }
}

/// The files of the disk under a key.
fn disk_into(section: &Section<'_>, key: &str, files: &mut Files, desk: &mut Desk) {
    let lines = section.body;
    for at in 0..lines.len() {
        if lines[at].word == key.as_bytes() {
            put_named_file(&entry_at(lines, at), files, desk);
        }
    }
}

/// The name of the file that is cut, of which there are bytes.
fn cut_into(section: &Section<'_>, files: &Files, cut: &mut Text, desk: &mut Desk) {
    let Some(entry) = find(section, "cut") else {
        return;
    };
    for file in files.as_slice() {
        if file.name.as_slice() == entry.rest && file.bytes.len() > 0 {
            return desk.put(entry.rest, cut);
        }
    }
    desk.refuse(entry.number, "no file of this name has bytes");
}

/// The last line that the report has in version 1.
fn old_into(section: &Section<'_>, old: &mut Text, desk: &mut Desk) {
    if let Some(entry) = find(section, "old") {
        lines_into(&entry, old, desk);
    }
}

/// The last lines of the report of one agent that has so many turns: the facts of the world at the end, where there are some,
/// and the schedule.
fn put_end(section: &Section<'_>, turns: u64, out: &mut Text, desk: &mut Desk) {
    desk.put(b"world\n", out);
    if let Some(entry) = find(section, "facts") {
        lines_into(&entry, out, desk);
    }
    desk.put_named("mail\nschedule ", turns, out);
    desk.put(b"\n1", out);
    if turns > 1 {
        desk.put_named("x", turns, out);
    }
    desk.put(b"\n", out);
}

/// The lines under `trace`, as a whole report where its turns are told.
fn trace_into(
    section: &Section<'_>,
    trace: &CaseEntry<'_>,
    out: &mut Text,
    desk: &mut Desk,
) -> Mode {
    let Some(entry) = find(section, "turns") else {
        lines_into(trace, out, desk);
        return Mode::Agents;
    };
    let turns = number(entry.number, entry.rest, 1, 5_000_000, desk);
    put_front(section, out, desk);
    lines_into(trace, out, desk);
    put_end(section, turns, out, desk);
    Mode::Whole
}

/// The lines under `has`, of which there is one.
fn has_into(has: &CaseEntry<'_>, out: &mut Text, desk: &mut Desk) -> Mode {
    lines_into(has, out, desk);
    if out.len() == 0 {
        desk.refuse(has.number, "no line stands behind this one");
    }
    Mode::InOrder
}

/// What is wanted of the output, as far as it is written whole.
fn full_output(section: &Section<'_>, out: &mut Text, desk: &mut Desk) -> Mode {
    match (
        find(section, "trace"),
        find(section, "has"),
        find(section, "output"),
    ) {
        (Some(trace), None, None) => trace_into(section, &trace, out, desk),
        (None, Some(has), None) => has_into(&has, out, desk),
        (None, None, Some(output)) => {
            text_into(&output, out, desk);
            Mode::Whole
        }
        (None, None, None) => Mode::Whole,
        _ => {
            desk.refuse(
                section.number,
                "it has more than one of trace, has and output",
            );
            Mode::Whole
        }
    }
}

/// Turns stand with a trace, and facts with turns.
fn check_trace(section: &Section<'_>, desk: &mut Desk) {
    match (
        find(section, "trace"),
        find(section, "turns"),
        find(section, "facts"),
    ) {
        (None, Some(turns), _) => desk.refuse(turns.number, "turns stand without trace"),
        (_, None, Some(facts)) => desk.refuse(facts.number, "facts stand without turns"),
        _ => {}
    }
}

/// The output, cut where `wrote` tells how many of its bytes were written.
fn output_into(section: &Section<'_>, out: &mut Text, desk: &mut Desk) -> Mode {
    let mode = full_output(section, out, desk);
    check_trace(section, desk);
    match (find(section, "wrote"), mode) {
        (None, _) => {}
        (Some(wrote), Mode::Whole) => {
            out.truncate(number(wrote.number, wrote.rest, 0, out.len(), desk));
        }
        (Some(wrote), _) => desk.refuse(wrote.number, "wrote stands without a whole output"),
    }
    mode
}

/// Ends a fault line, where there is one.
fn end_line(fault: &mut Text) -> Result<(), Starved>
    ensures none { fault.old ≡ [] → OnOk result (fault.new ≡ []) }
    ensures some { fault.old ≢ [] → OnOk result (fault.new ≡ fault.old ++ 10 ∷ []) }
{
    if fault.len() == 0 {
        return Ok(());
    }
    fault.push(b'\n')
}

/// The place at which the call has to differ first, if any.
fn differs_of(section: &Section<'_>, desk: &mut Desk) -> Option<WantedPlace> {
    let entry = find(section, "differs")?;
    let named = line_of(entry.number, entry.rest);
    if entry.rest == b"status".as_slice() {
        return Some(WantedPlace::Status);
    }
    if entry.rest == b"fault".as_slice() {
        return Some(WantedPlace::Fault);
    }
    if entry.rest == b"disk".as_slice() {
        return Some(WantedPlace::Disk);
    }
    if named.word == b"line".as_slice() {
        return Some(WantedPlace::Line(number(entry.number, named.rest, 1, 1_000_000_000, desk)));
    }
    if named.word == b"has".as_slice() {
        return Some(WantedPlace::InOrder(number(entry.number, named.rest, 1, 1_000_000_000, desk)));
    }
    desk.refuse(entry.number, "unknown place");
    None
}

/// Refuses options outside their limits, also where no report is wanted that tells them.
fn check_options(section: &Section<'_>, desk: &mut Desk) {
    let mut front = Seq::new(desk.alloc);
    put_front(section, &mut front, desk);
}

/// Reads a case.
pub fn read_case(
    section: &Section<'_>,
    given: &mut CaseSetting,
    wanted: &mut Wanted,
    desk: &mut Desk,
) -> Plain {
    check_section(section, desk);
    check_options(section, desk);
    files_into(section, &mut given.files, desk);
    cut_into(section, &given.files, &mut given.cut, desk);
    old_into(section, &mut given.old, desk);
    numbers_into(
        section,
        "shelf_fails",
        1_000_000,
        &mut given.shelf_fails,
        desk,
    );
    numbers_into(
        section,
        "sink_fails",
        1_000_000,
        &mut given.sink_fails,
        desk,
    );
    numbers_into(
        section,
        "disk_fails",
        1_000_000,
        &mut given.disk_fails,
        desk,
    );
    disk_into(section, "disk", &mut given.disk, desk);
    disk_into(section, "kept", &mut wanted.kept, desk);
    given.crashes = number_at(section, "crashes", 0, 8, 0, desk);
    ask_into(section, &mut given.words, desk);
    workers_into(section, &mut given.workers, desk);
    text_at(section, "fault", &mut wanted.fault, desk);
    desk.check(end_line(&mut wanted.fault));
    Plain {
        short: number_at(section, "short", 1, 1_000_000, 1_000_000, desk),
        room: number_at(section, "room", 0, 10_000_000, 100_000, desk),
        status: number_at(section, "status", 0, 255, 0, desk),
        mode: output_into(section, &mut wanted.output, desk),
        differs: differs_of(section, desk),
    }
}

/// Reads the text of a file that has to be refused, and the message.
pub fn read_refused(section: &Section<'_>, file: &mut Text, message: &mut Text, desk: &mut Desk) {
    check_section(section, desk);
    if find(section, "text").is_none() || find(section, "message").is_none() {
        desk.refuse(section.number, "it has no text or no message");
    }
    text_at(section, "text", file, desk);
    text_at(section, "message", message, desk);
}

fn read_section(section: &Section<'_>, desk: &mut Desk) {
    if section.is_case {
        let (mut given, mut wanted) = (CaseSetting::new(desk.alloc), Wanted::new(desk.alloc));
        read_case(section, &mut given, &mut wanted, desk);
    } else {
        let (mut file, mut message) = (Seq::new(desk.alloc), Seq::new(desk.alloc));
        read_refused(section, &mut file, &mut message, desk);
    }
}

/// The first fault of a file, if any.
pub fn fault_of(alloc: Global, lines: &[CaseLine<'_>]) -> Option<CaseFault> {
    let mut desk = Desk::new(alloc);
    match lines.first() {
        None => desk.refuse(0, "no case"),
        Some(first) if !is_head(first) => desk.refuse(first.number, "no case stands before it"),
        Some(_) => {}
    }
    for at in 0..lines.len() {
        if is_head(&lines[at]) {
            check_name(&lines[..at], &lines[at], &mut desk);
            read_section(&section_at(&*lines, at), &mut desk);
        }
    }
    desk.fault
}
