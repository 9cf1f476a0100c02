//! A program that runs the cases in the files that its words name, such as those in its `data/`: whole calls over a shelf, a sink and a disk in
//! memory. It reports which of them differ.
//!
//! May stand on: asl_term, mas_mind, mas_world, mas_artifact, mas_pool, mas_io, mas_record, mas_report, mas_top
//!
//! Must not: write a file, run a case over real files, start a thread of its own, decide a rule of the language.
#![tactic(auto)]

mod comparing;
mod crashing;
mod form;
mod lines;
mod reading;
mod running;
mod telling;
mod values;

use asl_term::sequence::Seq;
use asl_term::syntax::Text;
use form::{Desk, Section};
use lines::{is_head, read_lines, section_at};
use reading::fault_of;
use running::{run_case, run_refused};
use std::alloc::Global;
use std::io::Write;
use std::process::ExitCode;
use std::rt::{Env, Files};
use std::sync::Wait;
use std::thread::Threads;
use std::{env, fs, io};
use telling::put_fault;

/// How many cases passed, how many failed, and the lines that tell why.
#[derive(Drop)]
struct Tally {
    passed: u64,
    failed: u64,
    lines: Text,
    desk: Desk,
}

impl Tally {
    /// Counts a failure, of the case of a name or, where it is empty, of a whole file.
    fn fail(&mut self, file: &str, name: &[u8], reason: &[u8]) {
        self.failed = self.failed.saturating_add(1);
        self.desk.put(file.as_bytes(), &mut self.lines);
        self.desk.put(b": ", &mut self.lines);
        if !name.is_empty() {
            self.desk.put(name, &mut self.lines);
            self.desk.put(b": ", &mut self.lines);
        }
        self.desk.put(reason, &mut self.lines);
        self.desk.put(b"\n", &mut self.lines);
    }

    /// Tells how many cases passed, and how many failed.
    fn put_counts(&mut self) {
        self.desk.put_named("", self.passed, &mut self.lines);
        self.desk
            .put_named(" passed, ", self.failed, &mut self.lines);
        self.desk.put(b" failed\n", &mut self.lines);
    }
}

fn run_section<R: Threads + Wait + Sync>(
    rt: &R,
    alloc: Global,
    file: &str,
    section: &Section<'_>,
    tally: &mut Tally,
) {
    let (mut reason, mut desk) = (Seq::new(alloc), Desk::new(alloc));
    let is_passed = if section.is_case {
        run_case(rt, section, &mut reason, &mut desk)
    } else {
        run_refused(section, &mut reason, &mut desk)
    };
    if let Some(fault) = desk.fault {
        reason.truncate(0);
        put_fault(&fault, &mut reason, &mut desk);
        return tally.fail(file, section.name, reason.as_slice());
    }
    if is_passed {
        tally.passed = tally.passed.saturating_add(1);
    } else {
        tally.fail(file, section.name, reason.as_slice());
    }
}

/// Runs the cases of a file. One that can't be read as a whole counts as a failure, and none of it is run.
fn run_text<R: Threads + Wait + Sync>(
    rt: &R,
    alloc: Global,
    file: &str,
    text: &[u8],
    tally: &mut Tally,
) {
    let mut lines = Vec::new(alloc);
    if read_lines(text, &mut lines).is_err() {
        return tally.fail(file, &[], b"memory");
    }
    if let Some(fault) = fault_of(alloc, lines.as_slice()) {
        let mut reason = Seq::new(alloc);
        put_fault(&fault, &mut reason, &mut Desk::new(alloc));
        return tally.fail(file, &[], reason.as_slice());
    }
    for at in 0..lines.len() {
        if is_head(&lines[at]) {
            run_section(rt, alloc, file, &section_at(lines.as_slice(), at), tally);
        }
    }
}

/// Runs the files that the words name.
fn run_files<R: Files + Env + AllocGlobal + Threads + Wait + Sync>(
    rt: &R,
    tally: &mut Tally,
) -> io::Result<()> {
    for word in env::args(rt)?.skip(1) {
        let file = word.as_str();
        match fs::read(rt, file) {
            Ok(text) => run_text(rt, rt.alloc(), file, text.as_slice(), tally),
            Err(_) => tally.fail(file, &[], b"it can't be read"),
        }
    }
    Ok(())
}

fn main(rt: HostRuntime) -> ExitCode {
    let mut tally = Tally {
        passed: 0,
        failed: 0,
        lines: Seq::new(rt.alloc()),
        desk: Desk::new(rt.alloc()),
    };
    if run_files(&rt, &mut tally).is_err() {
        return ExitCode::from(2);
    }
    tally.put_counts();
    if tally.desk.fault.is_some() {
        return ExitCode::from(2);
    }
    let is_told = io::writer(&rt).write_all(tally.lines.as_slice()).is_ok();
    if is_told && tally.failed == 0 && tally.passed > 0 {
        ExitCode::SUCCESS
    } else {
        ExitCode::from(1)
    }
}
