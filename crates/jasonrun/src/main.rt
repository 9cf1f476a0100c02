//! The program: `main` makes the real shelf, sink and disk and the artifacts, calls `run_words`, writes the fault line and ends with the code.
//!
//! May stand on: asl_term, mas_world, mas_artifact, mas_pool, mas_io, mas_record, mas_top, program_words
//!
//! Must not: take the words apart, decide a rule of the language, start a thread of its own.
#![tactic(auto)]

ghost use Rattle.mas_top_record.specs.Disks.{IsFree};

use asl_term::sequence::Starved;
use mas_artifact::opening::all_kinds;
use mas_io::real::{FileShelf, OutSink};
use mas_pool_task::gate::OpenGate;
use mas_record_disk::disk::Disk;
use mas_record_files::real::FileDisk;
use mas_top::top::run_words;
use mas_top_status::status::{Status, code, fault_line};
use mas_world::artifact::Artifact;
use program_words::fault;
use program_words::words::{is_want, words_of};
use std::process::ExitCode;
use std::rt::Files;
use std::sync::Wait;
use std::thread::Threads;
use std::{fs, io};

/// The status of words that could not be had: a word that is no text is a faulty command line.
fn unread(error: &io::Error) -> Status {
    if is_want(error) {
        Status::Memory
    } else {
        Status::Usage
    }
}

/// Writes the line of a status to standard error, where there is memory for it.
fn tell(rt: &HostRuntime, status: &Status) {
    if let Ok(line) = fault_line(rt.alloc(), status) {
        fault::tell(rt, line.as_slice());
    }
}

/// Does what the words ask for, over real files and output, with a tally, a slot and a belt, and the gate that lets pass.
fn run<R: Files + Print + AllocGlobal + Threads + Wait + Sync, D: Disk + Send>(
    rt: &R,
    words: &[String],
    disk: &mut Option<D>,
) -> Result<Status, Starved>
    requires { IsFree D.state disk.old }
{
    let alloc = rt.alloc();
    let mut all: Vec<Box<dyn Artifact + Send>> = Vec::new(alloc);
    for kind in all_kinds(alloc)? {
        all.push(Box::new(alloc, kind)?)?;
    }
    let mut shelf = FileShelf::new(rt);
    let mut sink = OutSink::new(rt);
    Ok(run_words(
        rt, alloc, words, &mut shelf, &mut sink, &OpenGate, all, disk,
    ))
}

/// The null device, for reading alone. It is opened three times before anything else and kept to the end: where a standard descriptor was
/// closed it takes that place, so that no file that is opened later is standard output or standard error.
fn null_device<R: Files>(rt: &R) -> Option<R::File> {
    fs::open(rt, "/dev/null").ok()
}

/// Runs are recorded in files of the machine.
fn main(rt: HostRuntime) -> ExitCode {
    let held = (null_device(&rt), null_device(&rt), null_device(&rt));
    let mut disk = Some(FileDisk::new(&rt));
    let status = match words_of(&rt) {
        Ok(words) => run(&rt, &words, &mut disk).unwrap_or(Status::Memory),
        Err(error) => unread(&error),
    };
    tell(&rt, &status);
    drop(held);
    ExitCode::from(code(&status))
}
