//! What a file of cases holds.

ghost use Rattle.std.specs.Prelude.{◌≤◌};

use asl_term::copying::text_of;
use asl_term::sequence::{Seq, Starved};
use asl_term::syntax::{Filed, Files, Numbers, Text};
use std::alloc::Global;

/// A line of a file: its number, from 1, its first word, and what stands behind the blank that ends this word.
#[derive(Clone, Copy)]
pub struct CaseLine<'a> {
    pub number: u64,
    pub word: &'a [u8],
    pub rest: &'a [u8],
}

/// What stands under a key: the number of its line, what stands there behind the key, and the lines of its text.
#[derive(Clone, Copy)]
pub struct CaseEntry<'a> {
    pub number: u64,
    pub rest: &'a [u8],
    pub pieces: &'a [CaseLine<'a>],
}

/// A case, or a refused file: the number of the line that begins it and names it, and the lines behind it.
#[derive(Clone, Copy)]
pub struct Section<'a> {
    pub number: u64,
    pub is_case: bool,
    pub name: &'a [u8],
    pub body: &'a [CaseLine<'a>],
}

/// Why a file of cases can't be read, and its line; 0 where it is the fault of no line.
#[derive(Clone, Copy)]
pub struct CaseFault {
    pub line: u64,
    pub what: &'static str,
}

/// What reads and tells: what it allocates with, and the first fault that it met, if any.
#[derive(Clone, Copy)]
pub struct Desk {
    pub alloc: Global,
    pub fault: Option<CaseFault>,
}

impl Desk {
    /// A desk that has met no fault.
    pub fn new(alloc: Global) -> Desk {
        Desk { alloc, fault: None }
    }

    /// Says why a file can't be read. The first fault stays.
    pub fn refuse(&mut self, line: u64, what: &'static str) {
        if self.fault.is_none() {
            self.fault = Some(CaseFault { line, what });
        }
    }

    /// Refuses where memory is short.
    pub fn check(&mut self, outcome: Result<(), Starved>) {
        if outcome.is_err() {
            self.refuse(0, "memory");
        }
    }

    /// Some bytes, as they are. Where memory is short, that is a fault of no line.
    pub fn put(&mut self, bytes: &[u8], out: &mut Text) {
        self.check(out.append(bytes));
    }

    /// A word, and a number in decimal.
    pub fn put_named(&mut self, name: &str, number: u64, out: &mut Text) {
        match format!(in self.alloc; "{name}{number}") {
            Ok(text) => self.put(text.as_bytes(), out),
            Err(_) => self.refuse(0, "memory"),
        }
    }

    /// One more word for a call of the program. Where memory is short it is left out, which is a
    /// fault of no line.
    pub fn put_word(&mut self, word: &str, words: &mut Vec<String>) {
        match word.to_string(self.alloc) {
            Ok(word) => {
                if words.push(word).is_err() {
                    self.refuse(0, "memory");
                }
            }
            Err(_) => self.refuse(0, "memory"),
        }
    }

    /// A file of this name.
    pub fn put_file(&mut self, name: &[u8], bytes: Text, files: &mut Files) {
        match text_of(self.alloc, name) {
            Ok(name) => self.check(files.push(Filed { name, bytes })),
            Err(starved) => self.check(Err(starved)),
        }
    }
}

/// A place of what is wanted: a line of the output, the line of a number among those that stand in order, or the files of the disk.
#[derive(Clone, Copy)]
pub enum WantedPlace {
    Status,
    Fault,
    Line(u64),
    InOrder(u64),
    Disk,
}

/// What the output has to be: the wanted text; sections of agents; or one that has the wanted lines in order.
#[derive(Clone, Copy)]
pub enum Mode {
    Whole,
    Agents,
    InOrder,
}

/// What a case says in numbers and words: the most bytes a put takes, the free places of the sink, the status, and the place,
/// if any, at which the call has to differ first.
#[derive(Clone, Copy)]
pub struct Plain {
    pub short: u64,
    pub room: u64,
    pub status: u64,
    pub mode: Mode,
    pub differs: Option<WantedPlace>,
    ghost some: { 1 ≤ short },
}

/// The files of the shelf and of the disk, which calls of shelf, sink and disk fail, the words, and the numbers of workers with each
/// of which they are called; the words alone are called where there is none. Where a file is cut, by its name, they are called once
/// for each proper prefix of it. Where a line of version 1 is told, the report is renewed from the one that has this line. Where a
/// number of crashes is told, the run is also recorded on disks that fail, and gone on from what crashes leave.
#[derive(Drop)]
pub struct CaseSetting {
    pub files: Files,
    pub disk: Files,
    pub shelf_fails: Numbers,
    pub sink_fails: Numbers,
    pub disk_fails: Numbers,
    pub words: Vec<String>,
    pub workers: Numbers,
    pub cut: Text,
    pub old: Text,
    pub crashes: u64,
}

impl CaseSetting {
    /// What a case gives that gives nothing: no files, no words, no calls that fail.
    pub fn new(alloc: Global) -> CaseSetting {
        CaseSetting {
            files: Seq::new(alloc),
            disk: Seq::new(alloc),
            shelf_fails: Seq::new(alloc),
            sink_fails: Seq::new(alloc),
            disk_fails: Seq::new(alloc),
            words: Vec::new(alloc),
            workers: Seq::new(alloc),
            cut: Seq::new(alloc),
            old: Seq::new(alloc),
            crashes: 0,
        }
    }
}

/// The fault line with its line feed, what is wanted of the output, and what files of the disk have to hold.
#[derive(Drop)]
pub struct Wanted {
    pub fault: Text,
    pub output: Text,
    pub kept: Files,
}

impl Wanted {
    /// What a case wants that wants nothing: no fault line, no output, no files on the disk.
    pub fn new(alloc: Global) -> Wanted {
        Wanted {
            fault: Seq::new(alloc),
            output: Seq::new(alloc),
            kept: Seq::new(alloc),
        }
    }
}
