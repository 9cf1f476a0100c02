//! The program `jasonlook`: `main` makes the real shelf and sink and the artifacts, reads standard input where the words ask for it, calls `look_words`,
//! writes the line of the fault and ends with the code.
//!
//! May stand on: asl_term, mas_world, mas_artifact, mas_io, look, program_words
//!
//! Must not: take the words apart, decide what is told.
#![tactic(auto)]

use asl_term::sequence::Starved;
use look_top::ends::{LookEnd, end_code, end_line, starved, unread};
use look_top::input::reads_input;
use look_top::reports::MOST_INPUT_BYTES;
use look_top::top::look_words;
use mas_artifact::opening::all_kinds;
use mas_io::real::{FileShelf, OutSink};
use program_words::fault;
use program_words::words::{is_want, words_of};
use std::io;
use std::io::Read;
use std::process::ExitCode;

/// What standard input has, as far as a report may go, and a byte more, by which what is longer is known.
fn input_bytes(rt: &HostRuntime) -> io::Result<Vec<u8>> {
    let mut bytes = Vec::new(rt.alloc());
    rt.reader()
        .take(MOST_INPUT_BYTES + 1)
        .read_to_end(&mut bytes)?;
    Ok(bytes)
}

/// The end where the words could not be had: a word that is no text is a faulty command line.
fn without_words(error: &io::Error) -> LookEnd {
    if is_want(error) {
        starved()
    } else {
        LookEnd::Usage
    }
}

/// The end where standard input could not be read.
fn without_input(error: &io::Error) -> LookEnd {
    if is_want(error) { starved() } else { unread() }
}

/// Standard input, where the words ask for it.
fn input_of(rt: &HostRuntime, words: &[String]) -> Result<Option<Vec<u8>>, LookEnd> {
    match reads_input(rt.alloc(), words) {
        Err(Starved) => Err(starved()),
        Ok(false) => Ok(None),
        Ok(true) => match input_bytes(rt) {
            Ok(bytes) => Ok(Some(bytes)),
            Err(error) => Err(without_input(&error)),
        },
    }
}

fn run(rt: &HostRuntime, words: &[String], input: Option<&[u8]>) -> Result<LookEnd, Starved> {
    let alloc = rt.alloc();
    let artifacts = all_kinds(alloc)?;
    let again = all_kinds(alloc)?;
    let mut shelf = FileShelf::new(rt);
    let mut sink = OutSink::new(rt);
    Ok(look_words(alloc, words, input, &mut shelf, &mut sink, artifacts, again))
}

/// Writes the line of an end to standard error, where there is memory for it.
fn tell(rt: &HostRuntime, end: &LookEnd) {
    if let Ok(line) = end_line(rt.alloc(), end) {
        fault::tell(rt, line.as_slice());
    }
}

/// Does what the words ask for, over real files, input and output.
fn looked(rt: &HostRuntime, words: &[String]) -> LookEnd {
    let input = match input_of(rt, words) {
        Ok(input) => input,
        Err(end) => return end,
    };
    let bytes = match &input {
        Some(bytes) => Some(bytes.as_slice()),
        None => None,
    };
    match run(rt, words, bytes) {
        Ok(end) => end,
        Err(Starved) => starved(),
    }
}

fn main(rt: HostRuntime) -> ExitCode {
    let end = match words_of(&rt) {
        Ok(words) => looked(&rt, words.as_slice()),
        Err(error) => without_words(&error),
    };
    tell(&rt, &end);
    ExitCode::from(end_code(&end))
}
