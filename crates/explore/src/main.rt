//! The program `explore`: `main` makes the real shelf and sink, the kinds of artifacts and a watch over the search, calls `explore_words`, writes the line of
//! the fault and ends with the status.
//!
//! May stand on: asl_term, mas_world, mas_artifact, mas_io, mas_explore_files, mas_explore_top, program_words
//!
//! Must not: take the words apart, decide what is told.
#![tactic(auto)]

use asl_term::sequence::Starved;
use mas_artifact::kinds::ArtifactKind;
use mas_artifact::opening::all_kinds;
use mas_explore_files::kinds::Kinds;
use mas_explore_top::ends::{ExploreEnd, end_code, end_line, starved};
use mas_explore_top::top::explore_words;
use mas_explore_top::watching::{Progress, Watch};
use mas_io::real::{FileShelf, OutSink};
use program_words::fault;
use program_words::words::{is_want, words_of};
use std::alloc::Global;
use std::io;
use std::process::ExitCode;
use std::rt::Clock;
use std::time::Instant;

/// The artifacts of the program.
#[derive(Clone, Copy, Drop)]
struct AllKinds;

impl Kinds<ArtifactKind> for AllKinds {
    ghost use Rattle.mas_artifact.specs.Opening.{first_kinds};

    ghost objects = { λ k. first_kinds };

    fn make(&self, alloc: Global) -> Result<Vec<ArtifactKind>, Starved> {
        all_kinds(alloc)
    }
}

/// Tells each second on standard error how far a search has come. Where there is no clock it tells nothing.
#[derive(Drop)]
struct Ticks<'a, R> {
    rt: &'a R,
    start: Option<Instant>,
    seconds: u64,
}

impl<'a, R: Clock> Ticks<'a, R> {
    /// Whether a second has begun of which nothing was told.
    fn is_due(&mut self) -> bool {
        let Some(start) = self.start else {
            return false;
        };
        let Ok(since) = start.elapsed(self.rt) else {
            return false;
        };
        let due = self.seconds < since.as_secs();
        self.seconds = since.as_secs();
        due
    }
}

impl<'a, R: Clock + Eprint> Watch for Ticks<'a, R> {
    fn tell(&mut self, progress: Progress) {
        if self.is_due() {
            let Progress {
                met,
                followed,
                rests,
            } = progress;
            let _ = eprint!(self.rt;
                "explore: {met} states, {followed} followed, {rests} at rest\n"
            );
        }
    }
}

fn run(rt: &HostRuntime, words: &[String]) -> ExploreEnd {
    let mut shelf = FileShelf::new(rt);
    let mut sink = OutSink::new(rt);
    let ticks = Ticks {
        rt,
        start: Instant::now(rt).ok(),
        seconds: 0,
    };
    explore_words(rt.alloc(), words, AllKinds, ticks, &mut shelf, &mut sink)
}

/// Writes the line of an end to standard error, where there is memory for it.
fn tell(rt: &HostRuntime, end: &ExploreEnd) {
    if let Ok(line) = end_line(rt.alloc(), end) {
        fault::tell(rt, line.as_slice());
    }
}

/// The end where the words could not be had: a word that is no text is a faulty command line.
fn without_words(error: &io::Error) -> ExploreEnd {
    if is_want(error) {
        starved()
    } else {
        ExploreEnd::Usage
    }
}

fn main(rt: HostRuntime) -> ExitCode {
    let end = match words_of(&rt) {
        Ok(words) => run(&rt, words.as_slice()),
        Err(error) => without_words(&error),
    };
    tell(&rt, &end);
    ExitCode::from(end_code(&end))
}
