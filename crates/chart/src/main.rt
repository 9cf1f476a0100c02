//! A program that draws the report of a run: it reads the report from standard input and writes a picture, an SVG, or a page to standard output.
//!
//! May stand on: chart, program_words
//!
//! Must not: open a file, start a thread, run an agent, stand on a crate of the platform.
#![tactic(auto)]

use chart_page::answer::answer;
use chart_page::choice::{Choice, asked_of, names_of};
use chart_page::faults::{Fault, code};
use program_words::words::words_of;
use std::io;
use std::process::ExitCode;

const USAGE: &str =
    "usage: chart [--all] [--page] [--agents NAME,NAME,..] [--turns FROM..TO] <REPORT";

const VERSION: &str = "chart 1.0.0";

/// What is written where `--help` or `--version` is the only word.
fn told_of(words: &[String]) -> Option<&'static str> {
    let [word] = words else {
        return None;
    };
    match word.as_bytes() {
        b"--help" => Some(USAGE),
        b"--version" => Some(VERSION),
        _ => None,
    }
}

/// Draws what the words ask for.
fn drawn(rt: &HostRuntime) -> Result<(), Fault> {
    let Ok(words) = words_of(rt) else {
        return Err(Fault::Words);
    };
    if let Some(told) = told_of(words.as_slice()) {
        return println!(rt; "{told}").map_err(|_| Fault::Write);
    }
    let Some(asked) = asked_of(words.as_slice()) else {
        return Err(Fault::Words);
    };
    let names = names_of(rt.alloc(), asked)?;
    let choice = Choice {
        is_page: asked.is_page,
        is_all: asked.is_all,
        names: names.as_slice(),
        turns: asked.turns,
    };
    answer(rt.alloc(), choice, &mut rt.reader(), &mut io::writer(rt))
}

fn main(rt: HostRuntime) -> ExitCode {
    let Err(fault) = drawn(&rt) else {
        return ExitCode::from(0);
    };
    let _ = match fault {
        Fault::Line(number) => eprintln!(rt; "refused line {number}"),
        Fault::Words => eprintln!(rt; "{USAGE}"),
        Fault::Read => eprintln!(rt; "read fault"),
        Fault::Write => eprintln!(rt; "write fault"),
        Fault::Memory => eprintln!(rt; "memory"),
    };
    ExitCode::from(code(fault))
}
