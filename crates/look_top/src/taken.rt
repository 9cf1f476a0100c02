//! Words taken apart by clap.

ghost use Rattle.std.specs.Prelude.{◌≡◌, ◌||◌, map, string_bytes, option_map, option_and_then, codes, IfOk};
ghost use Rattle.std.specs.Str.{bytes_eq};
ghost use Rattle.clap.specs.Matches.{found_of};
ghost use Rattle.clap.specs.Walk.{first_of, rows_of};
ghost use Rattle.look_top.specs.Apps.{app_for};
ghost use Rattle.look_top.specs.Asked as spec;

use crate::apps::app_for;
use crate::turns::turn_in;
use crate::words::{DropsWords, LookAsked, LookVerb, MindWords, PageWords};
use asl_term::sequence::Starved;
use clap::ArgMatches;
use clap::error::ErrorKind;
use program_words::texts::{is_set, text_of};
use std::alloc::Global;

/// The words behind a command, taken apart; None where it does not take them.
fn matches_of<'a>(
    alloc: Global,
    verb: LookVerb,
    words: &'a [String],
) -> Result<Option<ArgMatches<'a>>, Starved>
    ensures { IfOk result (λ r. option_map (λ m. rows_of (found_of m)) r ≡ spec.rows_by (app_for verb) (map string_bytes words.now)) }
{
    let app = app_for(alloc, verb)?;
    match app.try_get_matches_from(words) {
        Ok(matches) => Ok(Some(matches)),
        Err(error) => match error.kind() {
            ErrorKind::OutOfMemory => Err(Starved),
            _ => Ok(None),
        },
    }
}

/// The turn that is given; None where there is none, or its text is not permitted.
#[tactic(auto, using(program_words::proofs::First::first_text))]
fn turn_of(matches: &ArgMatches<'_>) -> Option<Option<u64>>
    ensures { result ≡ option_and_then spec.turn_in (first_of (codes "turn") (rows_of (found_of matches.now))) }
{
    match matches.get_str("turn") {
        None => None,
        Some(text) => turn_in(text),
    }
}

fn messages_among<'a>(matches: &ArgMatches<'a>) -> Option<LookAsked<'a>>
    ensures { option_map spec.asked_of result ≡ spec.messages_among (rows_of (found_of matches.now)) }
{
    let report = text_of(matches, "report")?;
    let csv = is_set(text_of(matches, "csv"));
    Some(LookAsked::Messages { report, csv })
}

fn mind_among<'a>(matches: &ArgMatches<'a>) -> Option<LookAsked<'a>>
    ensures { option_map spec.asked_of result ≡ spec.mind_among (rows_of (found_of matches.now)) }
{
    let project = text_of(matches, "project")?;
    let report = text_of(matches, "report")?;
    let agent = text_of(matches, "agent")?;
    let turn = turn_of(matches)?;
    Some(LookAsked::Mind(MindWords {
        project,
        report,
        agent,
        turn,
    }))
}

fn page_among<'a>(matches: &ArgMatches<'a>) -> Option<LookAsked<'a>>
    ensures { option_map spec.asked_of result ≡ spec.page_among (rows_of (found_of matches.now)) }
{
    let project = text_of(matches, "project")?;
    let report = text_of(matches, "report")?;
    Some(LookAsked::Page(PageWords { project, report }))
}

fn drops_among<'a>(matches: &ArgMatches<'a>) -> Option<LookAsked<'a>>
    ensures { option_map spec.asked_of result ≡ spec.drops_among (rows_of (found_of matches.now)) }
{
    let project = text_of(matches, "project")?;
    let report = text_of(matches, "report")?;
    let unhandled = is_set(text_of(matches, "unhandled"));
    Some(LookAsked::Drops(DropsWords {
        project,
        report,
        unhandled,
    }))
}

/// What the matches of a command ask for.
fn asked_among<'a>(verb: LookVerb, matches: &ArgMatches<'a>) -> Option<LookAsked<'a>>
    ensures { option_map spec.asked_of result ≡ spec.asked_among verb (rows_of (found_of matches.now)) }
{
    match verb {
        LookVerb::Where => match text_of(matches, "project") {
            Some(project) => Some(LookAsked::Where { project }),
            None => None,
        },
        LookVerb::Hints => match text_of(matches, "project") {
            Some(project) => Some(LookAsked::Hints { project }),
            None => None,
        },
        LookVerb::Messages => messages_among(matches),
        LookVerb::Mind => mind_among(matches),
        LookVerb::Page => page_among(matches),
        LookVerb::Drops => drops_among(matches),
    }
}

/// What the words behind a command ask for.
fn asked_by<'a>(
    alloc: Global,
    verb: LookVerb,
    words: &'a [String],
) -> Result<Option<LookAsked<'a>>, Starved>
    ensures { IfOk result (λ a. option_map spec.asked_of a ≡ spec.asked_by verb (map string_bytes words.now)) }
{
    match matches_of(alloc, verb, words)? {
        None => Ok(None),
        Some(matches) => Ok(asked_among(verb, &matches)),
    }
}

fn is_word(word: &[u8], other: &[u8]) -> bool
    ensures { result ≡ bytes_eq word.now other.now }
{
    word == other
}

/// The command that a word names.
fn verb_of(word: &[u8]) -> Option<LookVerb>
    ensures { result ≡ spec.verb_of word.now }
{
    if is_word(word, b"where") {
        Some(LookVerb::Where)
    } else if is_word(word, b"hints") {
        Some(LookVerb::Hints)
    } else if is_word(word, b"messages") {
        Some(LookVerb::Messages)
    } else if is_word(word, b"mind") {
        Some(LookVerb::Mind)
    } else if is_word(word, b"page") {
        Some(LookVerb::Page)
    } else if is_word(word, b"drops") {
        Some(LookVerb::Drops)
    } else {
        None
    }
}

fn is_either(word: &[u8], long: &[u8], short: &[u8]) -> bool
    ensures { result ≡ (bytes_eq word.now long.now || bytes_eq word.now short.now) }
{
    is_word(word, long) || is_word(word, short)
}

/// What the words behind this one ask for.
fn asked_behind<'a>(
    alloc: Global,
    word: &[u8],
    words: &'a [String],
) -> Result<Option<LookAsked<'a>>, Starved>
    ensures { IfOk result (λ a. option_map spec.asked_of a ≡ spec.asked_behind word.now (map string_bytes words.now)) }
{
    if is_either(word, b"--help", b"-h") {
        return Ok(Some(LookAsked::Help));
    }
    if is_either(word, b"--version", b"-V") {
        return Ok(Some(LookAsked::Version));
    }
    match verb_of(word) {
        Some(verb) => asked_by(alloc, verb, words),
        None => Ok(None),
    }
}

/// What the words ask for; None where they are not read. The words leave out the program's own name.
pub fn asked_of<'a>(alloc: Global, words: &'a [String]) -> Result<Option<LookAsked<'a>>, Starved>
    ensures { IfOk result (λ a. option_map spec.asked_of a ≡ spec.asked (map string_bytes words.now)) }
{
    match words.split_first() {
        None => Ok(None),
        Some((word, rest)) => asked_behind(alloc, word.as_str().as_bytes(), rest),
    }
}
