//! Words taken apart by clap.

ghost use Rattle.std.specs.Prelude.{◌≡◌, true, is_some, None, map, string_bytes, option_map, IfOk, IfErr, IfSome, MatchOption};
ghost use Rattle.clap.specs.Matches.{found_of};
ghost use Rattle.clap.specs.Simple.{app_of, matches_of};
ghost use Rattle.clap.specs.Takes.{takes};
ghost use Rattle.clap.specs.Walk.{rows_of};
ghost use Rattle.mas_top_words.specs.Apps as apps;
ghost use Rattle.mas_top_words.specs.Asked.{IsPermitted, asked_of};
ghost use Rattle.mas_top_words.specs.Plain.{AreRead, AskOnlyFor, AskForNothing};
ghost use Rattle.mas_top_words.specs.Taken.{given_among, said_among};
ghost use Rattle.mas_top_words.specs.Words as spec;
ghost use Rattle.mas_top_words.specs.Words.{said_of};

use crate::apps::app_for;
use crate::asked::Asked;
use crate::reading::read;
use crate::said::{GivenSettings, WordsSoFar};
use crate::table::{Command, command_of};
use crate::values::asked_by;
use asl_term::sequence::Starved;
use clap::error::ErrorKind;
use clap::{ArgMatches, Command as App};
use program_words::texts::text_of;
use std::alloc::Global;

/// The words that a command takes, taken apart. Want of memory is the only refusal.
fn matches_by<'a>(
    command: Command,
    app: App<'a>,
    words: &'a [String],
) -> Result<ArgMatches<'a>, Starved>
    requires app { app_of app ≡ apps.app_for command }
    requires takes { takes (apps.app_for command) (map string_bytes words.now) ≡ true }
    ensures { IfOk result (λ m. rows_of (found_of m) ≡ matches_of (apps.app_for command) (map string_bytes words.now)) }
{
    match app.try_get_matches_from(words) {
        Ok(matches) => Ok(matches),
        Err(error) => match error.kind() {
            ErrorKind::OutOfMemory => Err(Starved),
            _ => unreachable!(),
        },
    }
}

/// The texts of the options.
fn given_by<'a>(matches: &ArgMatches<'a>) -> GivenSettings<'a>
    ensures { spec.given_of result ≡ given_among (rows_of (found_of matches.now)) }
{
    GivenSettings {
        workers: text_of(matches, "workers"),
        pool: text_of(matches, "pool"),
        cycles: text_of(matches, "cycles"),
        lead: text_of(matches, "lead"),
        depth: text_of(matches, "depth"),
        tries: text_of(matches, "tries"),
        level: text_of(matches, "level"),
    }
}

/// The names and the texts of the options.
fn said_by<'a>(command: Command, matches: &ArgMatches<'a>) -> WordsSoFar<'a>
    ensures { said_of result ≡ said_among command (rows_of (found_of matches.now)) }
{
    let (first, second) = match command {
        Command::Run => (text_of(matches, "project"), None),
        Command::Replay => (text_of(matches, "project"), text_of(matches, "schedule")),
        Command::Check => (text_of(matches, "project"), text_of(matches, "report")),
        Command::Demo => (text_of(matches, "count"), None),
        Command::Renew => (text_of(matches, "project"), text_of(matches, "report")),
        Command::Record => (text_of(matches, "project"), text_of(matches, "file")),
        Command::Resume => (text_of(matches, "project"), text_of(matches, "file")),
        Command::Sites => (text_of(matches, "project"), text_of(matches, "other")),
        Command::Lint => (text_of(matches, "project"), None),
    };
    WordsSoFar {
        first,
        second,
        given: given_by(matches),
        awaits: None,
    }
}

/// The command of the first word, and the words behind it.
fn parted<'a>(words: &'a [String]) -> Option<(Command, &'a [String])>
    ensures { let texts = map string_bytes words.now in
        MatchOption result (spec.asked texts ≡ None) (λ p. spec.asked texts ≡ spec.asked_after (map string_bytes p.1.now) p.0) }
{
    let (word, rest) = words.split_first()?;
    let command = command_of(word.as_str().as_bytes())?;
    Some((command, rest))
}

/// What the words behind the command ask for, where they are read.
#[tactic(auto, using(crate::proofs::Taking::taken_words, crate::proofs::Taking::taken_same))]
fn asked_apart<'a>(
    alloc: Global,
    command: Command,
    words: &'a [String],
) -> Result<Option<Asked<'a>>, Starved>
    requires { is_some (spec.asked_after (map string_bytes words.now) command) ≡ true }
    ensures { IfOk result (λ a. option_map asked_of a ≡ spec.asked_after (map string_bytes words.now) command) }
{
    let app = match app_for(alloc, command) {
        Ok(app) => app,
        Err(_) => return Err(Starved),
    };
    let matches = matches_by(command, app, words)?;
    let said = said_by(command, &matches);
    Ok(asked_by(command, &said))
}

fn find_apart<'a>(alloc: Global, words: &'a [String]) -> Result<Option<Asked<'a>>, Starved>
    ensures value { IfOk result (λ a. option_map asked_of a ≡ spec.asked (map string_bytes words.now)) }
    ensures starved { IfErr result (λ _. is_some (spec.asked (map string_bytes words.now)) ≡ true) }
{
    if read(words).is_none() {
        return Ok(None);
    }
    match parted(words) {
        None => Ok(None),
        Some((command, rest)) => match asked_apart(alloc, command, rest) {
            Ok(asked) => Ok(asked),
            Err(starved) => Err(starved),
        },
    }
}

/// What the words ask for, taken apart by clap; None exactly where they are not read, for which no memory is needed.
pub fn take_apart<'a>(alloc: Global, words: &'a [String]) -> Result<Option<Asked<'a>>, Starved>
    ensures value { IfOk result (λ a. option_map asked_of a ≡ spec.asked (map string_bytes words.now)) }
    ensures plain { let texts = map string_bytes words.now in
        IfOk result (λ r. MatchOption r (AskForNothing texts) (λ a. AskOnlyFor texts (asked_of a))) }
    ensures within { IfOk result (λ r. IfSome r (λ a. IsPermitted (asked_of a))) }
    ensures starved { IfErr result (λ _. AreRead (map string_bytes words.now)) }
{
    match find_apart(alloc, words) {
        Ok(asked) => Ok(asked),
        Err(starved) => Err(starved),
    }
}
