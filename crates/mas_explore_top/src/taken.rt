//! Words taken apart by clap.

ghost use Rattle.std.specs.Prelude.{◌≡◌, ◌||◌, map, string_bytes, option_map, IfOk, IfSome};
ghost use Rattle.std.specs.Str.{bytes_eq};
ghost use Rattle.clap.specs.Matches.{found_of};
ghost use Rattle.clap.specs.Simple.{app_of};
ghost use Rattle.clap.specs.Walk.{rows_of};
ghost use Rattle.mas_explore_top.specs.Apps as apps;
ghost use Rattle.mas_explore_top.specs.Asked as spec;

use crate::app::explore_app;
use crate::values::{claimed_for, detail_for};
use crate::words::{ExploreAsked, ExploreWords};
use asl_term::sequence::Starved;
use clap::error::ErrorKind;
use clap::{ArgMatches, Command};
use mas_explore::space::MOST_STATES;
use mas_mind::limits::MOST_TRIES;
use mas_report::options::{MOST_DEPTH, default_options};
use mas_top_words::values::number_for;
use program_words::texts::{is_set, text_of};
use std::alloc::Global;

/// What the arguments ask for.
fn exploring_among<'a>(matches: &ArgMatches<'a>) -> Option<ExploreWords<'a>>
    ensures { option_map spec.exploring_of result ≡ spec.exploring_among (rows_of (found_of matches.now)) }
{
    let usual = default_options();
    let project = text_of(matches, "project")?;
    let detail = detail_for(text_of(matches, "level"))?;
    let depth = number_for(usual.depth, 1, MOST_DEPTH, text_of(matches, "depth"))?;
    let tries = number_for(usual.tries, 1, MOST_TRIES, text_of(matches, "tries"))?;
    let states = number_for(MOST_STATES, 1, MOST_STATES, text_of(matches, "states"))?;
    let claimed = claimed_for(text_of(matches, "never"), text_of(matches, "always"))?;
    Some(ExploreWords {
        project,
        detail,
        depth,
        tries,
        states,
        claimed,
        progress: is_set(text_of(matches, "progress")),
    })
}

/// What the words ask for, where this command takes them apart. Want of memory is the only refusal.
fn exploring<'a>(app: Command<'a>, words: &'a [String]) -> Result<Option<ExploreWords<'a>>, Starved>
    requires { app_of app ≡ apps.explore_app }
    ensures value { IfOk result (λ r. option_map spec.exploring_of r ≡ spec.exploring (map string_bytes words.now)) }
    ensures within { IfOk result (λ r. IfSome r (λ w. spec.IsPermitted (spec.exploring_of w))) }
{
    match app.try_get_matches_from(words) {
        Ok(matches) => Ok(exploring_among(&matches)),
        Err(error) => match error.kind() {
            ErrorKind::OutOfMemory => Err(Starved),
            _ => Ok(None),
        },
    }
}

fn is_either(text: &[u8], long: &[u8], short: &[u8]) -> bool
    ensures { result ≡ (bytes_eq text.now long.now || bytes_eq text.now short.now) }
{
    text == long || text == short
}

/// Whether there is one word alone, which is the long or the short one.
#[tactic(auto, using(crate::proofs::Asks::no_word, crate::proofs::Asks::one_word, crate::proofs::Asks::more_words))]
fn is_alone(words: &[String], long: &[u8], short: &[u8]) -> bool
    ensures { result ≡ spec.is_alone long.now short.now (map string_bytes words.now) }
{
    match words.split_first() {
        None => false,
        Some((word, rest)) => match rest.split_first() {
            None => is_either(word.as_str().as_bytes(), long, short),
            Some(_) => false,
        },
    }
}

/// What the words ask for; None where they are not read. The words leave out the program's own name.
pub fn asked_of<'a>(alloc: Global, words: &'a [String]) -> Result<Option<ExploreAsked<'a>>, Starved>
    ensures value { IfOk result (λ a. option_map spec.asked_of a ≡ spec.asked (map string_bytes words.now)) }
    ensures within { IfOk result (λ r. IfSome r (λ a. spec.ArePermitted (spec.asked_of a))) }
{
    if is_alone(words, b"--help", b"-h") {
        return Ok(Some(ExploreAsked::Help));
    }
    if is_alone(words, b"--version", b"-V") {
        return Ok(Some(ExploreAsked::Version));
    }
    let app = explore_app(alloc)?;
    match exploring(app, words)? {
        None => Ok(None),
        Some(words) => Ok(Some(ExploreAsked::Explore(words))),
    }
}
