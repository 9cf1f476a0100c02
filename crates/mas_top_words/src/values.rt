//! What the texts of options and names say.

ghost use Rattle.std.specs.Prelude.{◌≡◌, ◌≤◌, option_map};
ghost use Rattle.mas_top_words.specs.Asked as spec;
ghost use Rattle.mas_top_words.specs.Asked.{asked_of};
ghost use Rattle.mas_top_words.specs.Numbers.{number_in};
ghost use Rattle.mas_top_words.specs.Words.{text_for, given_of, said_of};

use crate::asked::{Asked, Pool};
use crate::numbers::number_in;
use crate::said::{GivenSettings, WordsSoFar};
use crate::table::Command;
use mas_mind::limits::{MOST_CYCLES, MOST_TRIES};
use mas_mind::mind::Level;
use mas_report::options::{MOST_DEPTH, Options, default_options};

/// The number that is given, from `low` to `high`, or the usual one where none is.
pub fn number_for(usual: u64, low: u64, high: u64, given: Option<&[u8]>) -> Option<u64>
    requires small { high ≤ 100000000 }
    ensures { result ≡ spec.number_for usual low high (option_map (λ t. t.now) given.entry) }
{
    match given {
        None => Some(usual),
        Some(text) => number_in(low, high, text),
    }
}

fn level_of(text: &[u8]) -> Option<Level>
    ensures { result ≡ spec.level_of text.now }
{
    if text == b"say".as_slice() {
        return Some(Level::Say);
    }
    if text == b"acts".as_slice() {
        return Some(Level::Acts);
    }
    if text == b"rules".as_slice() {
        return Some(Level::Rules);
    }
    None
}

/// The level that is given, or the usual one where none is.
fn level_for(usual: Level, given: Option<&[u8]>) -> Option<Level>
    ensures { result ≡ spec.level_for usual (option_map (λ t. t.now) given.entry) }
{
    match given {
        None => Some(usual),
        Some(text) => level_of(text),
    }
}

/// The options of a run.
fn options_for(given: &GivenSettings<'_>) -> Option<Options>
    ensures { result ≡ spec.options_for (text_for (given_of given.now)) }
{
    let usual = default_options();
    let cycles = number_for(usual.cycles, 1, MOST_CYCLES, given.cycles)?;
    let lead = number_for(usual.lead, 1, 1000, given.lead)?;
    let depth = number_for(usual.depth, 1, MOST_DEPTH, given.depth)?;
    let tries = number_for(usual.tries, 1, MOST_TRIES, given.tries)?;
    let level = level_for(usual.level, given.level)?;
    Some(Options {
        cycles,
        lead,
        depth,
        tries,
        level,
    })
}

/// How many workers there are.
fn workers_for(given: &GivenSettings<'_>) -> Option<u64>
    ensures { result ≡ spec.workers_for (text_for (given_of given.now)) }
{
    number_for(4, 1, 64, given.workers)
}

/// How many workers two sites have.
fn site_workers_for(given: &GivenSettings<'_>) -> Option<u64>
    ensures { result ≡ spec.site_workers_for (text_for (given_of given.now)) }
{
    number_for(2, 1, 2, given.workers)
}

fn pool_of(text: &[u8]) -> Option<Pool>
    ensures { result ≡ spec.pool_of text.now }
{
    if text == b"ready".as_slice() {
        return Some(Pool::Ready);
    }
    if text == b"steal".as_slice() {
        return Some(Pool::Steal);
    }
    None
}

/// From which pool workers take agents.
fn pool_for(given: &GivenSettings<'_>) -> Option<Pool>
    ensures { result ≡ spec.pool_for (text_for (given_of given.now)) }
{
    match given.pool {
        None => Some(Pool::Ready),
        Some(text) => pool_of(text),
    }
}

fn to_run<'a>(project: &'a [u8], given: &GivenSettings<'a>) -> Option<Asked<'a>>
    ensures { let text = text_for (given_of given.now) in
        option_map asked_of result ≡ spec.run_with project.now (spec.options_for text) (spec.workers_for text) (spec.pool_for text) }
{
    let options = options_for(given)?;
    let workers = workers_for(given)?;
    let pool = pool_for(given)?;
    Some(Asked::Run {
        project,
        options,
        workers,
        pool,
    })
}

fn to_replay<'a>(
    project: &'a [u8],
    schedule: &'a [u8],
    given: &GivenSettings<'a>,
) -> Option<Asked<'a>>
    ensures { option_map asked_of result ≡ option_map (spec.replay project.now schedule.now) (spec.options_for (text_for (given_of given.now))) }
{
    let options = options_for(given)?;
    Some(Asked::Replay {
        project,
        schedule,
        options,
    })
}

fn to_record<'a>(project: &'a [u8], file: &'a [u8], given: &GivenSettings<'a>) -> Option<Asked<'a>>
    ensures { let text = text_for (given_of given.now) in
        option_map asked_of result ≡ spec.recorded_with (spec.record_to project.now file.now) (spec.options_for text) (spec.workers_for text) }
{
    let options = options_for(given)?;
    let workers = workers_for(given)?;
    Some(Asked::Record {
        project,
        file,
        options,
        workers,
    })
}

fn to_resume<'a>(project: &'a [u8], file: &'a [u8], given: &GivenSettings<'a>) -> Option<Asked<'a>>
    ensures { let text = text_for (given_of given.now) in
        option_map asked_of result ≡ spec.recorded_with (spec.resume_from project.now file.now) (spec.options_for text) (spec.workers_for text) }
{
    let options = options_for(given)?;
    let workers = workers_for(given)?;
    Some(Asked::Resume {
        project,
        file,
        options,
        workers,
    })
}

/// Whether the lines of this level tell what was sent and taken.
fn shows(level: Level) -> bool
    ensures { result ≡ spec.shows level }
{
    match level {
        Level::Say => false,
        Level::Acts | Level::Rules => true,
    }
}

fn to_sites<'a>(one: &'a [u8], two: &'a [u8], given: &GivenSettings<'a>) -> Option<Asked<'a>>
    ensures { let text = text_for (given_of given.now) in
        option_map asked_of result ≡ spec.sites_with one.now two.now (spec.options_for text) (spec.site_workers_for text) }
{
    let options = options_for(given)?;
    let workers = site_workers_for(given)?;
    if !shows(options.level) {
        return None;
    }
    Some(Asked::Sites {
        one,
        two,
        options,
        workers,
    })
}

fn to_demo<'a>(count: &[u8], given: &GivenSettings<'a>) -> Option<Asked<'a>>
    ensures { option_map asked_of result ≡ spec.demo_with (number_in 1 200 count.now) (spec.workers_for (text_for (given_of given.now))) }
{
    let count = number_in(1, 200, count)?;
    let workers = workers_for(given)?;
    Some(Asked::Demo { count, workers })
}

/// What a command with what was said asks for.
pub fn asked_by<'a>(command: Command, said: &WordsSoFar<'a>) -> Option<Asked<'a>>
    ensures { let all = said_of said.now in option_map asked_of result ≡ spec.asked_by command all.names (text_for all.given) }
{
    match (command, said.first, said.second) {
        (Command::Run, Some(project), None) => to_run(project, &said.given),
        (Command::Replay, Some(project), Some(schedule)) => {
            to_replay(project, schedule, &said.given)
        }
        (Command::Check, Some(project), Some(report)) => Some(Asked::Check { project, report }),
        (Command::Demo, Some(count), None) => to_demo(count, &said.given),
        (Command::Renew, Some(project), Some(report)) => Some(Asked::Renew { project, report }),
        (Command::Record, Some(project), Some(file)) => to_record(project, file, &said.given),
        (Command::Resume, Some(project), Some(file)) => to_resume(project, file, &said.given),
        (Command::Sites, Some(one), Some(two)) => to_sites(one, two, &said.given),
        (Command::Lint, Some(project), None) => Some(Asked::Lint { project }),
        _ => None,
    }
}
