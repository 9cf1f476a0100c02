//! What a report tells of its run, read from its bytes.

ghost use Rattle.std.specs.Prelude.{◌≡◌, slice_get, IfOk, IfSome, MatchOption};
ghost use Rattle.mas_report.specs.Reading.{BeginsVersioned, BeginsWith, NoOptions, NoVersion, OneShown, ShownPrinted, Shows, ShowsNothing, Tells, TellsNothing};
ghost use Rattle.mas_report.specs.inner.Likely as spec;

use crate::options::Options;
use crate::report::put_options;
use asl_term::sequence::{Seq, Starved};
use asl_term::syntax::Numbers;
use mas_mind::mind::Level;
use mas_report_schedule::last::last_schedule;
use mas_report_schedule::reading::Number;
use std::alloc::Global;

/// What a report tells of its run: the version, the options, and the agents' numbers in the order of their turns.
#[derive(Drop)]
pub struct Told {
    pub version: u32,
    pub options: Options,
    pub turns: Numbers,
}

fn is_digit(byte: u8) -> bool
    ensures { result ≡ spec.is_digit byte }
{
    byte >= b'0' && byte <= b'9'
}

/// What begins with the first digit.
fn from_digit(bytes: &[u8]) -> &[u8]
    ensures { result.now ≡ spec.from_digit bytes.now }
{
    let mut rest = bytes;
    'words: while let Some((byte, behind)) = rest.split_first() {
        if is_digit(*byte) {
            return rest;
        }
        rest = behind;
    }
    rest
}

/// A number with one more digit.
fn with_digit(number: u64, byte: u8) -> Option<u64>
    ensures { result ≡ spec.with_digit number byte }
{
    if !is_digit(byte) {
        return None;
    }
    number.checked_mul(10)?.checked_add((byte - b'0') as u64)
}

/// The number whose digits are at the front.
fn number_at(bytes: &[u8]) -> Number<'_>
    ensures { (result.value, result.behind.now) ≡ spec.number_at 0 bytes.now }
{
    let mut value = 0;
    let mut rest = bytes;
    'digits: while let Some((byte, behind)) = rest.split_first() {
        let Some(more) = with_digit(value, *byte) else {
            return Number {
                value,
                behind: rest,
            };
        };
        value = more;
        rest = behind;
    }
    Number {
        value,
        behind: rest,
    }
}

/// The first number.
fn next_number(bytes: &[u8]) -> Number<'_>
    ensures { (result.value, result.behind.now) ≡ spec.next_number bytes.now }
{
    number_at(from_digit(bytes))
}

/// The level whose word is behind ` level `.
fn likely_level(bytes: &[u8]) -> Level
    ensures { result ≡ spec.level_by (slice_get bytes.now 7) }
{
    match bytes.get(7) {
        Some(b's') => Level::Say,
        Some(b'r') => Level::Rules,
        _ => Level::Acts,
    }
}

/// The options whose line this can be alone.
fn likely(bytes: &[u8]) -> Options
    ensures { result ≡ spec.likely bytes.now }
{
    let cycles = next_number(bytes);
    let lead = next_number(cycles.behind);
    let depth = next_number(lead.behind);
    let tries = next_number(depth.behind);
    Options {
        cycles: cycles.value,
        lead: lead.value,
        depth: depth.value,
        tries: tries.value,
        level: likely_level(tries.behind),
    }
}

/// Options, and what is behind their line.
#[derive(Clone, Copy)]
struct Optioned<'a> {
    options: Options,
    behind: &'a [u8],
}

/// The options whose line is at the front: the likely ones, where it is the line that these would have.
#[tactic(auto, using(crate::proofs::Shown::options_are, crate::proofs::Shown::no_options))]
fn options_before<'a>(alloc: Global, bytes: &'a [u8]) -> Result<Option<Optioned<'a>>, Starved>
    ensures { IfOk result (λ r. MatchOption r (NoOptions bytes.now) (λ f. BeginsWith bytes.now f.options f.behind.now)) }
{
    let options = likely(bytes);
    let mut line = Seq::new(alloc);
    put_options(alloc, &mut line, &options)?;
    match bytes.strip_prefix(line.as_slice()) {
        Some(behind) => Ok(Some(Optioned { options, behind })),
        None => Ok(None),
    }
}

/// A version, and what is behind its first line.
#[derive(Clone, Copy)]
struct Versioned<'a> {
    version: u32,
    behind: &'a [u8],
}

/// The version whose first line is at the front.
#[tactic(auto, using(crate::proofs::Shown::version_one, crate::proofs::Shown::version_two, crate::proofs::Shown::no_version))]
fn version_before(bytes: &[u8]) -> Option<Versioned<'_>>
    ensures { MatchOption result (NoVersion bytes.now) (λ f. BeginsVersioned bytes.now f.version f.behind.now) }
{
    match bytes.strip_prefix(b"jasonrun 1\n") {
        Some(behind) => Some(Versioned { version: 1, behind }),
        None => match bytes.strip_prefix(b"jasonrun 2\n") {
            Some(behind) => Some(Versioned { version: 2, behind }),
            None => None,
        },
    }
}

/// What is told behind the first line of this version.
#[tactic(auto, using(crate::proofs::Shown::tells_both))]
fn told_behind(alloc: Global, version: u32, bytes: &[u8]) -> Result<Option<Told>, Starved>
    ensures version { IfOk result (λ r. IfSome r (λ t. t.version ≡ version)) }
    ensures rest { IfOk result (λ r. MatchOption r (TellsNothing bytes.now) (λ t. Tells bytes.now t.options t.turns)) }
{
    match options_before(alloc, bytes) {
        Err(starved) => Err(starved),
        Ok(None) => Ok(None),
        Ok(Some(front)) => match last_schedule(alloc, front.behind) {
            Err(starved) => Err(starved),
            Ok(None) => Ok(None),
            Ok(Some(turns)) => Ok(Some(Told {
                version,
                options: front.options,
                turns,
            })),
        },
    }
}

/// What a report tells of its run; None exactly where its first line is that of no version, its second that of no options, or
/// its last two lines are no schedule.
#[tactic(auto, using(crate::proofs::Shown::no_first))]
pub fn read_report(alloc: Global, bytes: &[u8]) -> Result<Option<Told>, Starved>
    ensures { IfOk result (λ r. MatchOption r (ShowsNothing bytes.now) (Shows bytes.now)) }
{
    match version_before(bytes) {
        Some(first) => told_behind(alloc, first.version, first.behind),
        None => Ok(None),
    }
}

/// Bytes tell of one run at most, and its turns are the numbers for which their last line stands.
pub fn one_shown()
    ensures one { OneShown }
    ensures printed { ShownPrinted }
{}
