//! A schedule read from the bytes of its two lines.

ghost use Rattle.std.specs.Prelude.{◌≡◌, ◌<◌, ◌≤◌, ◌-◌, ℕ, List, true, option_map, MatchOption, IfOk, IfErr};
ghost use Rattle.mas_report_schedule.specs.Reading.{IsSchedule, IsFaultAt, BeginsCounted};
ghost use Rattle.mas_report_schedule.specs.inner.Scanning as spec;

use crate::entry::{ScheduleEntry, spread};
use asl_term::sequence::{Seq, Starved};
use asl_term::syntax::Numbers;
use std::alloc::Global;

/// How many numbers a schedule may have, and one entry.
const MOST_NUMBERS: u64 = 5_000_000;

/// The greatest number of an agent.
const MOST_AGENT: u64 = 65_535;

/// Why bytes are no schedule: the number of the first line that is not as it has to be, if memory did not lack.
#[derive(Clone, Copy, Debug, Drop)]
pub enum LineFault {
    Memory,
    BadLine(u64),
}

impl From<Starved> for LineFault {
    ghost use Rattle.mas_report_schedule.specs.declared.reading.LineFault.TheVariants.{Memory};

    ghost from_gives = { λ _ e. e ≡ Memory };

    fn from(_e: Starved) -> LineFault {
        LineFault::Memory
    }
}

/// A number, and what is behind it.
#[derive(Clone, Copy)]
pub struct Number<'a> {
    pub value: u64,
    pub behind: &'a [u8],
}

/// An entry, and what is behind the byte that ends it.
#[derive(Clone, Copy)]
struct Front<'a> {
    entry: ScheduleEntry,
    behind: &'a [u8],
}

fn is_digit(byte: u8) -> bool
    ensures { result ≡ spec.is_digit byte }
{
    byte >= b'0' && byte <= b'9'
}

/// A number with one digit more.
fn with_digit(most: u64, number: u64, digit: u8) -> Option<u64>
    requires most { most ≤ 5000000 }
    requires number { number ≤ most }
    requires digit { spec.is_digit digit ≡ true }
    ensures { result ≡ spec.with_digit most number digit }
{
    let value = number * 10 + (digit - b'0') as u64;
    if value >= 1 && value <= most {
        Some(value)
    } else {
        None
    }
}

fn ended(value: u64, behind: &[u8]) -> Option<Number<'_>>
    ensures { spec.view_number result ≡ spec.ended value behind.now }
{
    if value == 0 {
        return None;
    }
    Some(Number { value, behind })
}

/// The number from 1 to `most` whose digits are at the front.
fn number_before(most: u64, bytes: &[u8]) -> Option<Number<'_>>
    requires { most ≤ 5000000 }
    ensures { spec.view_number result ≡ spec.number_from most 0 bytes.now }
{
    let mut number = 0;
    let mut rest = bytes;
    'digits: while let Some((byte, behind)) = rest.split_first() {
        if !is_digit(*byte) {
            return ended(number, rest);
        }
        number = with_digit(most, number, *byte)?;
        rest = behind;
    }
    ended(number, rest)
}

/// What is behind this byte at the front.
fn behind_byte(byte: u8, bytes: &[u8]) -> Option<&[u8]>
    ensures { option_map (λ t. t.now) result ≡ spec.behind_byte byte bytes.now }
{
    let (first, behind) = bytes.split_first()?;
    if *first == byte { Some(behind) } else { None }
}

/// The number that a line feed ends.
fn count_before(digits: &[u8]) -> Option<Number<'_>>
    ensures { spec.view_number result ≡ spec.count_from digits.now }
{
    let number = number_before(MOST_NUMBERS, digits)?;
    let behind = behind_byte(b'\n', number.behind)?;
    Some(Number {
        value: number.value,
        behind,
    })
}

/// The first line.
fn count(bytes: &[u8]) -> Option<Number<'_>>
    ensures { MatchOption result ((n : ℕ) (rest : List ℕ) → BeginsCounted bytes.now n rest → ⊥) (λ f. BeginsCounted bytes.now f.value f.behind.now) }
{
    let digits = bytes.strip_prefix(b"schedule ")?;
    count_before(digits)
}

/// How often, at the front of what is behind the number of an agent: once, or as an `x` and a number tell.
fn times_before(bytes: &[u8]) -> Option<Number<'_>>
    ensures { spec.view_number result ≡ spec.times_from bytes.now }
{
    let Some(digits) = behind_byte(b'x', bytes) else {
        return Some(Number {
            value: 1,
            behind: bytes,
        });
    };
    let times = number_before(MOST_NUMBERS, digits)?;
    if times.value == 1 {
        return None;
    }
    Some(times)
}

/// What ends an entry, by how many numbers have to be behind it.
fn stop_of(left: u64) -> u8
    ensures { result ≡ spec.stop_of left }
{
    if left == 0 { b'\n' } else { b' ' }
}

/// The entry at the front of a line of so many numbers.
fn entry_before(left: u64, bytes: &[u8]) -> Option<Front<'_>>
    ensures { spec.view_front result ≡ spec.entry_from left bytes.now }
{
    let agent = number_before(MOST_AGENT, bytes)?;
    let times = times_before(agent.behind)?;
    if left < times.value {
        return None;
    }
    let behind = behind_byte(stop_of(left - times.value), times.behind)?;
    let entry = ScheduleEntry {
        agent: agent.value,
        times: times.value,
    };
    Some(Front { entry, behind })
}

/// The line of entries that stand for so many numbers, which has to be the last.
fn numbers(alloc: Global, count: u64, bytes: &[u8]) -> Result<Numbers, LineFault>
    requires { 0 < count }
    ensures ok { IfOk result (spec.IsLine count bytes.now) }
    ensures err { IfErr result (spec.IsNoLineBy count bytes.now) }
{
    let mut names = Seq::new(alloc);
    let mut rest = bytes;
    let mut left = count;
    'entries: while left > 0 {
        let Some(front) = entry_before(left, rest) else {
            return Err(LineFault::BadLine(2));
        };
        spread(&mut names, front.entry)?;
        left -= front.entry.times;
        rest = front.behind;
    }
    if rest.is_empty() {
        Ok(names)
    } else {
        Err(LineFault::BadLine(3))
    }
}

/// The numbers of a schedule, or the first line that is not as it has to be.
pub fn read_schedule(alloc: Global, bytes: &[u8]) -> Result<Numbers, LineFault>
    ensures ok { IfOk result (IsSchedule bytes.now) }
    ensures err { IfErr result (IsFaultAt bytes.now) }
{
    let Some(line) = count(bytes) else {
        return Err(LineFault::BadLine(1));
    };
    numbers(alloc, line.value, line.behind)
}
