//! The lines of a report that tell of messages.

use asl_term::copying::text_of;
use asl_term::names::{Names, find, number};
use asl_term::sequence::{Seq, Starved};
use look_reasons::bytes::line_end;
use look_reasons::mark::between;
use std::alloc::Global;

/// When a message was taken, or why it was not.
#[derive(Clone, Copy)]
pub enum Fate {
    Taken { turn: u64, cycle: u64 },
    Unread,
    /// Its cycle ended by a spent budget.
    Lost,
}

/// A message that was sent, taken or not read, or the end of a cycle by a spent budget, as the agent of a number tells it.
#[derive(Clone, Copy)]
pub struct Letter<'a> {
    pub agent: u64,
    /// The name of the other agent.
    pub other: &'a [u8],
    pub cycle: u64,
    pub verb: &'a [u8],
    pub content: &'a [u8],
    /// The turn in which it was sent or taken, from 1; 0 where there is none. Lines tell which of the agent's own it was.
    pub turn: u64,
    pub fate: Fate,
}

pub type Letters<'a> = Seq<Letter<'a>>;

/// What the lines tell: the names of the agents, what was sent, what came in or waits, and the cycles that spent a budget.
pub struct MailLines<'a> {
    pub names: Names,
    pub sent: Letters<'a>,
    pub came: Letters<'a>,
    pub spent: Letters<'a>,
    /// Whether memory was wanting.
    starved: bool,
}

/// By hand, so that who lets one go proves nothing of its parts.
impl<'a> Drop for MailLines<'a> {
    fn drop(self) {
        let MailLines {
            names: _,
            sent: _,
            came: _,
            spent: _,
            starved: _,
        } = self;
    }
}

/// The most agents whose lines are read.
const MOST_NAMES: u32 = 1_000_000;

/// In which part of the report a line stands.
#[derive(Clone, Copy)]
enum Section {
    Front,
    Agent,
    Ended,
    World,
    Mail,
}

/// The first word, and what is behind its blank.
fn first_word(text: &[u8]) -> (&[u8], &[u8]) {
    let mut at: usize = 0;
    for b in text {
        if *b == b' ' {
            break;
        }
        at = at.saturating_add(1);
    }
    (
        between(text, 0, at),
        between(text, at.saturating_add(1), text.len()),
    )
}

fn is_word(word: &[u8], other: &[u8]) -> bool {
    word == other
}

/// Four words, and what is behind them.
fn words_of(line: &[u8]) -> [&[u8]; 5] {
    let (first, rest) = first_word(line);
    let (second, rest) = first_word(rest);
    let (third, rest) = first_word(rest);
    let (fourth, rest) = first_word(rest);
    [first, second, third, fourth, rest]
}

/// The number that digits write.
fn number_of(digits: &[u8]) -> Option<u64> {
    let mut number: Option<u64> = if digits.is_empty() { None } else { Some(0) };
    for digit in digits {
        number = match number.unwrap_or(u64::MAX).checked_mul(10) {
            Some(tens) if digit.is_ascii_digit() => {
                tens.checked_add(digit.saturating_sub(b'0') as u64)
            }
            _ => None,
        };
    }
    number
}

/// Puts what a line of the trace of the last agent says. An agent takes messages in the first turn of a cycle and sends them in the second.
fn put_trace<'a>(m: &mut MailLines<'a>, line: &'a [u8]) {
    let [first, word, other, verb, content] = words_of(line);
    let Some(cycle) = number_of(first) else {
        return;
    };
    let second = cycle.saturating_mul(2);
    let letter = Letter {
        agent: m.names.len() as u64,
        other,
        cycle,
        verb,
        content,
        turn: second.max(1),
        fate: Fate::Unread,
    };
    let put = if is_word(word, b"sends") {
        m.sent.push(letter)
    } else if is_word(word, b"took") {
        m.came.push(Letter {
            turn: second.saturating_sub(1),
            fate: Fate::Taken { turn: 0, cycle },
            ..letter
        })
    } else if is_word(word, b"spent") {
        m.spent.push(letter)
    } else {
        Ok(())
    };
    m.starved = m.starved || put.is_err();
}

/// The number of the agent of this name; 0 where there is none.
pub fn agent_of(alloc: Global, names: &Names, name: &[u8]) -> Result<u64, Starved> {
    let text = text_of(alloc, name)?;
    match find(names, &text) {
        Some(number) => Ok(number as u64),
        None => Ok(0),
    }
}

/// Puts what a line says of a message that waits.
fn put_waiting<'a>(alloc: Global, m: &mut MailLines<'a>, line: &'a [u8]) {
    let [first, to, third, from, _] = words_of(line);
    if !is_word(first, b"for") || !is_word(third, b"from") {
        return;
    }
    let put = match agent_of(alloc, &m.names, to) {
        Ok(agent) => m.came.push(Letter {
            agent,
            other: from,
            cycle: 0,
            verb: &[],
            content: &[],
            turn: 0,
            fate: Fate::Unread,
        }),
        Err(_) => Err(Starved),
    };
    m.starved = m.starved || put.is_err();
}

/// Puts the name of an agent, where a line has one; whether it has.
fn put_name(alloc: Global, m: &mut MailLines<'_>, line: &[u8]) -> bool {
    let (word, name) = first_word(line);
    if !is_word(word, b"agent") || m.names.len() >= MOST_NAMES {
        return false;
    }
    let put = match text_of(alloc, name) {
        Ok(name) => number(&mut m.names, &name).is_ok(),
        Err(_) => false,
    };
    m.starved = m.starved || !put;
    true
}

/// Puts what a line says, and tells the part in which the next one stands. A line of an agent's trace begins with a number.
fn put_line<'a>(alloc: Global, m: &mut MailLines<'a>, at: Section, line: &'a [u8]) -> Section {
    match at {
        Section::Agent if line.starts_with(b"end ") => Section::Ended,
        Section::Agent => {
            put_trace(m, line);
            at
        }
        Section::Ended if is_word(line, b"world") => Section::World,
        Section::Front | Section::Ended => {
            if put_name(alloc, m, line) {
                Section::Agent
            } else {
                Section::Front
            }
        }
        Section::World if is_word(line, b"mail") => Section::Mail,
        Section::World => at,
        Section::Mail => {
            put_waiting(alloc, m, line);
            at
        }
    }
}

/// The place behind the line that begins here.
fn behind_line(bytes: &[u8], from: usize) -> usize {
    line_end(bytes, from).saturating_add(1)
}

/// What the lines of a report tell of messages. Its first two lines tell of none.
pub fn lines_of<'a>(alloc: Global, bytes: &'a [u8]) -> Result<MailLines<'a>, Starved> {
    let mut m = MailLines {
        names: Names::new(alloc)?,
        sent: Seq::new(alloc),
        came: Seq::new(alloc),
        spent: Seq::new(alloc),
        starved: false,
    };
    let mut at = Section::Front;
    let mut from = behind_line(bytes, behind_line(bytes, 0));
    for _ in 0..bytes.len() {
        if from >= bytes.len() {
            break;
        }
        let end = line_end(bytes, from);
        at = put_line(alloc, &mut m, at, between(bytes, from, end));
        from = end.saturating_add(1);
    }
    if m.starved {
        drop(m);
        return Err(Starved);
    }
    Ok(m)
}
