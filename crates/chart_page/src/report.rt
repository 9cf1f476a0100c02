//! What is read of a report besides its lines.

use crate::lines::{LineKind, kind_of};
use crate::numbers::{cut_at, last_word, number};
use std::alloc::{AllocError, Global};

/// An agent, from 0, that makes so many turns, one after the other.
#[derive(Clone, Copy)]
pub struct Entry {
    pub agent: usize,
    pub times: u64,
}

#[derive(Drop)]
pub struct Report<'a> {
    /// The names of the agents.
    pub names: Vec<&'a [u8]>,
    /// How many turns there were.
    pub count: Option<u64>,
    pub entries: Vec<Entry>,
}

/// The agent and the number of turns of an entry, as `2` or `2x16`; None where it is none of so many agents.
fn entry_of(agents: usize, text: &[u8]) -> Option<Entry> {
    let (agent, times) = cut_at(b'x', text);
    let agent = number(agent)? as usize;
    if agent < 1 || agent > agents {
        return None;
    }
    let agent = agent - 1;
    if times.is_empty() {
        return Some(Entry { agent, times: 1 });
    }
    let times = number(times)?;
    Some(Entry { agent, times })
}

/// Whether the line has as many turns as were counted, each of an agent.
fn put_turns(report: &mut Report<'_>, line: &[u8], count: u64) -> Result<bool, AllocError> {
    let mut sum: u64 = 0;
    for text in line.split(|b| *b == b' ') {
        let Some(entry) = entry_of(report.names.len(), text) else {
            return Ok(false);
        };
        sum = sum.saturating_add(entry.times);
        report.entries.push(entry)?;
    }
    Ok(sum == count)
}

/// The cycle of a line of a trace.
pub fn cycle_of(line: &[u8]) -> Option<u64> {
    let (digits, _) = cut_at(b' ', line);
    number(digits)
}

/// Whether the numbers of a line are such; what it says is then kept.
fn put_line<'a>(report: &mut Report<'a>, line: &'a [u8]) -> Result<bool, AllocError> {
    let (_, behind) = cut_at(b' ', line);
    match kind_of(line) {
        LineKind::AgentSection => report.names.push(behind)?,
        LineKind::Numbered => {
            return match report.count {
                None => Ok(cycle_of(line).is_some()),
                Some(count) => put_turns(report, line, count),
            };
        }
        LineKind::End => return Ok(number(last_word(behind)).is_some()),
        LineKind::Count => {
            report.count = number(behind);
            return Ok(report.count.is_some());
        }
        _ => {}
    }
    Ok(true)
}

/// A report from lines that have its form, or the number of the first of them with a number that is none.
pub fn read<'a>(alloc: Global, lines: &[&'a [u8]]) -> Result<Result<Report<'a>, u64>, AllocError> {
    let mut report = Report {
        names: Vec::new(alloc),
        count: None,
        entries: Vec::new(alloc),
    };
    let mut at: u64 = 0;
    for line in lines {
        at = at.saturating_add(1);
        if !put_line(&mut report, line)? {
            return Ok(Err(at));
        }
    }
    Ok(Ok(report))
}
