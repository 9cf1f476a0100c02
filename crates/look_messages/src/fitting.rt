//! When each message was sent and taken: the k-th from one agent to another is the k-th that this one took from that one.

use crate::lines::{Fate, Letter, Letters, MailLines, agent_of};
use asl_term::names::Names;
use asl_term::sequence::{Seq, Starved};
use std::alloc::Global;

/// A number, and the place of what has it.
#[derive(Clone, Copy)]
pub struct Key {
    number: u64,
    pub place: u64,
}

pub struct Keys {
    pub all: Seq<Key>,
    /// Whether memory was wanting.
    pub starved: bool,
}

/// By hand, so that who lets one go proves nothing of its parts.
impl Drop for Keys {
    fn drop(self) {
        let Keys { all: _, starved: _ } = self;
    }
}

impl Keys {
    fn put(&mut self, number: u64, place: u64) {
        if self.all.push(Key { number, place }).is_err() {
            self.starved = true;
        }
    }

    /// By their numbers. Those of one number stay in their order.
    fn in_order(self) -> Keys {
        let Keys { all, starved } = self;
        let mut all = all.into_vec();
        let sorted = all.sort_by_key(|k| k.number).is_ok();
        Keys {
            all: Seq::from_vec(all),
            starved: starved || !sorted,
        }
    }
}

fn no_keys(alloc: Global) -> Keys {
    Keys {
        all: Seq::new(alloc),
        starved: false,
    }
}

fn are_agents(turns: &[u64], agents: u64) -> bool {
    let mut are = true;
    for agent in turns {
        are = are && *agent != 0 && *agent <= agents;
    }
    are
}

/// The turns by their agents.
fn turns_of(alloc: Global, turns: &[u64]) -> Keys {
    let mut keys = no_keys(alloc);
    for agent in turns {
        let place = keys.all.len();
        keys.put(*agent, place);
    }
    keys.in_order()
}

/// How many keys have a smaller number.
fn count_below(keys: &[Key], number: u64) -> usize {
    let mut low: usize = 0;
    let mut high = keys.len();
    for _ in 0..64 {
        let middle = low.saturating_add(high) / 2;
        match keys.get(middle) {
            Some(k) if low < high && k.number < number => low = middle.saturating_add(1),
            _ => high = middle,
        }
    }
    low
}

/// The turn that is this one among the agent's own, from 1; 0 where it has none.
fn turn_at(turns: &[Key], agent: u64, own: u64) -> u64 {
    let Some(k) = own.checked_sub(1) else {
        return 0;
    };
    let at = count_below(turns, agent).saturating_add(k as usize);
    match turns.get(at) {
        Some(t) if t.number == agent => t.place.saturating_add(1),
        _ => 0,
    }
}

fn is_spent(spent: &[Letter<'_>], letter: &Letter<'_>) -> bool {
    let mut is = false;
    for s in spent {
        is = is || (s.agent == letter.agent && s.cycle == letter.cycle);
    }
    is
}

/// A message with its turn among all turns. It is lost where its cycle spent a budget.
fn placed<'a>(spent: &[Letter<'_>], turns: &[Key], letter: &Letter<'a>) -> Letter<'a> {
    let turn = turn_at(turns, letter.agent, letter.turn);
    let fate = match letter.fate {
        Fate::Taken { cycle, .. } => Fate::Taken { turn, cycle },
        _ if is_spent(spent, letter) => Fate::Lost,
        other => other,
    };
    Letter {
        turn,
        fate,
        ..*letter
    }
}

/// A number for the two agents of a message, the one who sends first; 0 where one of them is not there.
fn pair_of(alloc: Global, names: &Names, letter: &Letter<'_>, sent: bool) -> Result<u64, Starved> {
    let other = agent_of(alloc, names, letter.other)?;
    let (from, to) = if sent {
        (letter.agent, other)
    } else {
        (other, letter.agent)
    };
    if from == 0 || to == 0 {
        return Ok(0);
    }
    Ok(from.saturating_mul(4_294_967_296).saturating_add(to))
}

/// The messages that were sent and went out, or those that came in, by their agents. One that was sent in no turn has no agents.
fn keys_of(alloc: Global, names: &Names, letters: &[Letter<'_>], sent: bool) -> Keys {
    let mut keys = no_keys(alloc);
    let mut place: u64 = 0;
    for letter in letters {
        let number = match pair_of(alloc, names, letter, sent) {
            Ok(pair) if !sent || letter.turn > 0 => pair,
            Ok(_) => 0,
            Err(_) => {
                keys.starved = true;
                0
            }
        };
        if number == 0 || !matches!(letter.fate, Fate::Lost) {
            keys.put(number, place);
        }
        place = place.saturating_add(1);
    }
    keys.in_order()
}

/// Whether what came in fits a message that was sent: it waits, or is the same and was taken later.
fn is_fit(row: &Letter<'_>, came: &Letter<'_>) -> bool {
    match came.fate {
        Fate::Taken { turn, .. } => {
            row.verb == came.verb && row.content == came.content && turn > row.turn
        }
        _ => true,
    }
}

/// Tells the message of one key that it came in as that of the other; whether they fit.
fn put_fate(
    passed: Option<&Key>,
    came: Option<&Key>,
    from: &[Letter<'_>],
    turns: &[Key],
    rows: &mut Letters<'_>,
) -> bool {
    let (Some(passed), Some(came)) = (passed, came) else {
        return false;
    };
    if passed.number == 0 || passed.number != came.number || passed.place >= rows.len() {
        return false;
    }
    let Some(letter) = from.get(came.place as usize) else {
        return false;
    };
    let taken = placed(&[], turns, letter);
    let row = rows.at_mut(passed.place);
    let fit = is_fit(row, &taken);
    if fit {
        row.fate = taken.fate;
    }
    fit
}

/// Puts the messages of these lines that were sent, where the agents made these turns. Tells those that came in when they did; whether all
/// fit, and between any two agents as many came in as went out.
pub fn put_sent<'a>(
    alloc: Global,
    m: &MailLines<'a>,
    turns: &[u64],
    rows: &mut Letters<'a>,
) -> Result<bool, Starved> {
    let keys = turns_of(alloc, turns);
    let mut starved = keys.starved;
    for letter in m.sent.as_slice() {
        let row = placed(m.spent.as_slice(), keys.all.as_slice(), letter);
        starved = starved || rows.push(row).is_err();
    }
    let passed = keys_of(alloc, &m.names, rows.as_slice(), true);
    let came = keys_of(alloc, &m.names, m.came.as_slice(), false);
    let mut fit = passed.all.len() == came.all.len();
    for at in 0..passed.all.len() {
        let (p, c) = (passed.all.at(at), came.all.at(at));
        fit = fit && put_fate(p, c, m.came.as_slice(), keys.all.as_slice(), rows);
    }
    fit = fit && are_agents(turns, m.names.len() as u64);
    if starved || passed.starved || came.starved {
        return Err(Starved);
    }
    Ok(fit)
}

/// Messages by their turns. Those of one turn stay in their order.
pub fn by_turns(alloc: Global, rows: &[Letter<'_>]) -> Keys {
    let mut keys = no_keys(alloc);
    for row in rows {
        let place = keys.all.len();
        keys.put(row.turn, place);
    }
    keys.in_order()
}
