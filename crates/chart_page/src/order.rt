//! In which order the cycles of a report are drawn: by the turns that end them.

use crate::choice::{Choice, Stretch};
use crate::report::{Entry, Report};
use crate::shown::{Piece, PieceKind};
use std::alloc::{AllocError, Global};

/// So many cycles without a line are drawn at most.
const MOST_QUIET: u64 = 2000;

/// A cycle of an agent: the turn that ends it, 0 where there is none, and its pieces, which stand together.
#[derive(Clone, Copy)]
pub struct Cycle {
    pub agent: usize,
    pub number: u64,
    pub turn: u64,
    pub first: usize,
    pub count: usize,
}

/// How far an agent was followed: its first cycle that was not met, and its turns.
#[derive(Clone, Copy)]
struct Followed {
    next: usize,
    turns: u64,
}

/// How far the turns were followed: of each agent, the turns in all, and how many cycles without a line may still be drawn.
#[derive(Drop)]
struct Sweep {
    agents: Vec<Followed>,
    all: u64,
    quiet: u64,
    stretch: Stretch,
    cycles: Vec<Cycle>,
}

/// The cycles that have pieces, in the order of these.
fn with_pieces(alloc: Global, pieces: &[Piece<'_>]) -> Result<Vec<Cycle>, AllocError> {
    let mut cycles: Vec<Cycle> = Vec::new(alloc);
    for (index, piece) in pieces.iter().enumerate() {
        if let PieceKind::Line = piece.kind {
            match cycles.last_mut() {
                Some(last) if last.agent == piece.agent && last.number == piece.cycle => {
                    last.count = last.count.saturating_add(1);
                }
                _ => cycles.push(Cycle {
                    agent: piece.agent,
                    number: piece.cycle,
                    turn: 0,
                    first: index,
                    count: 1,
                })?,
            }
        }
    }
    Ok(cycles)
}

fn at_turn(cycle: Cycle, turn: u64) -> Cycle {
    Cycle {
        agent: cycle.agent,
        number: cycle.number,
        turn,
        first: cycle.first,
        count: cycle.count,
    }
}

/// Of each agent where its cycles begin, and no turns.
fn first_of_each(
    alloc: Global,
    agents: usize,
    cycles: &[Cycle],
) -> Result<Vec<Followed>, AllocError> {
    let mut first = Vec::new(alloc);
    let mut at: usize = 0;
    for agent in 0..agents {
        first.push(Followed { next: at, turns: 0 })?;
        for cycle in cycles.get(at..).unwrap_or(&[]) {
            if cycle.agent != agent {
                break;
            }
            at = at.saturating_add(1);
        }
    }
    Ok(first)
}

fn followed_of(sweep: &Sweep, agent: usize) -> Followed {
    match sweep.agents.get(agent) {
        Some(followed) => *followed,
        None => Followed { next: 0, turns: 0 },
    }
}

/// An agent whose turns are followed: how many it had made before them.
#[derive(Clone, Copy)]
struct Made {
    agent: usize,
    turns: u64,
}

/// The number among all turns of the turn that ends a cycle, where it is one of those that are followed.
fn turn_of(sweep: &Sweep, made: Made, number: u64) -> u64 {
    let own = number.saturating_mul(2).saturating_sub(made.turns);
    sweep.all.saturating_add(own)
}

/// The cycles of an agent from one number to another, which have no line; those that the stretch has, as long as there is room for them.
fn put_quiet(sweep: &mut Sweep, made: Made, first: u64, last: u64) -> Result<(), AllocError> {
    let skipped = sweep.stretch.from.saturating_sub(sweep.all);
    let begin = skipped.saturating_add(made.turns).saturating_add(1) / 2;
    let begin = if skipped > 0 { begin.max(first) } else { first };
    let end = last.min(begin.saturating_add(sweep.quiet));
    for number in begin..end.saturating_add(1) {
        let turn = turn_of(sweep, made, number);
        if turn <= sweep.stretch.to && sweep.quiet > 0 {
            sweep.quiet = sweep.quiet.saturating_sub(1);
            sweep.cycles.push(Cycle {
                agent: made.agent,
                number,
                turn,
                first: 0,
                count: 0,
            })?;
        }
    }
    Ok(())
}

/// Takes the cycles of an agent that end in its turns, up to the one of this number, and those without a line between them; how many it took of these.
fn put_ended(
    sweep: &mut Sweep,
    made: Made,
    cycles: &[Cycle],
    last: u64,
) -> Result<usize, AllocError> {
    let mut number = (made.turns / 2).saturating_add(1);
    let mut count: usize = 0;
    for cycle in cycles {
        if cycle.agent != made.agent || cycle.number > last {
            break;
        }
        put_quiet(sweep, made, number, cycle.number.saturating_sub(1))?;
        let turn = turn_of(sweep, made, cycle.number);
        sweep.cycles.push(at_turn(*cycle, turn))?;
        number = cycle.number.saturating_add(1);
        count = count.saturating_add(1);
    }
    put_quiet(sweep, made, number, last)?;
    Ok(count)
}

/// Takes the cycles that end in the turns of an entry.
fn put_entry(sweep: &mut Sweep, found: &[Cycle], entry: &Entry) -> Result<(), AllocError> {
    let Followed { next, turns } = followed_of(sweep, entry.agent);
    let made = Made {
        agent: entry.agent,
        turns,
    };
    let end = turns.saturating_add(entry.times);
    let count = put_ended(sweep, made, found.get(next..).unwrap_or(&[]), end / 2)?;
    sweep.all = sweep.all.saturating_add(entry.times);
    if let Some(kept) = sweep.agents.get_mut(entry.agent) {
        *kept = Followed {
            next: next.saturating_add(count),
            turns: end,
        };
    }
    Ok(())
}

/// The cycles that no turn ends.
fn put_rest(sweep: &mut Sweep, found: &[Cycle]) -> Result<(), AllocError> {
    for (index, cycle) in found.iter().enumerate() {
        if index >= followed_of(sweep, cycle.agent).next {
            sweep.cycles.push(*cycle)?;
        }
    }
    Ok(())
}

/// Takes all cycles that were found, in the order of the entries that end them.
fn put_all(sweep: &mut Sweep, found: &[Cycle], entries: &[Entry]) -> Result<(), AllocError> {
    for entry in entries {
        put_entry(sweep, found, entry)?;
    }
    put_rest(sweep, found)
}

/// The cycles that have pieces, and where all are asked for those without, by the turns that end them; last those that no turn ends.
pub fn in_order(
    alloc: Global,
    choice: Choice<'_>,
    report: &Report<'_>,
    pieces: &[Piece<'_>],
) -> Result<Vec<Cycle>, AllocError> {
    let found = with_pieces(alloc, pieces)?;
    let mut sweep = Sweep {
        agents: first_of_each(alloc, report.names.len(), found.as_slice())?,
        all: 0,
        quiet: if choice.is_all { MOST_QUIET } else { 0 },
        stretch: choice.turns.unwrap_or(Stretch {
            from: 1,
            to: u64::MAX,
        }),
        cycles: Vec::new(alloc),
    };
    put_all(&mut sweep, found.as_slice(), report.entries.as_slice())?;
    let Sweep { cycles, .. } = sweep;
    Ok(cycles)
}
