//! Plans of runs that may come to states.

use crate::held::{Acting, Held, Seeing};
use crate::row::{Row, Seat, Stance};
use crate::states::Met;
use asl_term::sequence::{Seq, Starved};
use asl_term::syntax::Numbers;
use mas_explore::listing::Plan;
use mas_explore_minds::heard::{Cycle, Thinking};
use mas_mind::copying::copy_message;
use mas_mind::limits::{MOST_CYCLES, MOST_CYCLES_TOGETHER};
use mas_mind::mind::{Feedback, Messages, Thought};
use std::alloc::Global;

/// What a board holds of an agent: the version that it met at its last Sense, and whether it was quiet then.
#[derive(Clone, Copy, Drop)]
struct Mark {
    met: u64,
    quiet: bool,
}

/// A run as far as it is planned: the version of the board, what it holds of each agent, and the turns.
#[derive(Drop)]
struct Course {
    version: u64,
    marks: Seq<Mark>,
    turns: Numbers,
}

fn open_course(alloc: Global, agents: u32) -> Result<Course, Starved> {
    let mut marks = Seq::new(alloc);
    for _ in 0..agents {
        marks.push(Mark {
            met: 0,
            quiet: false,
        })?;
    }
    Ok(Course {
        version: 0,
        marks,
        turns: Seq::new(alloc),
    })
}

fn set_mark(course: &mut Course, place: u64, mark: Mark) {
    if place < course.marks.len() {
        *course.marks.at_mut(place) = mark;
    }
}

/// The agent at this place makes a turn.
fn turn(course: &mut Course, place: u64) -> Result<(), Starved> {
    course.turns.push(place.saturating_add(1))
}

/// A Sense, and the Emit of outs with nothing in them.
fn whole_cycle(course: &mut Course, place: u64, quiet: bool) -> Result<(), Starved> {
    turn(course, place)?;
    turn(course, place)?;
    let met = course.version;
    set_mark(course, place, Mark { met, quiet });
    Ok(())
}

/// A box with the oldest message of this one.
fn front_of(alloc: Global, held: &Held, mail: u64) -> Result<Messages, Starved> {
    let mut front = Seq::new(alloc);
    if let Some(messages) = held.minds.boxes.at(mail) {
        if let Some(m) = messages.at(0) {
            front.push(copy_message(alloc, m)?)?;
        }
    }
    Ok(front)
}

/// Whether the thought of this number is quiet.
fn is_quiet(held: &Held, thought: u64) -> bool {
    match held.minds.thoughts.at(thought) {
        Some(Thought::Outs(outs)) => outs.quiet,
        _ => false,
    }
}

/// Whether the cycle of an agent from a state was quiet, which is remembered.
fn was_quiet(
    alloc: Global,
    held: &Held,
    row: &Row,
    place: u64,
    seat: Seat,
) -> Result<bool, Starved> {
    let agent = if place < 65_535 { place as u32 + 1 } else { 0 };
    let seeing = Seeing {
        world: row.world,
        agent,
    };
    let front = front_of(alloc, held, seat.mail)?;
    let (Some(sight), Some(front)) = (held.seen.get(&seeing), held.minds.boxes.look(&front)) else {
        return Ok(false);
    };
    let cycle = Cycle {
        mind: seat.mind,
        sight,
        front,
    };
    match held.minds.cycles.get(&cycle) {
        Some(Thinking::Led { mind: _, thought }) => Ok(is_quiet(held, thought)),
        _ => Ok(false),
    }
}

/// Whether the Emit of this thought raises the version: its action was done, or it has messages.
fn is_loud(held: &Held, row: &Row, place: u64, thought: u64) -> bool {
    let Some(Thought::Outs(outs)) = held.minds.thoughts.at(thought) else {
        return false;
    };
    if outs.messages.len() > 0 {
        return true;
    }
    let acting = Acting {
        world: row.world,
        agent: if place < 65_535 { place as u32 + 1 } else { 0 },
        thought,
    };
    match held.acted.get(&acting) {
        Some(acted) => acted.feedback == Feedback::Done,
        None => false,
    }
}

/// The turns of a move of the agent at this place, between two states.
fn plan_move(
    alloc: Global,
    held: &Held,
    course: &mut Course,
    row: &Row,
    next: &Row,
    place: u64,
) -> Result<(), Starved> {
    let (Some(seat), Some(after)) = (row.seats.at(place), next.seats.at(place)) else {
        return Ok(());
    };
    match seat.stance {
        Stance::Idle => match after.stance {
            Stance::Idle => {
                let quiet = was_quiet(alloc, held, row, place, *seat)?;
                whole_cycle(course, place, quiet)
            }
            _ => {
                let met = course.version;
                set_mark(course, place, Mark { met, quiet: false });
                turn(course, place)
            }
        },
        Stance::Busy(thought) => {
            if is_loud(held, row, place, thought) {
                course.version = course.version.saturating_add(1);
            }
            turn(course, place)
        }
        Stance::Spent => turn(course, place),
        Stance::Left(_) => Ok(()),
    }
}

fn is_idle(row: &Row, place: u64) -> bool {
    match row.seats.at(place) {
        Some(seat) => seat.stance == Stance::Idle,
        None => false,
    }
}

/// Whether the board holds of this agent that it is quiet.
fn rests(course: &Course, place: u64) -> bool {
    match course.marks.at(place) {
        Some(mark) => mark.quiet && mark.met == course.version,
        None => false,
    }
}

/// At rest each idle agent that is not known to be quiet makes a quiet cycle; then each leaves.
fn plan_rest(course: &mut Course, row: &Row) -> Result<(), Starved> {
    let agents = row.seats.len();
    for place in 0..agents {
        if is_idle(row, place) && !rests(course, place) {
            whole_cycle(course, place, true)?;
        }
    }
    for place in 0..agents {
        if is_idle(row, place) {
            turn(course, place)?;
        }
    }
    Ok(())
}

/// The states on the way to this one, the last one first, without the opening.
fn way_back(alloc: Global, met: &Met, state: u64) -> Result<Numbers, Starved> {
    let mut way = Seq::new(alloc);
    let mut at = state;
    for _ in 0..state {
        if at == 0 {
            return Ok(way);
        }
        way.push(at)?;
        at = match met.came.at(at) {
            Some(came) => came.from,
            None => 0,
        };
    }
    Ok(way)
}

/// The turns of the move that led to this state.
fn plan_state(alloc: Global, met: &Met, course: &mut Course, state: u64) -> Result<(), Starved> {
    let Some(came) = met.came.at(state) else {
        return Ok(());
    };
    let (Some(row), Some(next)) = (met.rows.at(came.from), met.rows.at(state)) else {
        return Ok(());
    };
    let place = (came.agent as u64).saturating_sub(1);
    plan_move(alloc, &met.held, course, row, next, place)
}

/// What each agent may make of this many turns, and a cycle more, so that none ends at its limit; but no more than a run allows all of them together.
fn cycles_for(turns: u64, agents: u32) -> u64 {
    let wanted = turns.saturating_add(1).min(MOST_CYCLES);
    if agents == 0 {
        return wanted;
    }
    wanted.min(MOST_CYCLES_TOGETHER / agents as u64)
}

/// The plan of a run that may come to a state at rest, under limits that it does not meet, as far as a run allows them.
pub fn plan_to(alloc: Global, met: &Met, agents: u32, state: u64) -> Result<Plan, Starved> {
    let mut course = open_course(alloc, agents)?;
    let mut way = way_back(alloc, met, state)?;
    way.reverse();
    for s in way.as_slice() {
        plan_state(alloc, met, &mut course, *s)?;
    }
    if let Some(row) = met.rows.at(state) {
        plan_rest(&mut course, row)?;
    }
    let Course {
        version: _,
        marks: _,
        turns,
    } = course;
    let cycles = cycles_for(turns.len(), agents);
    Ok(Plan {
        cycles,
        lead: cycles.min(1000),
        schedule: turns,
    })
}
