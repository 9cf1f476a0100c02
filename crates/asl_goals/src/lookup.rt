//! The first goal that a literal names, for `.intend` and `.desire`.

ghost use Rattle.std.specs.Prelude.{◌≡◌, cond, None, IfOk};
ghost use Rattle.asl_intend.specs.Stacks as stacks;
ghost use Rattle.asl_goals.specs.Goals as spec;

use asl_intend::agenda::{Agenda, Ask, Event, Events, Running};
use asl_intend::goal_match::GoalMatch;
use asl_intend::stack::Stack;
use asl_term::sequence::Starved;
use asl_term::syntax::Literal;
use std::alloc::Global;

/// The first match with a goal of a stack, from its top.
fn stack_match(alloc: Global, g: &Literal, stack: &Stack) -> Result<Option<GoalMatch>, Starved>
    ensures { IfOk result (λ r. r ≡ spec.stack_match g.now stack.now) }
{
    for k in 0..stack.len() {
        let found = stack.goal_match(alloc, k, g)?;
        if found.is_some() {
            return Ok(found);
        }
    }
    Ok(None)
}

/// That of the first stack which has one.
fn stacks_match(alloc: Global, g: &Literal, stacks: &[Stack]) -> Result<Option<GoalMatch>, Starved>
    ensures { IfOk result (λ r. r ≡ spec.first_of (spec.stack_match g.now) stacks.now) }
{
    for stack in stacks {
        let found = stack_match(alloc, g, stack)?;
        if found.is_some() {
            return Ok(found);
        }
    }
    Ok(None)
}

/// That of the first running stack which has one.
fn running_match(
    alloc: Global,
    g: &Literal,
    running: &Running,
) -> Result<Option<GoalMatch>, Starved>
    ensures { IfOk result (λ r. r ≡ spec.first_of (spec.stack_match g.now) running.now) }
{
    let (front, back) = running.parts();
    let found = stacks_match(alloc, g, front)?;
    match found {
        Some(s) => Ok(Some(s)),
        None => stacks_match(alloc, g, back),
    }
}

/// The match with the goal that an event is about.
fn own_match(
    alloc: Global,
    desired: bool,
    g: &Literal,
    e: &Event,
) -> Result<Option<GoalMatch>, Starved>
    ensures { IfOk result (λ r. r ≡ cond desired (stacks.goal_match g.now e.now.trigger) None) }
{
    if desired {
        e.trigger.goal_match(alloc, g)
    } else {
        Ok(None)
    }
}

/// The match with a goal of an event: for a desire with its own, then of its stack.
fn event_match(
    alloc: Global,
    desired: bool,
    g: &Literal,
    e: &Event,
) -> Result<Option<GoalMatch>, Starved>
    ensures { IfOk result (λ r. r ≡ spec.event_match desired g.now e.now) }
{
    let own = own_match(alloc, desired, g, e)?;
    match own {
        Some(s) => Ok(Some(s)),
        None => stack_match(alloc, g, &e.stack),
    }
}

/// That of the first of these events which has one.
fn first_match(
    alloc: Global,
    desired: bool,
    g: &Literal,
    events: &[Event],
) -> Result<Option<GoalMatch>, Starved>
    ensures { IfOk result (λ r. r ≡ spec.first_of (spec.event_match desired g.now) events.now) }
{
    for e in events {
        let found = event_match(alloc, desired, g, e)?;
        if found.is_some() {
            return Ok(found);
        }
    }
    Ok(None)
}

/// That of the first event which has one.
fn events_match(
    alloc: Global,
    desired: bool,
    g: &Literal,
    events: &Events,
) -> Result<Option<GoalMatch>, Starved>
    ensures { IfOk result (λ r. r ≡ spec.first_of (spec.event_match desired g.now) events.now) }
{
    let (front, back) = events.parts();
    let found = first_match(alloc, desired, g, front)?;
    match found {
        Some(s) => Ok(Some(s)),
        None => first_match(alloc, desired, g, back),
    }
}

/// That of the first ask whose stack has one.
fn asks_match(alloc: Global, g: &Literal, asks: &[Ask]) -> Result<Option<GoalMatch>, Starved>
    ensures { IfOk result (λ r. r ≡ spec.first_of (λ q. spec.stack_match g.now q.stack) asks.now) }
{
    for ask in asks {
        let found = stack_match(alloc, g, &ask.stack)?;
        if found.is_some() {
            return Ok(found);
        }
    }
    Ok(None)
}

/// The first match in the stacks of asks, and then in the current one.
fn waiting_match(
    alloc: Global,
    g: &Literal,
    asks: &[Ask],
    cur: &Stack,
) -> Result<Option<GoalMatch>, Starved>
    ensures { IfOk result (λ r. r ≡ spec.or_else (spec.first_of (λ q. spec.stack_match g.now q.stack) asks.now)
        (spec.stack_match g.now cur.now)) }
{
    let found = asks_match(alloc, g, asks)?;
    match found {
        Some(s) => Ok(Some(s)),
        None => stack_match(alloc, g, cur),
    }
}

/// The first match in events, asks and the current stack.
fn later_match(
    alloc: Global,
    desired: bool,
    g: &Literal,
    a: &Agenda,
    cur: &Stack,
) -> Result<Option<GoalMatch>, Starved>
    ensures { IfOk result (λ r. r ≡ spec.or_else (spec.first_of (spec.event_match desired g.now) a.now.events)
        (spec.or_else (spec.first_of (λ q. spec.stack_match g.now q.stack) a.now.asks)
        (spec.stack_match g.now cur.now))) }
{
    let found = events_match(alloc, desired, g, &a.events)?;
    match found {
        Some(s) => Ok(Some(s)),
        None => waiting_match(alloc, g, a.asks.as_slice(), cur),
    }
}

/// The first match in the order of running stacks, events, asks and the current stack. For a desire the goals that events
/// are about count too.
pub fn first_goal(
    alloc: Global,
    desired: bool,
    g: &Literal,
    a: &Agenda,
    cur: &Stack,
) -> Result<Option<GoalMatch>, Starved>
    ensures { IfOk result (λ r. r ≡ spec.first_goal desired g.now a.now cur.now) }
{
    let found = running_match(alloc, g, &a.running)?;
    match found {
        Some(s) => Ok(Some(s)),
        None => later_match(alloc, desired, g, a, cur),
    }
}
