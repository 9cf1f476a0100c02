//! What the rows look at and change.

ghost use Rattle.std.specs.Prelude.{◌≡◌, IfOk, OnOk, option_to_list};
ghost use Rattle.asl_beliefs.specs.Changes as changes;
ghost use Rattle.asl_intend.specs.Agendas as agendas;
ghost use Rattle.asl_exec_circumstance.specs.Circumstance as spec;

use crate::rows::{Fall, Row};
use crate::went::Went;
use asl_beliefs::base::BeliefBase;
use asl_beliefs::removed::Removed;
use asl_beliefs::sources::with_source;
use asl_fail::fail::fail;
use asl_intend::agenda::{Agenda, Error, Event};
use asl_intend::event_trigger::EventTrigger;
use asl_intend::stack::Stack;
use asl_plans::library::Library;
use asl_resolve::actions::Actions;
use asl_resolve::answers::Budgets;
use asl_term::sequence::Starved;
use asl_term::syntax::{Kind, Literal, Trigger, Triggers};
use std::alloc::Global;

/// The plans, which messages alone change, and what no row changes: the internal actions of formulas, and what one search may use.
#[derive(Drop)]
pub struct Surroundings<A> {
    pub lib: Library,
    pub actions: A,
    pub budgets: Budgets,
}

/// What rows change beside the current stack: the beliefs, the agenda, and the counter, the next fresh number.
#[derive(Drop)]
pub struct Circumstance<B> {
    pub beliefs: B,
    pub agenda: Agenda,
    pub number: u64,
}

/// What a goal is the event of.
pub fn goal_trigger(kind: Kind, lit: Literal) -> Trigger
    ensures { result ≡ spec.goal_trigger kind lit }
{
    Trigger {
        add: true,
        kind,
        lit,
    }
}

/// The event of a goal with default source, over the stack that waits for it.
pub fn goal_event(alloc: Global, kind: Kind, g: &Literal, stack: Stack) -> Result<Event, Starved>
    ensures { IfOk result (λ e. e ≡ spec.goal_event kind g.now stack) }
{
    let lit = with_source(alloc, g)?;
    Ok(Event {
        trigger: EventTrigger::of(goal_trigger(kind, lit)),
        stack,
        error: None,
    })
}

/// An external event without an error.
pub fn external_event(alloc: Global, trigger: Trigger) -> Event
    ensures { result ≡ agendas.external_event trigger }
{
    Event {
        trigger: EventTrigger::of(trigger),
        stack: Stack::new(alloc),
        error: None,
    }
}

/// The event of what was removed.
pub fn event_of(removed: Option<Removed>) -> Option<Trigger>
    ensures { option_to_list result ≡ changes.removed_events removed }
{
    match removed {
        None => None,
        Some(r) => {
            let Removed { event, subst: _ } = r;
            Some(event)
        }
    }
}

/// Puts the events of a change last.
pub fn tell(alloc: Global, a: &mut Agenda, events: Triggers) -> Result<(), Starved>
    ensures { OnOk result (a.new ≡ spec.told a.old events) }
{
    for event in events.into_vec() {
        a.post(external_event(alloc, event))?;
    }
    Ok(())
}

/// The same of one event, where there is one.
pub fn tell_one(alloc: Global, a: &mut Agenda, event: Option<Trigger>) -> Result<(), Starved>
    ensures { OnOk result (a.new ≡ spec.told a.old (option_to_list event)) }
{
    match event {
        None => Ok(()),
        Some(trigger) => a.post(external_event(alloc, trigger)),
    }
}

/// The row in which a stack fails.
pub fn fails_as<B: BeliefBase, A: Actions>(
    alloc: Global,
    k: &Surroundings<A>,
    p: &mut Circumstance<B>,
    cur: &mut Stack,
    row: Row,
    error: Error,
) -> Result<Went, Starved>
    ensures made { IfOk result (λ w. spec.failed (spec.seen_around A.solve k.now B.rules p.old) row error (spec.seen B.beliefs p.old) cur.old
        ≡ spec.made (spec.seen B.beliefs p.new) cur.new w) }
    ensures beliefs { p.new.beliefs ≡ p.old.beliefs }
    ensures number { p.new.number ≡ p.old.number }
{
    let fell = fail(alloc, &mut p.agenda, &k.lib, cur, error, p.number)?;
    Ok(Went::Failed {
        row,
        fall: Fall { error, fell },
    })
}
