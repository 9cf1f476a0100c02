//! Events and stacks of an agent.

ghost use Rattle.std.specs.Prelude.{◌≡◌, true, IfOk};

use crate::lists::{Same, same_all, same_queue};
use asl_intend::agenda::{Acting, Agenda, Ask, Error, Event};
use asl_intend::event_trigger::EventTrigger;
use asl_term::compare::equal;
use asl_term::compare_expr::{equal_literal, equal_trigger};
use asl_term::sequence::Starved;
use std::alloc::Global;

fn same_error(a: Option<Error>, b: Option<Error>) -> bool
    ensures { result ≡ true → a ≡ b }
{
    match (a, b) {
        (None, None) => true,
        (Some(x), Some(y)) => x == y,
        _ => false,
    }
}

/// Whether the triggers of events are the same. Of one that passes the limits of a term it is not said.
fn same_trigger(a: &EventTrigger, b: &EventTrigger) -> bool
    ensures { result ≡ true → a.now ≡ b.now }
{
    match (a.built(), b.built()) {
        (Some(x), Some(y)) => equal_trigger(x, y),
        _ => false,
    }
}

impl Same for Event {
    fn same(&self, alloc: Global, other: &Event) -> Result<bool, Starved> {
        if !same_trigger(&self.trigger, &other.trigger) || !same_error(self.error, other.error) {
            return Ok(false);
        }
        let same = self.stack.same(alloc, &other.stack)?;
        Ok(same)
    }
}

impl Same for Ask {
    fn same(&self, alloc: Global, other: &Ask) -> Result<bool, Starved> {
        if self.number != other.number || !equal(&self.answer, &other.answer) {
            return Ok(false);
        }
        let same = self.stack.same(alloc, &other.stack)?;
        Ok(same)
    }
}

impl Same for Acting {
    fn same(&self, alloc: Global, other: &Acting) -> Result<bool, Starved> {
        if !equal_literal(&self.action, &other.action) {
            return Ok(false);
        }
        let same = self.stack.same(alloc, &other.stack)?;
        Ok(same)
    }
}

/// Whether the stacks that wait for their actions are the same.
fn same_acting(alloc: Global, a: &Option<Acting>, b: &Option<Acting>) -> Result<bool, Starved>
    ensures { IfOk result (λ r. r ≡ true → a.now ≡ b.now) }
{
    match (a, b) {
        (None, None) => Ok(true),
        (Some(x), Some(y)) => {
            let same = x.same(alloc, y)?;
            Ok(same)
        }
        _ => Ok(false),
    }
}

impl Same for Agenda {
    fn same(&self, alloc: Global, other: &Agenda) -> Result<bool, Starved> {
        let acting = same_acting(alloc, &self.acting, &other.acting)?;
        if !acting {
            return Ok(false);
        }
        let events = same_queue(alloc, &self.events, &other.events)?;
        if !events {
            return Ok(false);
        }
        let running = same_queue(alloc, &self.running, &other.running)?;
        if !running {
            return Ok(false);
        }
        let same = same_all(alloc, self.asks.as_slice(), other.asks.as_slice())?;
        Ok(same)
    }
}
