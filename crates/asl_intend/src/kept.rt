//! A trigger that is not built: kept as that of an entry without formulas, with what is bound in a log.

ghost use Rattle.std.specs.Prelude.{◌≡◌, [], None, IfOk};
ghost use Rattle.asl_unify.specs.Logs.{later};

use crate::entry::StackEntry;
use asl_term::copying::copy_trigger;
use asl_term::sequence::Starved;
use asl_term::syntax::Trigger;
use asl_term_queue::queue::Queue;
use asl_unify::log::{Later, Log};
use asl_unify::subst::{Subst, copy_subst};
use std::alloc::Global;

/// The substitutions that are left of a log, as a log of its own.
pub fn copy_later(alloc: Global, rest: Later<'_>) -> Result<Log, Starved>
    ensures { IfOk result (λ r. r ≡ later rest.entry) }
{
    let mut log = Log::new(alloc);
    let mut left = rest;
    while let Some((next, more)) = left.split_first() {
        log.push(copy_subst(alloc, next)?)?;
        left = more;
    }
    Ok(log)
}

/// An entry of a trigger alone.
pub fn trigger_entry(alloc: Global, trigger: Trigger, own: Subst, since: u64) -> StackEntry
    ensures { result ≡ record { trigger = trigger; own = own; since = since; first = None; body = [] } }
{
    StackEntry {
        trigger,
        own,
        since,
        first: None,
        body: Queue::new(alloc),
    }
}

/// An entry of the trigger of another alone.
pub fn kept_entry(alloc: Global, e: &StackEntry) -> Result<StackEntry, Starved>
    ensures { IfOk result (λ r. r ≡ record { trigger = e.now.trigger; own = e.now.own; since = e.now.since; first = None; body = [] }) }
{
    let trigger = copy_trigger(alloc, &e.trigger)?;
    let own = copy_subst(alloc, &e.own)?;
    Ok(trigger_entry(alloc, trigger, own, e.since))
}
