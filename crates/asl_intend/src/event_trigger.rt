//! The triggers of events. One that passes the limits of a term is not built: what is still to be put into it is kept with it.

ghost use Rattle.std.specs.Prelude.{◌≡◌, [], None, Some, IfOk, IfSome};
ghost use Rattle.asl_unify.specs.Matches.{matches};
ghost use Rattle.asl_intend.specs.Entries as entries;
ghost use Rattle.asl_intend.specs.EventTriggers as spec;
ghost use Rattle.asl_intend.specs.Stacks as stacks;

use crate::entry::{StackEntry, is_buildable};
use crate::goal::{names_goal, some_match};
use crate::goal_match::{GoalMatch, built_match, entry_match};
use crate::kept::{copy_later, kept_entry};
use asl_term::copying::copy_trigger;
use asl_term::sequence::Starved;
use asl_term::syntax::{Kind, Literal, Term, Trigger};
use asl_unify::log::Log;
use std::alloc::Global;
use std::marker::Model;

/// How a trigger is kept.
#[derive(Drop)]
pub enum Form {
    Built(Trigger),
    /// As that of an entry without formulas, with what is bound in a log.
    Kept(StackEntry, Log),
}

/// The trigger of an event, in contracts as it is once all is put into it.
pub struct EventTrigger {
    form: Form,
}

/// By hand, so that a crate above that lets one go proves nothing of its parts.
impl Drop for EventTrigger {
    fn drop(self) {
        let EventTrigger { form: _ } = self;
    }
}

impl Model for EventTrigger {
    ghost use Rattle.asl_term.specs.declared.syntax.Trigger.{Trigger};
    ghost use Rattle.asl_intend.specs.EventTriggers as spec;
    ghost use Rattle.asl_term.specs.contracts.syntax.Term as term;
    ghost use Rattle.std.specs.Coded.{codes};

    ghost Value = { Trigger };

    ghost coded = { Prim.hlevel (codes, term.the_row.coded) };

    ghost view = { λ t. spec.filled t.form };
}

/// The deletion of a trigger, with one more annotation.
fn told(t: Trigger, error: Term) -> Result<Trigger, Starved>
    ensures { IfOk result (λ r. r ≡ spec.told error t) }
{
    let mut told = t;
    told.add = false;
    told.lit.annots.push(error)?;
    Ok(told)
}

/// The same where something is still to be put into it.
fn told_entry(e: StackEntry, error: Term) -> Result<StackEntry, Starved>
    requires { spec.Stays error }
    ensures { IfOk result (λ r. (log : _) → (entries.seen log r).trigger ≡ spec.told error (entries.seen log e).trigger) }
{
    let StackEntry {
        trigger,
        own,
        since,
        first,
        body,
    } = e;
    let trigger = told(trigger, error)?;
    Ok(StackEntry {
        trigger,
        own,
        since,
        first,
        body,
    })
}

impl EventTrigger {
    /// One that is built.
    pub fn of(trigger: Trigger) -> EventTrigger
        ensures { result ≡ trigger }
    {
        EventTrigger {
            form: Form::Built(trigger),
        }
    }

    /// That of an entry, as it is with what is bound in a log. It is built where it is within the limits of a term.
    pub fn of_entry(alloc: Global, e: &StackEntry, log: &Log) -> Result<EventTrigger, Starved>
        ensures { IfOk result (λ r. r ≡ (entries.seen log.now e.now).trigger) }
    {
        if e.is_small(log) {
            let trigger = e.full_trigger(alloc, log)?;
            return Ok(EventTrigger::of(trigger));
        }
        let kept = kept_entry(alloc, e)?;
        let copy = copy_later(alloc, log.since(0))?;
        Ok(EventTrigger {
            form: Form::Kept(kept, copy),
        })
    }

    /// Whether it is an addition.
    pub fn is_addition(&self) -> bool
        ensures { result ≡ self.now.add }
    {
        match &self.form {
            Form::Built(t) => t.add,
            Form::Kept(e, _) => e.trigger.add,
        }
    }

    /// What it is about.
    pub fn kind(&self) -> Kind
        ensures { result ≡ self.now.kind }
    {
        match &self.form {
            Form::Built(t) => t.kind,
            Form::Kept(e, _) => e.trigger.kind,
        }
    }

    /// The trigger, built. One that has more than 1,000,000 nodes or 1,000 levels is not: the answer is that memory is short.
    #[tactic(auto, using(crate::proofs::Buildable::is_small))]
    pub fn full(&self, alloc: Global) -> Result<Trigger, Starved>
        ensures value { IfOk result (λ r. r ≡ self.now) }
        ensures small { IfOk result stacks.IsBuildable }
    {
        match &self.form {
            Form::Built(t) => {
                if is_buildable(t) {
                    copy_trigger(alloc, t)
                } else {
                    Err(Starved)
                }
            }
            Form::Kept(e, log) => e.full_trigger(alloc, log),
        }
    }

    /// The trigger, where it is built.
    pub fn built(&self) -> Option<&Trigger>
        ensures { IfSome result (λ t. t.now ≡ self.now) }
    {
        match &self.form {
            Form::Built(t) => Some(t),
            Form::Kept(_, _) => None,
        }
    }

    /// What is kept of one that is not built, and the log over which that stands.
    pub fn kept(&self) -> Option<(&StackEntry, &Log)>
        ensures { IfSome result (λ r. self.now ≡ (entries.seen r.1.now r.0.now).trigger) }
    {
        match &self.form {
            Form::Built(_) => None,
            Form::Kept(e, log) => Some((e, log)),
        }
    }

    /// A literal of the same sign, functor and number of arguments, where it is not built.
    #[tactic(auto, using(crate::proofs::Told::frame_of))]
    pub fn kept_literal(&self) -> Option<&Literal>
        ensures { IfSome result (λ l. spec.HasFrameOf l.now self.now.lit) }
    {
        match &self.form {
            Form::Built(_) => None,
            Form::Kept(e, _) => Some(&e.trigger.lit),
        }
    }

    /// The same as `full`, of one that is given away.
    #[tactic(auto, using(crate::proofs::Buildable::is_small))]
    pub fn into_full(self, alloc: Global) -> Result<Trigger, Starved>
        ensures value { IfOk result (λ r. r ≡ self) }
        ensures small { IfOk result stacks.IsBuildable }
    {
        let EventTrigger { form } = self;
        match form {
            Form::Built(t) => {
                if is_buildable(&t) {
                    Ok(t)
                } else {
                    drop(t);
                    Err(Starved)
                }
            }
            Form::Kept(e, log) => {
                let full = e.full_trigger(alloc, &log);
                drop(e);
                drop(log);
                full
            }
        }
    }

    /// The deletion of the same, with one more annotation.
    pub fn told(self, error: Term) -> Result<EventTrigger, Starved>
        requires { spec.Stays error }
        ensures { IfOk result (λ r. r ≡ spec.told error self) }
    {
        let EventTrigger { form } = self;
        match form {
            Form::Built(t) => {
                let t = told(t, error)?;
                Ok(EventTrigger::of(t))
            }
            Form::Kept(e, log) => {
                let e = told_entry(e, error)?;
                Ok(EventTrigger {
                    form: Form::Kept(e, log),
                })
            }
        }
    }

    /// Whether a literal matches its literal. It is not built for that, unless a list in it or in what is bound has a tail and no items.
    pub fn is_matched(&self, alloc: Global, g: &Literal) -> Result<bool, Starved>
        ensures { IfOk result (λ r. r ≡ stacks.any_match (matches g.now self.now.lit [])) }
    {
        match &self.form {
            Form::Built(t) => some_match(alloc, g, &t.lit),
            Form::Kept(e, log) => e.is_matched(alloc, log, g, &[]),
        }
    }

    /// Whether the literal matches the goal that it is about, where it is `+!h`.
    pub fn is_named(&self, alloc: Global, g: &Literal) -> Result<bool, Starved>
        ensures { IfOk result (λ r. r ≡ stacks.names_goal g.now self.now) }
    {
        match &self.form {
            Form::Built(t) => names_goal(alloc, g, t),
            Form::Kept(e, log) => e.is_named(alloc, log, g),
        }
    }

    /// The first match of the literal with the goal that it is about, where it is `+!h`.
    pub fn goal_match(&self, alloc: Global, g: &Literal) -> Result<Option<GoalMatch>, Starved>
        ensures { IfOk result (λ r. r ≡ stacks.goal_match g.now self.now) }
    {
        match &self.form {
            Form::Built(t) => built_match(alloc, g, t),
            Form::Kept(e, log) => entry_match(alloc, e, log, g),
        }
    }
}
