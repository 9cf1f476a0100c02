//! The first match of a literal with a goal. Where the goal passes the limits of a term neither is built: both are kept.

ghost use Rattle.std.specs.Prelude.{◌≡◌, IfOk};
ghost use Rattle.asl_intend.specs.Entries as entries;
ghost use Rattle.asl_intend.specs.GoalMatches as spec;
ghost use Rattle.asl_intend.specs.Stacks as stacks;

use crate::entry::StackEntry;
use crate::goal::can_name;
use crate::kept::{copy_later, kept_entry};
use asl_term::copying::copy_literal;
use asl_term::sequence::Starved;
use asl_term::syntax::{Kind, Literal, Trigger};
use asl_unify::log::Log;
use asl_unify::matching::first_match;
use asl_unify::subst::{Subst, no_subst};
use std::alloc::Global;
use std::marker::Model;

/// How a match is kept.
#[derive(Drop)]
pub enum MatchForm {
    Put(Subst),
    /// As the literal and an entry that has the goal, without formulas, with what is bound in a log.
    Kept(Literal, StackEntry, Log),
}

/// The first match of a literal with a goal, in contracts as the substitution that it is.
pub struct GoalMatch {
    form: MatchForm,
}

/// By hand, so that a crate above that lets one go proves nothing of its parts.
impl Drop for GoalMatch {
    fn drop(self) {
        let GoalMatch { form: _ } = self;
    }
}

impl Model for GoalMatch {
    ghost use Rattle.std.specs.Prelude.{List};
    ghost use Rattle.asl_unify.specs.declared.subst.Pair.{Pair};
    ghost use Rattle.asl_intend.specs.GoalMatches as spec;
    ghost use Rattle.asl_term.specs.contracts.syntax.Term as term;
    ghost use Rattle.std.specs.Coded.{codes};

    ghost Value = { List Pair };

    ghost coded = { Prim.hlevel (codes, term.the_row.coded) };

    ghost view = { λ m. spec.found m.form };
}

/// The first match of two literals, if there is one.
pub fn first_of(alloc: Global, g: &Literal, l: &Literal) -> Result<Option<Subst>, Starved>
    ensures { IfOk result (λ r. r ≡ spec.first_of g.now l.now) }
{
    let empty = no_subst(alloc);
    let found = first_match(alloc, g, l, &empty);
    drop(empty);
    found
}

/// The first match of the literal with the goal that a trigger `+!h` is about.
pub fn built_match(alloc: Global, g: &Literal, t: &Trigger) -> Result<Option<GoalMatch>, Starved>
    ensures { IfOk result (λ r. r ≡ stacks.goal_match g.now t.now) }
{
    if !t.add {
        return Ok(None);
    }
    match t.kind {
        Kind::Belief => Ok(None),
        Kind::Test => Ok(None),
        Kind::Achieve => match first_of(alloc, g, &t.lit)? {
            None => Ok(None),
            Some(s) => Ok(Some(GoalMatch {
                form: MatchForm::Put(s),
            })),
        },
    }
}

/// The same of the goal of an entry within the limits of a term.
fn small_match(
    alloc: Global,
    e: &StackEntry,
    log: &Log,
    g: &Literal,
) -> Result<Option<GoalMatch>, Starved>
    ensures { IfOk result (λ r. r ≡ stacks.goal_match g.now (entries.seen log.now e.now).trigger) }
{
    let t = e.full_trigger(alloc, log)?;
    let found = built_match(alloc, g, &t);
    drop(t);
    found
}

/// The literal and the goal of an entry, kept.
fn kept_match(alloc: Global, e: &StackEntry, log: &Log, g: &Literal) -> Result<GoalMatch, Starved>
    ensures { IfOk result (λ r. r ≡ spec.first_found g.now (entries.seen log.now e.now).trigger.lit) }
{
    let goal = copy_literal(alloc, g)?;
    let entry = kept_entry(alloc, e)?;
    let copy = copy_later(alloc, log.since(0))?;
    Ok(GoalMatch {
        form: MatchForm::Kept(goal, entry, copy),
    })
}

/// The first match of the literal with the goal of an entry, as it is with what is bound in a log.
pub fn entry_match(
    alloc: Global,
    e: &StackEntry,
    log: &Log,
    g: &Literal,
) -> Result<Option<GoalMatch>, Starved>
    ensures { IfOk result (λ r. r ≡ stacks.goal_match g.now (entries.seen log.now e.now).trigger) }
{
    if !can_name(g, &e.trigger) {
        return Ok(None);
    }
    if e.is_small(log) {
        return small_match(alloc, e, log, g);
    }
    if !e.is_matched(alloc, log, g, &[])? {
        return Ok(None);
    }
    let kept = kept_match(alloc, e, log, g)?;
    Ok(Some(kept))
}

impl GoalMatch {
    /// How it is kept.
    pub fn into_form(self) -> MatchForm
        ensures { spec.found result ≡ self }
    {
        let GoalMatch { form } = self;
        form
    }
}
