//! Means for an event whose trigger is not built, where the arguments of their own trigger are variables that stand nowhere else:
//! what these are bound to is put into the means as it is kept, and not as it is once all is put into it.

ghost use Rattle.std.specs.Prelude.{◌≡◌, ◌∷◌, [], List, map, true, None, IfOk, IfSome};
ghost use Rattle.asl_unify.specs.declared.subst.Pair.{Pair as OnePair};
ghost use Rattle.asl_unify.specs.Applied.{put_formula, put_trigger as filled_trigger};
ghost use Rattle.asl_unify.specs.Compare.{var_of};
ghost use Rattle.asl_unify.specs.Logs.{later};
ghost use Rattle.asl_unify.specs.Matches.{matches};
ghost use Rattle.asl_unify.specs.Puts.{IsSubst};
ghost use Rattle.asl_unify.specs.Turns.{value_in};
ghost use Rattle.asl_intend.specs.Apart as spec;
ghost use Rattle.asl_intend.specs.Means.{put_means, applied_means};

use crate::entry::{Means, StackEntry};
use crate::occurring::{in_later, in_pairs, stands};
use crate::untouched::{leaves_formulas, leaves_trigger};
use asl_term::sequence::{Seq, Starved};
use asl_term::syntax::{Formula, Formulas, Literal, Term, Trigger};
use asl_term_queue::queue::Queue;
use asl_unify::apply::apply_formula;
use asl_unify::layers::same_frames;
use asl_unify::limits::{TermFault, apply_literal};
use asl_unify::log::{Later, Log};
use asl_unify::lookups::variable;
use asl_unify::matching::first_match;
use asl_unify::solve::View;
use asl_unify::subst::{Pair, Subst, copy_subst, no_subst};
use std::alloc::Global;

/// Whether a term is a variable that stands in none of these.
fn is_apart(x: &Term, xs: &[Term], us: &[Term], own: &[Pair], rest: Later<'_>) -> bool
    ensures { result ≡ spec.is_apart us.now (own.now ∷ later rest.entry) xs.now (var_of x.now) }
{
    match variable(View::Whole(x)) {
        None => false,
        Some(v) => !(stands(v, xs) || stands(v, us) || in_pairs(v, own) || in_later(v, rest)),
    }
}

fn are_apart(xs: &[Term], us: &[Term], own: &[Pair], rest: Later<'_>) -> bool
    ensures { result ≡ spec.are_apart us.now (own.now ∷ later rest.entry) xs.now }
{
    let mut left = xs;
    while let Some((x, more)) = left.split_first() {
        if !is_apart(x, more, us, own, rest) {
            return false;
        }
        left = more;
    }
    true
}

fn is_bare(ts: &[Term]) -> bool
    ensures { result ≡ spec.is_bare ts.now }
{
    match ts {
        [] => true,
        [_, ..] => false,
    }
}

/// Whether the arguments of a literal are variables that stand nowhere else, and it has the frame of another one.
pub fn stands_apart(g: &Literal, l: &Literal, own: &[Pair], rest: Later<'_>) -> bool
    ensures { result ≡ spec.stands_apart g.now l.now (own.now ∷ later rest.entry) }
{
    same_frames(g, l)
        && is_bare(g.annots.as_slice())
        && are_apart(g.args.as_slice(), l.args.as_slice(), own, rest)
}

/// The substitutions put into formulas. None where one passes the limits.
fn put_body(
    alloc: Global,
    body: &[Formula],
    s: &Subst,
    rest: Later<'_>,
) -> Result<Option<Formulas>, Starved>
    requires { IsSubst s.now }
    ensures { IfOk result (λ r. IfSome r (λ fs. fs ≡ map (put_formula (value_in s.now (later rest.entry))) body.now)) }
{
    let mut r = Seq::new(alloc);
    for f in body {
        match apply_formula(alloc, f, s, rest) {
            Ok(made) => r.push(made)?,
            Err(TermFault::TermLimit) => return Ok(None),
            Err(TermFault::Memory) => return Err(Starved),
        }
    }
    Ok(Some(r))
}

fn put_trigger(
    alloc: Global,
    t: &Trigger,
    s: &Subst,
    rest: Later<'_>,
) -> Result<Option<Trigger>, Starved>
    requires { IsSubst s.now }
    ensures { IfOk result (λ r. IfSome r (λ made. made ≡ filled_trigger (value_in s.now (later rest.entry)) t.now)) }
{
    match apply_literal(alloc, &t.lit, s, rest) {
        Ok(lit) => Ok(Some(Trigger {
            add: t.add,
            kind: t.kind,
            lit,
        })),
        Err(TermFault::TermLimit) => Ok(None),
        Err(TermFault::Memory) => Err(Starved),
    }
}

/// The substitutions put into means. None where a part of them passes the limits.
fn put_in(alloc: Global, m: &Means, s: &Subst, rest: Later<'_>) -> Result<Option<Means>, Starved>
    requires { IsSubst s.now }
    ensures { IfOk result (λ r. IfSome r (λ made. made ≡ put_means (value_in s.now (later rest.entry)) m.now)) }
{
    let Some(trigger) = put_trigger(alloc, &m.trigger, s, rest)? else {
        return Ok(None);
    };
    match put_body(alloc, m.body.as_slice(), s, rest)? {
        Some(body) => Ok(Some(Means { trigger, body })),
        None => Ok(None),
    }
}

/// Whether the substitutions leave means as they are.
fn leaves(alloc: Global, m: &Means, s: &Subst, rest: Later<'_>) -> Result<bool, Starved>
    requires { IsSubst s.now }
    ensures { IfOk result (λ r. r ≡ true → put_means (value_in s.now (later rest.entry)) m.now ≡ m.now) }
{
    if !leaves_trigger(alloc, &m.trigger, s, rest)? {
        return Ok(false);
    }
    leaves_formulas(alloc, m.body.as_slice(), s, rest)
}

/// The means with what the variables of their trigger are bound to, as it is kept.
fn with_kept(alloc: Global, m: &Means, l: &Literal) -> Result<Option<Means>, Starved>
    ensures { IfOk result (λ r. (s : List OnePair) → matches m.now.trigger.lit l.now [] ≡ s ∷ [] → IfSome r (λ made. made ≡ applied_means s m.now)) }
{
    let empty = no_subst(alloc);
    let found = first_match(alloc, &m.trigger.lit, l, &empty);
    drop(empty);
    match found? {
        None => Ok(None),
        Some(s) => {
            s.pairs();
            let none = Later { log: None, from: 0 };
            let made = put_in(alloc, m, &s, none);
            drop(s);
            made
        }
    }
}

/// Whether the arguments of means stand apart, and what is still to be put into a trigger leaves the means as they are.
fn stays_apart(alloc: Global, m: &Means, e: &StackEntry, rest: Later<'_>) -> Result<bool, Starved>
    ensures { IfOk result (λ r. r ≡ true → spec.StaysApart m.now e.now (later rest.entry)) }
{
    e.own.pairs();
    if !stands_apart(&m.trigger.lit, &e.trigger.lit, e.own.pairs(), rest) {
        return Ok(false);
    }
    leaves(alloc, m, &e.own, rest)
}

/// An entry of means with a substitution.
fn entry_of(alloc: Global, m: Means, own: &Subst, since: u64) -> Result<StackEntry, Starved>
    ensures { IfOk result (λ r. r ≡ record { trigger = m.trigger; own = own.now; since = since; first = None; body = m.body }) }
{
    let Means { trigger, body } = m;
    let own = copy_subst(alloc, own)?;
    Ok(StackEntry {
        trigger,
        own,
        since,
        first: None,
        body: Queue::from_seq(body),
    })
}

/// The entry of means for an event whose trigger is kept in an entry, where it can be made so, over the same log.
pub fn entry_under(
    alloc: Global,
    m: &Means,
    e: &StackEntry,
    log: &Log,
) -> Result<Option<StackEntry>, Starved>
    ensures { IfOk result (λ r. IfSome r (spec.IsUnder m.now e.now log.now)) }
{
    let apart = stays_apart(alloc, m, e, log.since(e.since))?;
    if !apart {
        return Ok(None);
    }
    let found = with_kept(alloc, m, &e.trigger.lit)?;
    match found {
        None => Ok(None),
        Some(made) => {
            let entry = entry_of(alloc, made, &e.own, e.since)?;
            Ok(Some(entry))
        }
    }
}
