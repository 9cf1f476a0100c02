//! What substitutions leave as it is, since nothing that they bind stands in it.

ghost use Rattle.std.specs.Prelude.{◌≡◌, ◌∷◌, map, true, None, IfOk};
ghost use Rattle.std.specs.List.{AllByRecursion};
ghost use Rattle.asl_unify.specs.Applied.{put_formula, put_trigger};
ghost use Rattle.asl_unify.specs.Logs.{later};
ghost use Rattle.asl_unify.specs.Puts.{IsSubst};
ghost use Rattle.asl_unify.specs.Turns.{value_in};
ghost use Rattle.asl_intend.specs.Untouched as spec;

use crate::entry::{First, StackEntry};
use crate::occurring::{in_later, in_pairs};
use asl_term::compare_expr::{equal_formula, equal_trigger};
use asl_term::sequence::Starved;
use asl_term::syntax::{Formula, Trigger};
use asl_term_queue::queue::Queue;
use asl_unify::apply::apply_formula;
use asl_unify::limits::{TermFault, apply_literal};
use asl_unify::log::Later;
use asl_unify::subst::{Pair, Subst};
use std::alloc::Global;

/// Whether a variable that some pairs bind stands in substitutions.
fn stands_bound(s: &[Pair], own: &[Pair], rest: Later<'_>) -> bool
    ensures { result ≡ spec.stands_bound (own.now ∷ later rest.entry) s.now }
{
    for p in s {
        if in_pairs(&p.var, own) || in_later(&p.var, rest) {
            return true;
        }
    }
    false
}

/// The same of substitutions one after another.
fn later_stands(levels: Later<'_>, own: &[Pair], rest: Later<'_>) -> bool
    ensures { result ≡ spec.some_stands (own.now ∷ later rest.entry) (later levels.entry) }
{
    let mut left = levels;
    while let Some((next, more)) = left.split_first() {
        if stands_bound(next.pairs(), own, rest) {
            return true;
        }
        left = more;
    }
    false
}

fn some_stands(first: &[Pair], levels: Later<'_>, own: &[Pair], rest: Later<'_>) -> bool
    ensures { result ≡ spec.some_stands (own.now ∷ later rest.entry) (first.now ∷ later levels.entry) }
{
    stands_bound(first, own, rest) || later_stands(levels, own, rest)
}

/// Whether nothing that some substitutions bind stands in the others, and nothing that these bind in them.
pub fn are_disjoint(first: &[Pair], levels: Later<'_>, own: &[Pair], rest: Later<'_>) -> bool
    ensures { result ≡ spec.are_disjoint (first.now ∷ later levels.entry) (own.now ∷ later rest.entry) }
{
    !(some_stands(first, levels, own, rest) || some_stands(own, rest, first, levels))
}

/// Whether the substitutions leave a trigger as it is.
pub fn leaves_trigger(
    alloc: Global,
    t: &Trigger,
    s: &Subst,
    rest: Later<'_>,
) -> Result<bool, Starved>
    requires { IsSubst s.now }
    ensures { IfOk result (λ r. r ≡ true → put_trigger (value_in s.now (later rest.entry)) t.now ≡ t.now) }
{
    match apply_literal(alloc, &t.lit, s, rest) {
        Ok(lit) => {
            let made = Trigger {
                add: t.add,
                kind: t.kind,
                lit,
            };
            let same = equal_trigger(&made, t);
            drop(made);
            Ok(same)
        }
        Err(TermFault::TermLimit) => Ok(false),
        Err(TermFault::Memory) => Err(Starved),
    }
}

/// The same of a formula.
fn leaves_formula(alloc: Global, f: &Formula, s: &Subst, rest: Later<'_>) -> Result<bool, Starved>
    requires { IsSubst s.now }
    ensures { IfOk result (λ r. r ≡ true → put_formula (value_in s.now (later rest.entry)) f.now ≡ f.now) }
{
    match apply_formula(alloc, f, s, rest) {
        Ok(made) => {
            let same = equal_formula(&made, f);
            drop(made);
            Ok(same)
        }
        Err(TermFault::TermLimit) => Ok(false),
        Err(TermFault::Memory) => Err(Starved),
    }
}

pub fn leaves_formulas(
    alloc: Global,
    fs: &[Formula],
    s: &Subst,
    rest: Later<'_>,
) -> Result<bool, Starved>
    requires { IsSubst s.now }
    ensures { IfOk result (λ r. r ≡ true → map (put_formula (value_in s.now (later rest.entry))) fs.now ≡ fs.now) }
{
    let mut left = fs;
    while let Some((f, more)) = left.split_first() {
        if !leaves_formula(alloc, f, s, rest)? {
            return Ok(false);
        }
        left = more;
    }
    Ok(true)
}

/// The same of a formula that was put in the place of another.
fn leaves_first(
    alloc: Global,
    first: &Option<First>,
    s: &Subst,
    rest: Later<'_>,
) -> Result<bool, Starved>
    requires { IsSubst s.now }
    ensures { IfOk result (λ r. r ≡ true → map (put_formula (value_in s.now (later rest.entry))) (spec.pushed_first first.now) ≡ spec.pushed_first first.now) }
{
    match first {
        None => Ok(true),
        Some(f) => leaves_formula(alloc, &f.formula, s, rest),
    }
}

fn leaves_body(
    alloc: Global,
    body: &Queue<Formula>,
    s: &Subst,
    rest: Later<'_>,
) -> Result<bool, Starved>
    requires { IsSubst s.now }
    ensures { IfOk result (λ r. r ≡ true → map (put_formula (value_in s.now (later rest.entry))) body.now ≡ body.now) }
{
    let (front, back) = body.parts();
    if !leaves_formulas(alloc, front, s, rest)? {
        return Ok(false);
    }
    leaves_formulas(alloc, back, s, rest)
}

/// Whether nothing that the substitutions bind stands in an entry as it is kept, or is bound in it.
fn leaves_entry(alloc: Global, e: &StackEntry, s: &Subst, rest: Later<'_>) -> Result<bool, Starved>
    requires { IsSubst s.now }
    ensures { IfOk result (λ r. r ≡ true → spec.LeavesEntry s.now (later rest.entry) e.now) }
{
    let none = Later { log: None, from: 0 };
    if !are_disjoint(e.own.pairs(), none, s.pairs(), rest) {
        return Ok(false);
    }
    if !leaves_trigger(alloc, &e.trigger, s, rest)? {
        return Ok(false);
    }
    if !leaves_first(alloc, &e.first, s, rest)? {
        return Ok(false);
    }
    leaves_body(alloc, &e.body, s, rest)
}

/// The same of all entries.
pub fn leaves_entries(
    alloc: Global,
    entries: &[StackEntry],
    s: &Subst,
    rest: Later<'_>,
) -> Result<bool, Starved>
    requires { IsSubst s.now }
    ensures { IfOk result (λ r. r ≡ true → AllByRecursion (spec.LeavesEntry s.now (later rest.entry)) entries.now) }
{
    let mut left = entries;
    while let Some((e, more)) = left.split_first() {
        if !leaves_entry(alloc, e, s, rest)? {
            return Ok(false);
        }
        left = more;
    }
    Ok(true)
}
