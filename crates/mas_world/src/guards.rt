//! The first solution of a guard.

ghost use Rattle.std.specs.Prelude.{◌≡◌, IfOk};
ghost use Rattle.std.specs.List.{flat_map};
ghost use Rattle.std.specs.Option.{option_to_list};
ghost use Rattle.std.specs.Result.{result_ok};
ghost use Rattle.asl_term.specs.declared.syntax.Expr.TheViews.{out-Expr};
ghost use Rattle.asl_unify.specs.Comparing.{holds};
ghost use Rattle.asl_unify.specs.Settling.{settle_literal as settled_literal};
ghost use Rattle.mas_world.specs.Guards as spec;

use asl_term::sequence::Starved;
use asl_term::syntax::{Expr, Literal, Relation};
use asl_unify::comparing::{CompareFault, compare};
use asl_unify::limits::TermFault;
use asl_unify::matching::{first_match, match_literal};
use asl_unify::settle::{ArithFault, settle_literal};
use asl_unify::subst::{Subst, copy_subst};
use asl_unify::tree::Tree;
use std::alloc::Global;

/// The settled literal, where none of its operations fails.
fn settled(alloc: Global, l: &Literal) -> Result<Option<Literal>, Starved>
    ensures { IfOk result (λ r. r ≡ result_ok (settled_literal l.now)) }
{
    match settle_literal(alloc, l) {
        Ok(g) => Ok(Some(g)),
        Err(ArithFault::Memory) => Err(Starved),
        Err(ArithFault::Arith { .. }) => Ok(None),
    }
}

/// The literal with the substitution put into it, and settled.
pub fn ready(alloc: Global, l: &Literal, s: &Subst) -> Result<Option<Literal>, Starved>
    ensures { IfOk result (λ r. r ≡ spec.ready s.now l.now) }
{
    match l.apply(alloc, s) {
        Ok(applied) => {
            let r = settled(alloc, &applied);
            drop(applied);
            r
        }
        Err(TermFault::Memory) => Err(Starved),
        Err(TermFault::TermLimit) => Ok(None),
    }
}

/// Whether no fact matches the literal.
fn none_matches(alloc: Global, facts: &[Literal], g: &Literal, s: &Subst) -> Result<bool, Starved>
    ensures { IfOk result (λ r. spec.if_none (spec.found facts.now s.now g.now) s.now ≡ spec.if_so r s.now) }
{
    for f in facts {
        if let Some(_) = first_match(alloc, g, f, s)? {
            return Ok(false);
        }
    }
    Ok(true)
}

/// Whether `not` before this expression holds.
fn is_refuted(alloc: Global, facts: &[Literal], e: &Expr, s: &Subst) -> Result<bool, Starved>
    ensures { IfOk result (λ r. spec.refuted facts.now s.now (out-Expr e.now) ≡ spec.if_so r s.now) }
{
    match e {
        Expr::Holds(l) => match ready(alloc, l, s)? {
            None => Ok(false),
            Some(g) => {
                let none = none_matches(alloc, facts, &g, s);
                drop(g);
                none
            }
        },
        Expr::True => Ok(false),
        Expr::False => Ok(false),
        Expr::Rel(_) => Ok(false),
        Expr::Inner(_) => Ok(false),
        Expr::Not(_) => Ok(false),
        Expr::And(_, _) => Ok(false),
        Expr::Or(_, _) => Ok(false),
    }
}

/// The substitution under which a relation holds. A side that passes the limits and an operation that fails
/// give none.
fn related(alloc: Global, r: &Relation, s: &Subst) -> Result<Option<Subst>, Starved>
    ensures { IfOk result (λ o. spec.if_holds (holds r.now s.now) ≡ option_to_list o) }
{
    match compare(alloc, r, s) {
        Ok(o) => Ok(o),
        Err(CompareFault::Memory) => Err(Starved),
        Err(CompareFault::TermLimit) => Ok(None),
        Err(CompareFault::Arith { .. }) => Ok(None),
    }
}

/// The first solution of the parts of a guard, from left to right.
#[cycle(first)]
pub fn first(
    alloc: Global,
    facts: &[Literal],
    guard: &[Expr],
    s: &Subst,
) -> Result<Option<Subst>, Starved>
    ensures { IfOk result (λ r. r ≡ spec.first_of (spec.solutions facts.now guard.now s.now)) }
{
    let Some((part, rest)) = guard.split_first() else {
        return Ok(Some(copy_subst(alloc, s)?));
    };
    match part {
        Expr::Holds(l) => match ready(alloc, l, s)? {
            None => Ok(None),
            Some(g) => {
                let found = first_held(alloc, facts, &g, rest, s);
                drop(g);
                found
            }
        },
        Expr::Not(e) => {
            if is_refuted(alloc, facts, e.get(), s)? {
                return first(alloc, facts, rest, s);
            }
            Ok(None)
        }
        Expr::Rel(r) => match related(alloc, r, s)? {
            None => Ok(None),
            Some(t) => {
                let found = first(alloc, facts, rest, &t);
                drop(t);
                found
            }
        },
        Expr::True => Ok(None),
        Expr::False => Ok(None),
        Expr::Inner(_) => Ok(None),
        Expr::And(_, _) => Ok(None),
        Expr::Or(_, _) => Ok(None),
    }
}

/// The same after a literal, which the facts are to match in their order.
#[cycle(first)]
fn first_held(
    alloc: Global,
    facts: &[Literal],
    g: &Literal,
    rest: &[Expr],
    s: &Subst,
) -> Result<Option<Subst>, Starved>
    ensures { IfOk result (λ r. r ≡ spec.first_of (flat_map (spec.solutions facts.now rest.now) (spec.found facts.now s.now g.now))) }
{
    for f in facts {
        let matches = match_literal(alloc, g, f, s)?;
        if let Some(t) = first_after(alloc, facts, rest, matches.as_slice())? {
            return Ok(Some(t));
        }
    }
    Ok(None)
}

/// The same after one of these substitutions, which are tried in their order.
#[cycle(first)]
fn first_after(
    alloc: Global,
    facts: &[Literal],
    rest: &[Expr],
    starts: &[Subst],
) -> Result<Option<Subst>, Starved>
    ensures { IfOk result (λ r. r ≡ spec.first_of (flat_map (spec.solutions facts.now rest.now) starts.now)) }
{
    for s in starts {
        if let Some(t) = first(alloc, facts, rest, s)? {
            return Ok(Some(t));
        }
    }
    Ok(None)
}
