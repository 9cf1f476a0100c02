//! The row for a stack whose top is done.

ghost use Rattle.std.specs.Prelude.{◌≡◌, IfOk, OnOk};
ghost use Rattle.asl_intend.specs.Stacks as stacks;
ghost use Rattle.asl_exec_circumstance.specs.Emptied as rows;
ghost use Rattle.asl_exec_circumstance.specs.Circumstance as spec;

use crate::parts::{Circumstance, Surroundings, fails_as};
use crate::rows::Row;
use crate::went::Went;
use asl_beliefs::base::BeliefBase;
use asl_intend::agenda::Error;
use asl_intend::stack::Stack;
use asl_resolve::actions::Actions;
use asl_term::sequence::Starved;
use asl_term::syntax::{Formula, Literal};
use asl_unify::layers::same_frames;
use asl_unify::limits::TermFault;
use asl_unify::matching::attempt;
use asl_unify::solve::Work;
use asl_unify::subst::{Subst, no_subst};
use std::alloc::Global;

/// What unifies two literals without annotations.
fn unifier(alloc: Global, l: &Literal, m: &Literal) -> Result<Option<Subst>, Starved>
    ensures { IfOk result (λ r. r ≡ rows.unifier l.now m.now) }
{
    if !same_frames(l, m) {
        return Ok(None);
    }
    let work = Work::Args(l.args.as_slice(), m.args.as_slice());
    attempt(alloc, work, &no_subst(alloc))
}

/// What unifies a trigger's literal with the goal that stands below.
fn answer(alloc: Global, l: &Literal, below: &Option<Formula>) -> Result<Option<Subst>, Starved>
    ensures { IfOk result (λ r. r ≡ rows.answer l.now below.now) }
{
    match below {
        Some(Formula::Achieve(g)) => unifier(alloc, l, g),
        Some(Formula::Test(g)) => unifier(alloc, l, g),
        _ => Ok(None),
    }
}

/// Applies a unifier, where there is one.
fn bind_by(cur: &mut Stack, s: &Option<Subst>) -> Result<(), Starved>
    ensures { OnOk result (cur.new ≡ rows.bound_by s.now cur.old) }
{
    match s {
        None => Ok(()),
        Some(s) => cur.bind(s),
    }
}

/// ClrInt2: the goal that stands on top is done.
fn done_below<B: BeliefBase>(
    alloc: Global,
    p: &mut Circumstance<B>,
    cur: &mut Stack,
    l: &Literal,
    head: &Option<Formula>,
) -> Result<Went, Starved>
    requires { head.now ≡ stacks.head cur.old }
    ensures made { IfOk result (λ w. rows.done_below (spec.seen B.beliefs p.old) l.now cur.old ≡ spec.made (spec.seen B.beliefs p.new) cur.new w) }
    ensures beliefs { p.new.beliefs ≡ p.old.beliefs }
    ensures number { p.new.number ≡ p.old.number }
{
    let unifier = answer(alloc, l, head)?;
    bind_by(cur, &unifier)?;
    cur.remove_head();
    Ok(Went::Row(Row::ClrInt2))
}

/// ClrInt2 or ClrLimit, after the top was popped whose literal this is.
fn popped<B: BeliefBase, A: Actions>(
    alloc: Global,
    k: &Surroundings<A>,
    p: &mut Circumstance<B>,
    cur: &mut Stack,
    l: &Literal,
) -> Result<Went, Starved>
    ensures made { IfOk result (λ w. rows.popped (spec.seen_around A.solve k.now B.rules p.old) (spec.seen B.beliefs p.old) l.now cur.old
        ≡ spec.made (spec.seen B.beliefs p.new) cur.new w) }
    ensures beliefs { p.new.beliefs ≡ p.old.beliefs }
    ensures number { p.new.number ≡ p.old.number }
{
    match cur.head(alloc) {
        Ok(head) => {
            let went = done_below(alloc, p, cur, l, &head);
            // A tree given away is cheaper to prove than one that ends in place.
            drop(head);
            went
        }
        Err(TermFault::TermLimit) => { fails_as(alloc, k, p, cur, Row::ClrLimit, Error::TermLimit) }
        Err(TermFault::Memory) => Err(Starved),
    }
}

/// The row for a stack whose top is done, whatever of its body is left: ClrInt1, ClrInt2 or ClrLimit.
pub fn emptied<B: BeliefBase, A: Actions>(
    alloc: Global,
    k: &Surroundings<A>,
    p: &mut Circumstance<B>,
    cur: &mut Stack,
) -> Result<Went, Starved>
    ensures made { IfOk result (λ w. rows.emptied (spec.seen_around A.solve k.now B.rules p.old) (spec.seen B.beliefs p.old) cur.old
        ≡ spec.made (spec.seen B.beliefs p.new) cur.new w) }
    ensures beliefs { p.new.beliefs ≡ p.old.beliefs }
    ensures number { p.new.number ≡ p.old.number }
{
    if cur.len() <= 1 {
        cur.pop();
        return Ok(Went::Row(Row::ClrInt1));
    }
    match cur.bounded_trigger(alloc, 0) {
        Ok(Some(t)) => {
            cur.pop();
            popped(alloc, k, p, cur, &t.lit)
        }
        Ok(None) => Ok(Went::Row(Row::ClrInt1)),
        Err(TermFault::TermLimit) => {
            cur.pop();
            fails_as(alloc, k, p, cur, Row::ClrLimit, Error::TermLimit)
        }
        Err(TermFault::Memory) => Err(Starved),
    }
}
