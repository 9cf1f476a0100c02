//! Means with the substitutions that are still to be put into them.

ghost use Rattle.std.specs.Prelude.{◌≡◌, IfOk, IfErr, Some, drop};
ghost use Rattle.asl_unify.specs.Limits.{Passes};
ghost use Rattle.asl_intend.specs.Entries as spec;
ghost use Rattle.asl_intend.specs.Stacks as stacks;

use crate::goal::{can_name, some_match};
use crate::unbuilt::matches_under;
use asl_term::copying::copy_all;
use asl_term::limits::{MOST_LEVELS, MOST_NODES};
use asl_term::measure::{literal_depth, literal_size};
use asl_term::sequence::Starved;
use asl_term::syntax::{Formula, Formulas, Literal, Term, Trigger};
use asl_term_queue::queue::Queue;
use asl_unify::apply::apply_formula;
use asl_unify::build::build_literal;
use asl_unify::limits::{TermFault, apply_literal, fits_literal};
use asl_unify::log::Log;
use asl_unify::subst::{Subst, no_subst};
use std::alloc::Global;
use std::mem;

/// What is treated, and the formulas that are left to do for it.
#[derive(Drop)]
pub struct Means {
    pub trigger: Trigger,
    pub body: Formulas,
}

/// A formula, and how many substitutions the stack had bound when it was put there.
#[derive(Drop)]
pub struct First {
    pub formula: Formula,
    pub since: u64,
}

/// Means as they were pushed, but for the formulas that were taken away.
#[derive(Drop)]
pub struct StackEntry {
    pub trigger: Trigger,
    /// Put into these means alone, before what is bound later.
    pub own: Subst,
    /// How many substitutions the stack had bound when they were pushed.
    pub since: u64,
    /// The first formula, where it was put in the place of another.
    pub first: Option<First>,
    /// The formulas after that one.
    pub body: Queue<Formula>,
}

/// A trigger with more nodes or more levels is not built.
const TRIGGER_NODES: u64 = 1_000_000;

const TRIGGER_LEVELS: u64 = 1_000;

/// Whether a trigger that is built has no more nodes and levels than one that is to be built may have.
pub fn is_buildable(t: &Trigger) -> bool
    ensures { result ≡ stacks.is_buildable t.now }
{
    literal_size(&t.lit) <= TRIGGER_NODES && literal_depth(&t.lit) <= TRIGGER_LEVELS
}

impl StackEntry {
    /// Whether there is a first formula.
    pub fn has_first(&self) -> bool
        ensures { result ≡ spec.has_first self.now }
    {
        self.first.is_some() || self.body.first().is_some()
    }

    /// Takes away the first formula. False where there is none.
    pub fn remove_first(&mut self) -> bool
        ensures value { result ≡ spec.has_first self.old }
        ensures rest { self.new ≡ spec.without_first self.old }
    {
        if self.first.is_some() {
            // A tree given away is cheaper to prove than one that ends in place.
            drop(self.first.take());
            return true;
        }
        match self.body.take_first() {
            Some(formula) => {
                drop(formula);
                true
            }
            None => false,
        }
    }

    /// Puts a formula in the place of the first one. False where there is none.
    pub fn set_first(&mut self, formula: Formula, since: u64) -> bool
        ensures value { result ≡ spec.has_first self.old }
        ensures rest { self.new ≡ spec.with_first formula since self.old }
    {
        if !self.remove_first() {
            drop(formula);
            return false;
        }
        drop(mem::replace(&mut self.first, Some(First { formula, since })));
        true
    }

    /// The same where no formula was put in the place of the first one.
    fn first_of_body(&self, alloc: Global, log: &Log) -> Result<Option<Formula>, TermFault>
        ensures ok { IfOk result (λ r. (r ≡ spec.first_of_body log.now self.now) × stacks.Bounded r) }
        ensures fault { IfErr result (λ e. Passes (stacks.is_bounded (spec.first_of_body log.now self.now)) e) }
    {
        match self.body.first() {
            None => Ok(None),
            Some(f) => {
                // That its pairs are sound is known once they are read.
                self.own.pairs();
                match apply_formula(alloc, f, &self.own, log.since(self.since)) {
                    Ok(r) => Ok(Some(r)),
                    Err(e) => Err(e),
                }
            }
        }
    }

    /// The first formula, with what is bound put into it. One that passes the limits is not built.
    #[tactic(auto, using(crate::proofs::Logs::first_put, crate::proofs::Logs::first_own))]
    pub fn first_formula(&self, alloc: Global, log: &Log) -> Result<Option<Formula>, TermFault>
        ensures ok { IfOk result (λ r. (r ≡ stacks.first (spec.seen log.now self.now)) × stacks.Bounded r) }
        ensures fault { IfErr result (λ e. Passes (stacks.is_bounded (stacks.first (spec.seen log.now self.now))) e) }
    {
        match &self.first {
            Some(f) => {
                let none = no_subst(alloc);
                let first = apply_formula(alloc, &f.formula, &none, log.since(f.since));
                drop(none);
                match first {
                    Ok(r) => Ok(Some(r)),
                    Err(e) => Err(e),
                }
            }
            None => self.first_of_body(alloc, log),
        }
    }

    /// The trigger, with what is bound put into it. One that has more than 1,000,000 nodes or 1,000 levels is not
    /// built: the answer is that memory is short.
    pub fn full_trigger(&self, alloc: Global, log: &Log) -> Result<Trigger, Starved>
        ensures value { IfOk result (λ r. r ≡ (spec.seen log.now self.now).trigger) }
        ensures small { IfOk result stacks.IsBuildable }
    {
        let own = &self.own;
        own.pairs();
        let rest = log.since(self.since);
        let goal = &self.trigger.lit;
        let Some(_) = fits_literal(goal, own, rest, TRIGGER_LEVELS, TRIGGER_NODES) else {
            return Err(Starved);
        };
        let lit = build_literal(alloc, goal, own, rest)?;
        Ok(Trigger {
            add: self.trigger.add,
            kind: self.trigger.kind,
            lit,
        })
    }

    /// Whether the trigger stays within the limits of a term.
    pub fn is_small(&self, log: &Log) -> bool
        ensures { result ≡ stacks.is_bounded_trigger (spec.seen log.now self.now).trigger }
    {
        let rest = log.since(self.since);
        self.own.pairs();
        match fits_literal(&self.trigger.lit, &self.own, rest, MOST_LEVELS, MOST_NODES) {
            Some(_) => true,
            None => false,
        }
    }

    /// The same as `is_matched`, of a trigger that is built.
    fn is_built_matched(
        &self,
        alloc: Global,
        log: &Log,
        g: &Literal,
        more: &[Term],
    ) -> Result<bool, Starved>
        ensures { IfOk result (λ r. r ≡ stacks.matched_at g.now more.now (Some (spec.seen log.now self.now).trigger)) }
    {
        let annots = copy_all(alloc, more)?;
        let mut t = self.full_trigger(alloc, log)?;
        let r = match t.lit.annots.append_all(annots) {
            Ok(()) => some_match(alloc, g, &t.lit),
            Err(e) => Err(e),
        };
        drop(t);
        r
    }

    /// Whether a literal matches that of the trigger, with more annotations behind its own. A trigger that passes the
    /// limits of a term is not built, unless a list in it or in what is bound has a tail and no items.
    pub fn is_matched(
        &self,
        alloc: Global,
        log: &Log,
        g: &Literal,
        more: &[Term],
    ) -> Result<bool, Starved>
        ensures { IfOk result (λ r. r ≡ stacks.matched_at g.now more.now (Some (spec.seen log.now self.now).trigger)) }
    {
        if self.is_small(log) {
            return self.is_built_matched(alloc, log, g, more);
        }
        let rest = log.since(self.since);
        match matches_under(alloc, g, &self.trigger.lit, self.own.pairs(), rest, more)? {
            Some(r) => Ok(r),
            None => self.is_built_matched(alloc, log, g, more),
        }
    }

    /// Whether the literal names the goal of the trigger.
    pub fn is_named(&self, alloc: Global, log: &Log, g: &Literal) -> Result<bool, Starved>
        ensures { IfOk result (λ r. r ≡ stacks.names_goal g.now (spec.seen log.now self.now).trigger) }
    {
        if !can_name(g, &self.trigger) {
            return Ok(false);
        }
        self.is_matched(alloc, log, g, &[])
    }

    /// The trigger, with what is bound put into it. One that passes the limits of a term is not built.
    pub fn bounded_trigger(&self, alloc: Global, log: &Log) -> Result<Trigger, TermFault>
        ensures ok { IfOk result (λ r. (r ≡ (spec.seen log.now self.now).trigger) × stacks.BoundedTrigger r) }
        ensures fault { IfErr result (λ e. Passes (stacks.is_bounded_trigger (spec.seen log.now self.now).trigger) e) }
    {
        self.own.pairs();
        match apply_literal(alloc, &self.trigger.lit, &self.own, log.since(self.since)) {
            Ok(lit) => Ok(Trigger {
                add: self.trigger.add,
                kind: self.trigger.kind,
                lit,
            }),
            Err(e) => Err(e),
        }
    }
}
