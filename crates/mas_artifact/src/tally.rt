//! A tally: a number that grows.

ghost use Rattle.std.specs.Prelude.{◌≡◌, ◌≤ℤ◌, IfOk, OnErr};
ghost use Rattle.asl_term.specs.declared.syntax.Term.TheVariants as term;
ghost use Rattle.std.specs.Option.{option_and_then};
ghost use Rattle.mas_artifact.specs.Opening.{first_tally};
ghost use Rattle.mas_artifact.specs.States as states;
ghost use Rattle.mas_artifact.specs.Tables as tables;

use crate::frames::{is_call, unary};
use asl_term::boxed::Boxed;
use asl_term::copying::{copy, text_of};
use asl_term::sequence::Starved;
use asl_term::syntax::{ArithOf, Literal, Literals, Op, Term, Text};
use asl_unify::settle::number_of;
use asl_unify::subst::no_subst;
use mas_mind::mind::Feedback;
use mas_world::artifact::Artifact;
use mas_world::guards::ready;
use std::alloc::Global;
use std::marker::Model;

/// Its name, and the number, which is not negative.
pub struct Tally {
    name: Text,
    count: i64,
}

/// By hand, so that a crate above that lets one go proves nothing of its parts.
impl Drop for Tally {
    fn drop(self) {
        let Tally { name: _, count: _ } = self;
    }
}

impl Model for Tally {
    ghost use Rattle.std.specs.Prelude.{◌≤ℤ◌, pos};
    ghost use Rattle.mas_artifact.specs.States.{tally_facts};
    ghost use Rattle.mas_artifact.specs.Tables.{tally_table};
    ghost use Rattle.mas_world.specs.Worlds.{Used, used};
    ghost use Rattle.asl_term.specs.contracts.syntax.Term as t;
    ghost use Rattle.asl_term.specs.contracts.syntax.Expr as e;
    ghost use Rattle.std.specs.Coded.{codes};

    ghost Value = { Used };

    ghost coded = { Prim.hlevel (codes, t.the_row.coded, e.the_row.coded) };

    ghost view = { λ s. used s.name tally_table (tally_facts s.count) };

    ghost invariant = { λ s. pos 0 ≤ℤ s.count };
}

impl Tally {
    /// A tally of nothing.
    pub(crate) fn new(alloc: Global) -> Result<Tally, Starved>
        ensures { IfOk result (λ s. s ≡ first_tally) }
    {
        let name = text_of(alloc, b"tally")?;
        Ok(Tally { name, count: 0 })
    }
}

/// The literal tally(count + t).
fn sum_literal(alloc: Global, count: i64, t: &Term) -> Result<Literal, Starved>
    ensures { IfOk result (λ l. l ≡ tables.tally (tables.sum (term.Num count) t.now)) }
{
    let left = Boxed::new(alloc, Term::Num(count))?;
    let right = Boxed::new(alloc, copy(alloc, t)?)?;
    let sum = Term::Op(ArithOf {
        op: Op::Add,
        left,
        right,
    });
    unary(alloc, b"tally", sum)
}

/// The number of the first of these terms.
fn number_in(args: &[Term]) -> Option<i64>
    ensures { result ≡ states.number_in args.now }
{
    match args.split_first() {
        None => None,
        Some((t, _)) => number_of(t),
    }
}

/// The number, if it is greater than the count.
fn above(count: i64, number: Option<i64>) -> Option<i64>
    ensures { result ≡ option_and_then (states.above count) number }
{
    match number {
        None => None,
        Some(m) => { if count < m { Some(m) } else { None } }
    }
}

/// The sum with what is added, where it is ready and greater.
fn sum(alloc: Global, count: i64, t: &Term) -> Result<Option<i64>, Starved>
    ensures { IfOk result (λ r. r ≡ states.tally_sum count t.now) }
{
    let l = sum_literal(alloc, count, t)?;
    match ready(alloc, &l, &no_subst(alloc))? {
        None => Ok(None),
        Some(l) => Ok(above(count, number_in(l.args.as_slice()))),
    }
}

/// The same with the first of these terms.
fn args_sum(alloc: Global, count: i64, args: &[Term]) -> Result<Option<i64>, Starved>
    ensures { IfOk result (λ r. r ≡ states.args_sum count args.now) }
{
    match args.split_first() {
        None => Ok(None),
        Some((t, _)) => sum(alloc, count, t),
    }
}

#[tactic(auto, using(crate::proofs::Tallies::sum_more))]
fn act(alloc: Global, count: &mut i64, action: &Literal) -> Result<Feedback, Starved>
    ensures acted { IfOk result (λ f. (f, count.new) ≡ states.tally_acted count.old action.now) }
    ensures refused { OnErr result (count.new ≡ count.old) }
    ensures grows { count.old ≤ℤ count.new }
{
    if !is_call(action, b"tally_add", 1) {
        return Ok(Feedback::Failed);
    }
    match args_sum(alloc, *count, action.args.as_slice())? {
        None => Ok(Feedback::Failed),
        Some(m) => {
            *count = m;
            Ok(Feedback::Done)
        }
    }
}

impl Artifact for Tally {
    ghost named = { λ s. s.name };

    ghost table = { λ s. s.segment.acts };

    ghost facts = { λ s. s.segment.facts };

    fn name(&self) -> &Text {
        &self.name
    }

    #[tactic(auto, using(crate::proofs::Tallies::tally_facts_are))]
    fn observe(&self, out: &mut Literals) -> Result<(), Starved> {
        let alloc = out.alloc();
        let fact = unary(alloc, b"tally", Term::Num(self.count))?;
        out.push(fact)
    }

    fn operate(
        &mut self,
        alloc: Global,
        _agent: &Text,
        action: &Literal,
    ) -> Result<Feedback, Starved> {
        act(alloc, &mut self.count, action)
    }
}
