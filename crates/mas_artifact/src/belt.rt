//! A belt: at most four things in a row, taken from its front.

ghost use Rattle.std.specs.Prelude.{◌≡◌, ◌∷◌, ◌++◌, [], codes, is_some, IfOk, OnErr};
ghost use Rattle.asl_unify.specs.Puts.{list_of};
ghost use Rattle.mas_artifact.specs.Opening.{first_belt};
ghost use Rattle.mas_artifact.specs.States as states;
ghost use Rattle.mas_artifact.specs.Tables as tables;
ghost use Rattle.mas_world.specs.Guards as guards;

use crate::frames::{is_call, unary};
use asl_term::boxed::Boxed;
use asl_term::compare::equal_all;
use asl_term::copying::{copy, copy_all, text_of};
use asl_term::name::name_of;
use asl_term::sequence::{Seq, Starved};
use asl_term::syntax::{ListingOf, Literal, Literals, Term, Terms, Text, Var};
use asl_unify::subst::no_subst;
use mas_mind::mind::Feedback;
use mas_world::artifact::Artifact;
use mas_world::guards::ready;
use std::alloc::Global;
use std::marker::Model;
use std::mem;

/// Its name, and what stands on it, the first to be taken first.
pub struct Belt {
    name: Text,
    items: Terms,
}

/// By hand, so that a crate above that lets one go proves nothing of its parts.
impl Drop for Belt {
    fn drop(self) {
        let Belt { name: _, items: _ } = self;
    }
}

impl Model for Belt {
    ghost use Rattle.mas_artifact.specs.States.{AreKept, belt_facts};
    ghost use Rattle.mas_artifact.specs.Tables.{belt_table};
    ghost use Rattle.mas_world.specs.Worlds.{Used, used};
    ghost use Rattle.asl_term.specs.contracts.syntax.Term as t;
    ghost use Rattle.asl_term.specs.contracts.syntax.Expr as e;
    ghost use Rattle.std.specs.Coded.{codes};

    ghost Value = { Used };

    ghost coded = { Prim.hlevel (codes, t.the_row.coded, e.the_row.coded) };

    ghost view = { λ s. used s.name belt_table (belt_facts s.items) };

    ghost invariant = { λ s. AreKept s.items };
}

impl Belt {
    /// A belt with nothing on it.
    #[tactic(auto, using(crate::proofs::Rows::none_kept))]
    pub(crate) fn new(alloc: Global) -> Result<Belt, Starved>
        ensures { IfOk result (λ s. s ≡ first_belt) }
    {
        let name = text_of(alloc, b"belt")?;
        Ok(Belt {
            name,
            items: Seq::new(alloc),
        })
    }
}

/// The literal belt([..]) of these items.
fn belt_literal(alloc: Global, items: Terms) -> Result<Literal, Starved>
    ensures { IfOk result (λ l. l ≡ tables.belt (tables.list items)) }
{
    unary(alloc, b"belt", Term::List(ListingOf { items, tail: None }))
}

/// The items of a list; nothing else has any.
fn items_of(alloc: Global, t: Term) -> Terms
    ensures { result ≡ states.items_of (list_of t) }
{
    let mut t = t;
    match &mut t {
        Term::List(l) => mem::replace(&mut l.items, Seq::new(alloc)),
        _ => Seq::new(alloc),
    }
}

/// The items of the first of these terms.
fn items_in(alloc: Global, args: Terms) -> Terms
    ensures { result ≡ states.items_in args }
{
    let mut args = args;
    match args.remove(0) {
        None => Seq::new(alloc),
        Some(t) => items_of(alloc, t),
    }
}

/// These items, settled, where the fact of them is ready.
fn row(alloc: Global, items: Terms) -> Result<Option<Terms>, Starved>
    ensures { IfOk result (λ r. r ≡ states.row items) }
{
    let l = belt_literal(alloc, items)?;
    match ready(alloc, &l, &no_subst(alloc))? {
        None => Ok(None),
        Some(mut l) => {
            let args = mem::replace(&mut l.args, Seq::new(alloc));
            drop(l);
            Ok(Some(items_in(alloc, args)))
        }
    }
}

/// These terms and one more behind them.
fn with_last(alloc: Global, items: &[Term], t: &Term) -> Result<Terms, Starved>
    ensures { IfOk result (λ r. r ≡ items.now ++ t.now ∷ []) }
{
    let mut all = copy_all(alloc, items)?;
    all.push(copy(alloc, t)?)?;
    Ok(all)
}

/// These terms and one more before them.
fn with_first(alloc: Global, t: &Term, items: &[Term]) -> Result<Terms, Starved>
    ensures { IfOk result (λ r. r ≡ t.now ∷ items.now) }
{
    let mut all = Seq::new(alloc);
    all.push(copy(alloc, t)?)?;
    all.append_all(copy_all(alloc, items)?)?;
    Ok(all)
}

/// One more thing goes last, where there is a place for it.
fn place(alloc: Global, items: &mut Terms, t: &Term) -> Result<Feedback, Starved>
    ensures acted { IfOk result (λ f. (f, items.new) ≡ states.placed items.old t.now) }
    ensures refused { OnErr result (items.new ≡ items.old) }
{
    if items.len() >= 4 {
        return Ok(Feedback::Failed);
    }
    let asked = with_last(alloc, items.as_slice(), t)?;
    match row(alloc, asked)? {
        None => Ok(Feedback::Failed),
        Some(new) => {
            *items = new;
            Ok(Feedback::Done)
        }
    }
}

/// The literal belt([t|L]).
fn asked_literal(alloc: Global, t: &Term) -> Result<Literal, Starved>
    ensures { IfOk result (λ l. l ≡ tables.belt (tables.list_before t.now (tables.variable (codes "L")))) }
{
    let mut items = Seq::new(alloc);
    items.push(copy(alloc, t)?)?;
    let name = name_of(alloc, b"L")?;
    let tail = Boxed::new(alloc, Term::Var(Var { name, number: 0 }))?;
    unary(
        alloc,
        b"belt",
        Term::List(ListingOf {
            items,
            tail: Some(tail),
        }),
    )
}

/// Whether belt([t|L]) is ready.
fn can_be_asked(alloc: Global, t: &Term) -> Result<bool, Starved>
    ensures { IfOk result (λ b. b ≡ is_some (guards.ready [] (tables.belt (tables.list_before t.now (tables.variable (codes "L")))))) }
{
    let l = asked_literal(alloc, t)?;
    match ready(alloc, &l, &no_subst(alloc))? {
        None => Ok(false),
        Some(_) => Ok(true),
    }
}

/// Whether these are the settled items.
fn are_these(items: &[Term], found: Option<Terms>) -> bool
    ensures { result ≡ states.are_these items.now found }
{
    match found {
        None => false,
        Some(found) => equal_all(found.as_slice(), items),
    }
}

/// Whether what is asked for is the first of the items.
fn stands_first(alloc: Global, t: &Term, items: &[Term]) -> Result<bool, Starved>
    ensures { IfOk result (λ b. b ≡ states.stands_first t.now items.now) }
{
    let Some((_, more)) = items.split_first() else {
        return Ok(false);
    };
    if !can_be_asked(alloc, t)? {
        return Ok(false);
    }
    let asked = with_first(alloc, t, more)?;
    let found = row(alloc, asked)?;
    Ok(are_these(items, found))
}

/// The first thing is taken, where it is the one that is asked for.
fn lift(alloc: Global, items: &mut Terms, t: &Term) -> Result<Feedback, Starved>
    ensures acted { IfOk result (λ f. (f, items.new) ≡ states.lifted items.old t.now) }
    ensures refused { OnErr result (items.new ≡ items.old) }
{
    if !stands_first(alloc, t, items.as_slice())? {
        return Ok(Feedback::Failed);
    }
    let _taken = items.remove(0);
    Ok(Feedback::Done)
}

fn act(alloc: Global, items: &mut Terms, action: &Literal) -> Result<Feedback, Starved>
    ensures acted { IfOk result (λ f. (f, items.new) ≡ states.belt_acted items.old action.now) }
    ensures refused { OnErr result (items.new ≡ items.old) }
{
    let Some((t, _)) = action.args.as_slice().split_first() else {
        return Ok(Feedback::Failed);
    };
    if is_call(action, b"belt_put", 1) {
        return place(alloc, items, t);
    }
    if is_call(action, b"belt_take", 1) {
        return lift(alloc, items, t);
    }
    Ok(Feedback::Failed)
}

impl Artifact for Belt {
    ghost named = { λ s. s.name };

    ghost table = { λ s. s.segment.acts };

    ghost facts = { λ s. s.segment.facts };

    fn name(&self) -> &Text {
        &self.name
    }

    #[tactic(auto, using(crate::proofs::Rows::kept_facts))]
    fn observe(&self, out: &mut Literals) -> Result<(), Starved> {
        let alloc = out.alloc();
        let items = copy_all(alloc, self.items.as_slice())?;
        let fact = belt_literal(alloc, items)?;
        out.push(fact)
    }

    fn operate(
        &mut self,
        alloc: Global,
        _agent: &Text,
        action: &Literal,
    ) -> Result<Feedback, Starved> {
        act(alloc, &mut self.items, action)
    }
}
