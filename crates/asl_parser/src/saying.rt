//! What clauses say of the literals in them.

ghost use Rattle.std.specs.Prelude.{◌≡◌, [], ◌∷◌, ◌++◌, Some, IfOk};
ghost use Rattle.std.specs.List.{list_any};
ghost use Rattle.asl_term.specs.Same.{same_tree};
ghost use Rattle.asl_parser_tree.specs.Holding.{limited};
ghost use Rattle.asl_parser.specs.Holding as spec;
ghost use Rattle.asl_parser.specs.Sentences as grammar;

use crate::limits::is_within;
use crate::sentence::{HeldBody, HeldItem, HeldSentence, HeldTrigger, ItemSign, Sentence};
use asl_parser_tree::bounded::{Bounded, Held, HeldExpr, HeldLiteral};
use asl_parser_tree::meaning::Meaning;
use asl_parser_tree::plain::is_action;
use asl_term::compare::equal;
use asl_term::copying::copy;
use asl_term::measure::ground_literal;
use asl_term::sequence::{Seq, Starved};
use asl_term::syntax::{
    Clause, Expr, Formula, Formulas, Kind, Literal, LiteralOf, Plan, Term, Terms, Text, Trigger,
};
use std::alloc::Global;
use std::mem;

fn contains(all: &[Term], t: &Term) -> bool
    ensures { result ≡ list_any (same_tree t.now) all.now }
{
    let mut rest = all;
    'terms: while let Some((u, after)) = rest.split_first() {
        if equal(t, u) {
            return true;
        }
        rest = after;
    }
    false
}

/// Each term once, in order.
#[tactic(auto, using(crate::proofs::Once::seen, crate::proofs::Once::not_seen, crate::proofs::Once::none_left))]
fn once(alloc: Global, ts: &[Term]) -> Result<Terms, Starved>
    ensures { IfOk result (λ r. r ≡ grammar.once_behind [] ts.now) }
{
    let mut kept: Terms = Seq::new(alloc);
    let mut rest = ts;
    'terms: while let Some((t, after)) = rest.split_first() {
        if !contains(kept.as_slice(), t) {
            kept.push(copy(alloc, t)?)?;
        }
        rest = after;
    }
    Ok(kept)
}

fn belief_or_rule(l: Literal) -> Sentence
    ensures { result ≡ grammar.belief_or_rule l }
{
    if ground_literal(&l) {
        Sentence::Belief(l)
    } else {
        Sentence::Rule(Clause {
            head: l,
            body: Expr::True,
        })
    }
}

/// A belief, or a rule with the body `true` where it has a variable. Its annotations are kept once.
fn fact(alloc: Global, l: Literal) -> Result<Sentence, Starved>
    ensures { IfOk result (λ s. s ≡ grammar.fact l) }
{
    let annots = once(alloc, l.annots.as_slice())?;
    let mut kept = l;
    drop(mem::replace(&mut kept.annots, annots));
    Ok(belief_or_rule(kept))
}

fn done(deed: ItemSign, l: Literal) -> Formula
    ensures { result ≡ grammar.done deed l }
{
    match deed {
        ItemSign::Achieve => Formula::Achieve(l),
        ItemSign::Spawn => Formula::Spawn(l),
        ItemSign::Test => Formula::Test(l),
        ItemSign::Add => Formula::Add(l),
        ItemSign::Del => Formula::Del(l),
        ItemSign::Replace => Formula::Replace(l),
    }
}

fn small_item(m: Meaning) -> Option<Option<HeldItem>>
    ensures { result ≡ spec.small_item m }
{
    match m {
        Meaning::Truth(b, l) => {
            // Here and below a tree goes to `drop`: the proof of a function that ends one in place is long.
            drop(l);
            if b { Some(None) } else { None }
        }
        Meaning::Literal(l) => {
            if is_action(&l) {
                Some(Some(Bounded::Within(Formula::Act(l))))
            } else {
                drop(l);
                None
            }
        }
        Meaning::Term(t) => {
            drop(t);
            None
        }
        Meaning::Relation(r) => Some(Some(Bounded::Within(Formula::Rel(r.into_inner())))),
        Meaning::Call(c) => Some(Some(Bounded::Within(Formula::Inner(c)))),
        Meaning::Formula(e) => {
            drop(e);
            None
        }
    }
}

/// An item without a sign; none where it is left out of the body.
pub fn item_of(h: Held) -> Option<Option<HeldItem>>
    ensures { result ≡ spec.item_of h }
{
    match h {
        Bounded::Within(m) => small_item(m),
        Bounded::Past(o) => {
            if o.item {
                Some(Some(Bounded::Past(())))
            } else {
                None
            }
        }
    }
}

/// An item with a sign.
pub fn item_with(deed: ItemSign, l: HeldLiteral) -> HeldItem
    ensures { result ≡ spec.item_with deed l }
{
    match l {
        Bounded::Within(l) => Bounded::Within(done(deed, l)),
        Bounded::Past(_) => Bounded::Past(()),
    }
}

fn with_item(fs: Formulas, f: Formula) -> Result<HeldBody, Starved>
    ensures { IfOk result (λ r. r ≡ Bounded.Within (fs ++ f ∷ [])) }
{
    let mut all = fs;
    all.push(f)?;
    Ok(Bounded::Within(all))
}

fn put_some(fs: HeldBody, f: HeldItem) -> Result<HeldBody, Starved>
    ensures { IfOk result (λ r. r ≡ spec.put_item fs (Some f)) }
{
    match fs {
        Bounded::Within(fs) => match f {
            Bounded::Within(f) => with_item(fs, f),
            Bounded::Past(()) => Ok(Bounded::Past(())),
        },
        Bounded::Past(()) => {
            drop(f);
            Ok(Bounded::Past(()))
        }
    }
}

/// One more item, unless it is left out of the body.
pub fn put_item(fs: HeldBody, f: Option<HeldItem>) -> Result<HeldBody, Starved>
    ensures { IfOk result (λ r. r ≡ spec.put_item fs f) }
{
    match f {
        Some(f) => put_some(fs, f),
        None => Ok(fs),
    }
}

/// What a trigger is about.
pub fn trigger_of(add: bool, kind: Kind, l: HeldLiteral) -> HeldTrigger
    ensures { result ≡ spec.trigger_of add kind l }
{
    match l {
        Bounded::Within(lit) => Bounded::Within(Trigger { add, kind, lit }),
        Bounded::Past(_) => Bounded::Past(()),
    }
}

// ---- sentences

fn settle(s: Sentence) -> HeldSentence
    ensures { result ≡ spec.hold_sentence limited s }
{
    if is_within(&s) {
        Bounded::Within(s)
    } else {
        drop(s);
        Bounded::Past(())
    }
}

/// An initial goal. `Past` where its literal is past the limits of trees.
pub fn goal_of(l: HeldLiteral) -> HeldSentence
    ensures { result ≡ spec.goal_of limited l }
{
    match l {
        Bounded::Within(l) => settle(Sentence::Goal(l)),
        Bounded::Past(_) => Bounded::Past(()),
    }
}

fn small_fact(alloc: Global, l: Literal) -> Result<HeldSentence, Starved>
    ensures { IfOk result (λ r. r ≡ spec.hold_sentence limited (grammar.fact l)) }
{
    Ok(settle(fact(alloc, l)?))
}

/// A belief, or where it has a variable a rule with the body `true`; each annotation is kept once.
/// `Starved` comes only when memory runs out.
pub fn fact_of(alloc: Global, l: HeldLiteral) -> Result<HeldSentence, Starved>
    ensures { IfOk result (λ r. r ≡ spec.fact_of limited l) }
{
    match l {
        Bounded::Within(l) => small_fact(alloc, l),
        Bounded::Past(_) => Ok(Bounded::Past(())),
    }
}

/// A rule of its head and its body. Where one of them is past the limits of trees, neither is kept.
pub fn rule_with(head: HeldLiteral, body: HeldExpr) -> HeldSentence
    ensures { result ≡ spec.rule_with limited head body }
{
    match head {
        Bounded::Within(head) => match body {
            Bounded::Within(body) => settle(Sentence::Rule(Clause { head, body })),
            Bounded::Past(_) => Bounded::Past(()),
        },
        Bounded::Past(_) => {
            drop(body);
            Bounded::Past(())
        }
    }
}

fn small_plan(
    label: Option<Text>,
    trigger: Trigger,
    context: HeldExpr,
    body: HeldBody,
) -> HeldSentence
    ensures { result ≡ spec.plan_with limited label (Bounded.Within trigger) context body }
{
    match context {
        Bounded::Within(context) => match body {
            Bounded::Within(body) => settle(Sentence::Plan(Plan {
                label,
                trigger,
                context,
                body,
            })),
            Bounded::Past(()) => {
                drop(context);
                Bounded::Past(())
            }
        },
        Bounded::Past(_) => Bounded::Past(()),
    }
}

/// A plan of its parts. Where one of them is past the limits of trees, none of them is kept.
pub fn plan_with(
    label: Option<Text>,
    trigger: HeldTrigger,
    context: HeldExpr,
    body: HeldBody,
) -> HeldSentence
    ensures { result ≡ spec.plan_with limited label trigger context body }
{
    match trigger {
        Bounded::Within(trigger) => small_plan(label, trigger, context, body),
        Bounded::Past(()) => {
            drop(context);
            Bounded::Past(())
        }
    }
}
