//! Clauses, read from their tokens.

ghost use Rattle.std.specs.Prelude.{◌≡◌, length};
ghost use Rattle.asl_parser_tree.specs.Holding.{limited};
ghost use Rattle.asl_parser_tree.specs.Leaves.{Gives, view_front};
ghost use Rattle.asl_parser.specs.Holding as holding;
ghost use Rattle.asl_parser.specs.Speaking as spec;

use crate::marks::{
    add_at, after_arrow, after_at, after_bang, after_colon, after_if, after_semicolon, deed_at,
    is_last, kind_at, label_at, starts_plan,
};
use crate::saying::{
    fact_of, goal_of, item_of, item_with, plan_with, put_item, rule_with, trigger_of,
};
use crate::sentence::{HeldBody, HeldItem, HeldSentence, HeldTrigger, ItemSign};
use asl_parser_expr::reading::{expression, literal};
use asl_parser_tree::bounded::{Bounded, Held, HeldExpr, HeldLiteral};
use asl_parser_tree::held::as_formula;
use asl_parser_tree::lexeme::Lexeme;
use asl_parser_tree::parts::literal_plain;
use asl_term::sequence::{Seq, Starved};
use asl_term::syntax::{Expr, Text};
use std::alloc::Global;

fn as_condition(found: Option<(Held, &[Lexeme])>) -> Option<(HeldExpr, &[Lexeme])>
    ensures { view_front result ≡ spec.as_condition (view_front found.entry) }
{
    let (m, rest) = found?;
    let e = as_formula(m)?;
    Some((e, rest))
}

#[tactic(auto, unfolding(crate::specs::Speaking::formula_by))]
fn formula(
    alloc: Global,
    tokens: &[Lexeme],
    depth: u32,
) -> Result<Option<(HeldExpr, &[Lexeme])>, Starved>
    ensures { Gives (λ x. (x.0, x.1.now)) result (spec.formula_by limited depth tokens.now) }
{
    match expression(alloc, tokens, depth) {
        Ok(found) => Ok(as_condition(found)),
        Err(e) => Err(e),
    }
}

/// The literal of a belief, a rule's head, a goal or a trigger.
#[tactic(auto, unfolding(crate::specs::Speaking::head_by))]
fn head(
    alloc: Global,
    tokens: &[Lexeme],
    depth: u32,
) -> Result<Option<(HeldLiteral, &[Lexeme])>, Starved>
    ensures { Gives (λ x. (x.0, x.1.now)) result (spec.head_by limited depth tokens.now) }
{
    let Some((l, rest)) = literal(alloc, tokens, depth)? else {
        return Ok(None);
    };
    if literal_plain(&l) {
        Ok(Some((l, rest)))
    } else {
        drop(l);
        Ok(None)
    }
}

#[tactic(auto, unfolding(crate::specs::Speaking::label_by))]
fn label(alloc: Global, tokens: &[Lexeme]) -> Result<Option<(Option<Text>, &[Lexeme])>, Starved>
    ensures { Gives (λ x. (x.0, x.1.now)) result (spec.label_by tokens.now) }
{
    match after_at(tokens) {
        Some(rest) => label_at(alloc, rest),
        None => Ok(Some((None, tokens))),
    }
}

#[tactic(auto, unfolding(crate::specs::Speaking::trigger_by))]
fn trigger(
    alloc: Global,
    tokens: &[Lexeme],
    depth: u32,
) -> Result<Option<(HeldTrigger, &[Lexeme])>, Starved>
    ensures { Gives (λ x. (x.0, x.1.now)) result (spec.trigger_by limited depth tokens.now) }
{
    let Some((add, rest)) = add_at(tokens) else {
        return Ok(None);
    };
    let (kind, rest) = kind_at(rest);
    let Some((lit, rest)) = head(alloc, rest, depth)? else {
        return Ok(None);
    };
    Ok(Some((trigger_of(add, kind, lit), rest)))
}

#[tactic(auto, unfolding(crate::specs::Speaking::context_by))]
fn context(
    alloc: Global,
    tokens: &[Lexeme],
    depth: u32,
) -> Result<Option<(HeldExpr, &[Lexeme])>, Starved>
    ensures { Gives (λ x. (x.0, x.1.now)) result (spec.context_by limited depth tokens.now) }
{
    match after_colon(tokens) {
        Some(rest) => formula(alloc, rest, depth),
        None => Ok(Some((Bounded::Within(Expr::True), tokens))),
    }
}

#[tactic(auto, unfolding(crate::specs::Speaking::signed_item_by))]
fn signed_item(
    alloc: Global,
    deed: ItemSign,
    tokens: &[Lexeme],
    depth: u32,
) -> Result<Option<(Option<HeldItem>, &[Lexeme])>, Starved>
    ensures { Gives (λ x. (x.0, x.1.now)) result (spec.signed_item_by limited depth (deed, tokens.now)) }
{
    let Some((l, rest)) = literal(alloc, tokens, depth)? else {
        return Ok(None);
    };
    Ok(Some((Some(item_with(deed, l)), rest)))
}

fn as_item(found: Option<(Held, &[Lexeme])>) -> Option<(Option<HeldItem>, &[Lexeme])>
    ensures { view_front result ≡ spec.as_item (view_front found.entry) }
{
    let (m, rest) = found?;
    let f = item_of(m)?;
    Some((f, rest))
}

#[tactic(auto, unfolding(crate::specs::Speaking::other_item_by))]
fn other_item(
    alloc: Global,
    tokens: &[Lexeme],
    depth: u32,
) -> Result<Option<(Option<HeldItem>, &[Lexeme])>, Starved>
    ensures { Gives (λ x. (x.0, x.1.now)) result (spec.other_item_by limited depth tokens.now) }
{
    match expression(alloc, tokens, depth) {
        Ok(found) => Ok(as_item(found)),
        Err(e) => Err(e),
    }
}

#[tactic(auto, unfolding(crate::specs::Speaking::item_by))]
fn item(
    alloc: Global,
    tokens: &[Lexeme],
    depth: u32,
) -> Result<Option<(Option<HeldItem>, &[Lexeme])>, Starved>
    ensures { Gives (λ x. (x.0, x.1.now)) result (spec.item_by limited depth tokens.now) }
{
    match deed_at(tokens) {
        Some((deed, rest)) => signed_item(alloc, deed, rest, depth),
        None => other_item(alloc, tokens, depth),
    }
}

/// The items of a body.
#[tactic(auto, using(crate::proofs::Body::turns))]
fn item_list(
    alloc: Global,
    tokens: &[Lexeme],
    depth: u32,
) -> Result<Option<(HeldBody, &[Lexeme])>, Starved>
    ensures { Gives (λ x. (x.0, x.1.now)) result (spec.item_list_by (spec.item_by limited depth) (length tokens.now) tokens.now) }
{
    let mut all = Bounded::Within(Seq::new(alloc));
    let mut rest = tokens;
    'items: loop {
        let Some((f, after)) = item(alloc, rest, depth)? else {
            return Ok(None);
        };
        all = put_item(all, f)?;
        let Some(next) = after_semicolon(after) else {
            return Ok(Some((all, after)));
        };
        rest = next;
    }
}

#[tactic(auto, unfolding(crate::specs::Speaking::body_by))]
fn body(
    alloc: Global,
    tokens: &[Lexeme],
    depth: u32,
) -> Result<Option<(HeldBody, &[Lexeme])>, Starved>
    ensures { Gives (λ x. (x.0, x.1.now)) result (spec.body_by limited depth tokens.now) }
{
    match after_arrow(tokens) {
        Some(rest) => item_list(alloc, rest, depth),
        None => Ok(Some((Bounded::Within(Seq::new(alloc)), tokens))),
    }
}

fn when_last(tokens: &[Lexeme], s: HeldSentence) -> Option<HeldSentence>
    ensures { result ≡ spec.when_last tokens.now s }
{
    if is_last(tokens) {
        Some(s)
    } else {
        drop(s);
        None
    }
}

#[tactic(auto, unfolding(crate::specs::Speaking::goal_by))]
fn goal(alloc: Global, tokens: &[Lexeme], depth: u32) -> Result<Option<HeldSentence>, Starved>
    ensures { Gives (λ s. s) result (spec.goal_by limited depth tokens.now) }
{
    let Some((l, rest)) = head(alloc, tokens, depth)? else {
        return Ok(None);
    };
    Ok(when_last(rest, goal_of(l)))
}

fn rule_of(head: HeldLiteral, found: Option<(HeldExpr, &[Lexeme])>) -> Option<HeldSentence>
    ensures { result ≡ spec.rule_of limited head (view_front found.entry) }
{
    let Some((body, rest)) = found else {
        drop(head);
        return None;
    };
    when_last(rest, rule_with(head, body))
}

#[tactic(auto, unfolding(crate::specs::Speaking::rule_by))]
fn rule(
    alloc: Global,
    head: HeldLiteral,
    tokens: &[Lexeme],
    depth: u32,
) -> Result<Option<HeldSentence>, Starved>
    ensures { Gives (λ s. s) result (spec.rule_by limited depth head tokens.now) }
{
    match formula(alloc, tokens, depth) {
        Ok(found) => Ok(rule_of(head, found)),
        Err(e) => {
            drop(head);
            Err(e)
        }
    }
}

fn last_fact(
    alloc: Global,
    l: HeldLiteral,
    tokens: &[Lexeme],
) -> Result<Option<HeldSentence>, Starved>
    ensures { Gives (λ s. s) result (spec.when_last tokens.now (holding.fact_of limited l)) }
{
    if is_last(tokens) {
        Ok(Some(fact_of(alloc, l)?))
    } else {
        drop(l);
        Ok(None)
    }
}

#[tactic(auto, unfolding(crate::specs::Speaking::clause_by))]
fn clause(alloc: Global, tokens: &[Lexeme], depth: u32) -> Result<Option<HeldSentence>, Starved>
    ensures { Gives (λ s. s) result (spec.clause_by limited depth tokens.now) }
{
    let Some((l, rest)) = head(alloc, tokens, depth)? else {
        return Ok(None);
    };
    match after_if(rest) {
        Some(after) => rule(alloc, l, after, depth),
        None => last_fact(alloc, l, rest),
    }
}

fn plan_of(
    label: Option<Text>,
    trigger: HeldTrigger,
    context: HeldExpr,
    found: Option<(HeldBody, &[Lexeme])>,
) -> Option<HeldSentence>
    ensures { result ≡ spec.plan_of limited label trigger context (view_front found.entry) }
{
    let Some((body, rest)) = found else {
        drop(context);
        return None;
    };
    when_last(rest, plan_with(label, trigger, context, body))
}

fn with_body(
    alloc: Global,
    label: Option<Text>,
    trigger: HeldTrigger,
    context: HeldExpr,
    tokens: &[Lexeme],
    depth: u32,
) -> Result<Option<HeldSentence>, Starved>
    ensures { Gives (λ s. s) result (spec.plan_of limited label trigger context (spec.body_by limited depth tokens.now)) }
{
    match body(alloc, tokens, depth) {
        Ok(found) => Ok(plan_of(label, trigger, context, found)),
        Err(e) => {
            drop(context);
            Err(e)
        }
    }
}

fn with_context(
    alloc: Global,
    label: Option<Text>,
    trigger: HeldTrigger,
    tokens: &[Lexeme],
    depth: u32,
) -> Result<Option<HeldSentence>, Starved>
    ensures { Gives (λ s. s) result (spec.with_context limited depth label trigger tokens.now) }
{
    let Some((e, rest)) = context(alloc, tokens, depth)? else {
        return Ok(None);
    };
    with_body(alloc, label, trigger, e, rest, depth)
}

#[tactic(auto, unfolding(crate::specs::Speaking::plan_by))]
fn plan(alloc: Global, tokens: &[Lexeme], depth: u32) -> Result<Option<HeldSentence>, Starved>
    ensures { Gives (λ s. s) result (spec.plan_by limited depth tokens.now) }
{
    let Some((name, rest)) = label(alloc, tokens)? else {
        return Ok(None);
    };
    let Some((about, rest)) = trigger(alloc, rest, depth)? else {
        return Ok(None);
    };
    with_context(alloc, name, about, rest, depth)
}

/// What the tokens of a clause say, with at most so many open brackets.
#[tactic(auto, unfolding(crate::specs::Speaking::sentence_by))]
pub fn sentence(
    alloc: Global,
    tokens: &[Lexeme],
    depth: u32,
) -> Result<Option<HeldSentence>, Starved>
    ensures { Gives (λ s. s) result (spec.sentence_by limited depth tokens.now) }
{
    if starts_plan(tokens) {
        return plan(alloc, tokens, depth);
    }
    match after_bang(tokens) {
        Some(rest) => goal(alloc, rest, depth),
        None => clause(alloc, tokens, depth),
    }
}
