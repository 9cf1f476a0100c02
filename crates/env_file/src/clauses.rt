//! Clauses of world files, read from their tokens.

ghost use Rattle.std.specs.Prelude.{◌≡◌, length};
ghost use Rattle.asl_parser_tree.specs.Holding.{limited};
ghost use Rattle.asl_parser_tree.specs.Leaves.{Gives, view_front};
ghost use Rattle.asl_parser.specs.Speaking as grammar;
ghost use Rattle.env_file.specs.Speaking as spec;

use crate::marks::{
    after_right_arrow, after_true, after_word, before_name, doer_at, has_annots, has_variable,
    name_at,
};
use crate::saying::{act_with, effect_of, fact_of, guard_of, put_effect};
use crate::statement::{Effect, HeldEffect, HeldEffects, HeldGuard, HeldStatement, Statement};
use asl_parser::marks::{add_at, after_colon, is_last};
use asl_parser_expr::reading::{expression, literal};
use asl_parser_tree::bounded::{Bounded, Held, HeldExpr, HeldLiteral};
use asl_parser_tree::held::as_formula;
use asl_parser_tree::leaves::after_comma;
use asl_parser_tree::lexeme::Lexeme;
use asl_parser_tree::parts::literal_plain;
use asl_term::sequence::{Seq, Starved};
use asl_term::syntax::Term;
use std::alloc::Global;

fn as_condition(found: Option<(Held, &[Lexeme])>) -> Option<(HeldExpr, &[Lexeme])>
    ensures { view_front result ≡ grammar.as_condition (view_front found.entry) }
{
    let (m, rest) = found?;
    let e = as_formula(m)?;
    Some((e, rest))
}

#[tactic(auto, unfolding(asl_parser::specs::Speaking::formula_by))]
fn formula(
    alloc: Global,
    tokens: &[Lexeme],
    depth: u32,
) -> Result<Option<(HeldExpr, &[Lexeme])>, Starved>
    ensures { Gives (λ x. (x.0, x.1.now)) result (grammar.formula_by limited depth tokens.now) }
{
    match expression(alloc, tokens, depth) {
        Ok(found) => Ok(as_condition(found)),
        Err(e) => Err(e),
    }
}

/// A literal without arithmetic.
#[tactic(auto, unfolding(asl_parser::specs::Speaking::head_by))]
fn head(
    alloc: Global,
    tokens: &[Lexeme],
    depth: u32,
) -> Result<Option<(HeldLiteral, &[Lexeme])>, Starved>
    ensures { Gives (λ x. (x.0, x.1.now)) result (grammar.head_by limited depth tokens.now) }
{
    let Some((l, rest)) = literal(alloc, tokens, depth)? else {
        return Ok(None);
    };
    if literal_plain(&l) {
        Ok(Some((l, rest)))
    } else {
        drop(l);
        Ok(None)
    }
}

fn as_guard(found: Option<(HeldExpr, &[Lexeme])>) -> Option<(HeldGuard, &[Lexeme])>
    ensures { view_front result ≡ spec.as_guard (view_front found.entry) }
{
    let (e, rest) = found?;
    let guard = guard_of(e)?;
    Some((guard, rest))
}

fn some_guard(
    alloc: Global,
    tokens: &[Lexeme],
    depth: u32,
) -> Result<Option<(HeldGuard, &[Lexeme])>, Starved>
    ensures { Gives (λ x. (x.0, x.1.now)) result (spec.some_guard_by limited depth tokens.now) }
{
    match formula(alloc, tokens, depth) {
        Ok(found) => Ok(as_guard(found)),
        Err(e) => Err(e),
    }
}

#[tactic(auto, unfolding(crate::specs::Speaking::guard_by))]
fn guard(
    alloc: Global,
    tokens: &[Lexeme],
    depth: u32,
) -> Result<Option<(HeldGuard, &[Lexeme])>, Starved>
    ensures { Gives (λ x. (x.0, x.1.now)) result (spec.guard_by limited depth tokens.now) }
{
    match after_colon(tokens) {
        Some(rest) => some_guard(alloc, rest, depth),
        None => Ok(Some((Bounded::Within(None), tokens))),
    }
}

#[tactic(auto, unfolding(crate::specs::Speaking::change_by))]
fn change(
    alloc: Global,
    add: bool,
    tokens: &[Lexeme],
    depth: u32,
) -> Result<Option<(Option<HeldEffect>, &[Lexeme])>, Starved>
    ensures { Gives (λ x. (x.0, x.1.now)) result (spec.change_by limited depth (add, tokens.now)) }
{
    let Some((l, rest)) = literal(alloc, tokens, depth)? else {
        return Ok(None);
    };
    Ok(Some((Some(effect_of(add, l)), rest)))
}

fn no_change(tokens: &[Lexeme]) -> Option<(Option<HeldEffect>, &[Lexeme])>
    ensures { view_front result ≡ spec.nothing_by tokens.now }
{
    let rest = after_true(tokens)?;
    Some((None, rest))
}

fn dropped(
    alloc: Global,
    tokens: &[Lexeme],
) -> Result<Option<(Option<HeldEffect>, &[Lexeme])>, Starved>
    ensures { Gives (λ x. (x.0, x.1.now)) result (spec.dropped_by tokens.now) }
{
    let Some((name, rest)) = name_at(alloc, tokens)? else {
        return Ok(None);
    };
    Ok(Some((Some(Bounded::Within(Effect::Dropped(name))), rest)))
}

/// An effect without a sign.
fn word(
    alloc: Global,
    tokens: &[Lexeme],
) -> Result<Option<(Option<HeldEffect>, &[Lexeme])>, Starved>
    ensures { Gives (λ x. (x.0, x.1.now)) result (spec.word_by tokens.now) }
{
    match after_word(b"drop".as_slice(), tokens) {
        Some(rest) => dropped(alloc, rest),
        None => Ok(no_change(tokens)),
    }
}

#[tactic(auto, unfolding(crate::specs::Speaking::effect_by))]
fn effect(
    alloc: Global,
    tokens: &[Lexeme],
    depth: u32,
) -> Result<Option<(Option<HeldEffect>, &[Lexeme])>, Starved>
    ensures { Gives (λ x. (x.0, x.1.now)) result (spec.effect_by limited depth tokens.now) }
{
    match add_at(tokens) {
        Some((add, rest)) => change(alloc, add, rest, depth),
        None => word(alloc, tokens),
    }
}

/// The effects of an act.
#[tactic(auto, using(crate::proofs::Effects::effects_begin, crate::proofs::Effects::effect_shorter, asl_parser_expr::proofs::Loop::comma_shorter))]
fn effect_list(
    alloc: Global,
    tokens: &[Lexeme],
    depth: u32,
) -> Result<Option<(HeldEffects, &[Lexeme])>, Starved>
    ensures { Gives (λ x. (x.0, x.1.now)) result (spec.effect_list_by (spec.effect_by limited depth) (length tokens.now) tokens.now) }
{
    let mut all = Bounded::Within(Seq::new(alloc));
    let mut rest = tokens;
    'effects: loop {
        let Some((e, after)) = effect(alloc, rest, depth)? else {
            return Ok(None);
        };
        all = put_effect(all, e)?;
        let Some(next) = after_comma(after) else {
            return Ok(Some((all, after)));
        };
        rest = next;
    }
}

fn when_last(tokens: &[Lexeme], s: HeldStatement) -> Option<HeldStatement>
    ensures { result ≡ spec.when_last tokens.now s }
{
    if is_last(tokens) {
        Some(s)
    } else {
        drop(s);
        None
    }
}

fn act_of(
    head: HeldLiteral,
    by: Term,
    guard: HeldGuard,
    found: Option<(HeldEffects, &[Lexeme])>,
) -> Option<HeldStatement>
    ensures { result ≡ spec.act_of limited head by guard (view_front found.entry) }
{
    let Some((effects, rest)) = found else {
        drop(by);
        drop(guard);
        return None;
    };
    when_last(rest, act_with(head, by, guard, effects))
}

fn ended(
    alloc: Global,
    head: HeldLiteral,
    by: Term,
    guard: HeldGuard,
    tokens: &[Lexeme],
    depth: u32,
) -> Result<Option<HeldStatement>, Starved>
    ensures { Gives (λ s. s) result (spec.act_of limited head by guard (spec.effects_by limited depth tokens.now)) }
{
    match effect_list(alloc, tokens, depth) {
        Ok(found) => Ok(act_of(head, by, guard, found)),
        Err(e) => {
            drop(by);
            drop(guard);
            Err(e)
        }
    }
}

#[tactic(auto, unfolding(crate::specs::Speaking::with_effects_by))]
fn with_effects(
    alloc: Global,
    head: HeldLiteral,
    by: Term,
    guard: HeldGuard,
    tokens: &[Lexeme],
    depth: u32,
) -> Result<Option<HeldStatement>, Starved>
    ensures { Gives (λ s. s) result (spec.with_effects_by limited depth head by guard tokens.now) }
{
    match after_right_arrow(tokens) {
        Some(rest) => ended(alloc, head, by, guard, rest, depth),
        None => {
            drop(by);
            drop(guard);
            Ok(None)
        }
    }
}

#[tactic(auto, unfolding(crate::specs::Speaking::with_guard_by))]
fn with_guard(
    alloc: Global,
    head: HeldLiteral,
    by: Term,
    tokens: &[Lexeme],
    depth: u32,
) -> Result<Option<HeldStatement>, Starved>
    ensures { Gives (λ s. s) result (spec.with_guard_by limited depth head by tokens.now) }
{
    let Some((g, rest)) = guard(alloc, tokens, depth)? else {
        return Ok(None);
    };
    with_effects(alloc, head, by, g, rest, depth)
}

#[tactic(auto, unfolding(crate::specs::Speaking::doer_by))]
fn doer(alloc: Global, tokens: &[Lexeme]) -> Result<Option<(Term, &[Lexeme])>, Starved>
    ensures { Gives (λ x. (x.0, x.1.now)) result (spec.doer_by tokens.now) }
{
    match after_word(b"by".as_slice(), tokens) {
        Some(rest) => doer_at(alloc, rest),
        None => Ok(None),
    }
}

#[tactic(auto, unfolding(crate::specs::Speaking::act_by))]
fn act(alloc: Global, tokens: &[Lexeme], depth: u32) -> Result<Option<HeldStatement>, Starved>
    ensures { Gives (λ s. s) result (spec.act_by limited depth tokens.now) }
{
    let Some((l, rest)) = head(alloc, tokens, depth)? else {
        return Ok(None);
    };
    let Some((by, rest)) = doer(alloc, rest)? else {
        return Ok(None);
    };
    with_guard(alloc, l, by, rest, depth)
}

#[tactic(auto, unfolding(crate::specs::Speaking::fact_by))]
fn fact(alloc: Global, tokens: &[Lexeme], depth: u32) -> Result<Option<HeldStatement>, Starved>
    ensures { Gives (λ s. s) result (spec.fact_by limited depth tokens.now) }
{
    if has_variable(tokens) {
        return Ok(None);
    }
    let Some((l, rest)) = head(alloc, tokens, depth)? else {
        return Ok(None);
    };
    Ok(when_last(rest, fact_of(l)))
}

#[tactic(auto, unfolding(crate::specs::Speaking::named_by))]
fn hide(alloc: Global, tokens: &[Lexeme]) -> Result<Option<HeldStatement>, Starved>
    ensures { Gives (λ s. s) result (spec.named_by spec.hide_of tokens.now) }
{
    let Some((name, rest)) = name_at(alloc, tokens)? else {
        return Ok(None);
    };
    Ok(when_last(rest, Bounded::Within(Statement::Hide(name))))
}

#[tactic(auto, unfolding(crate::specs::Speaking::named_by))]
fn used(alloc: Global, tokens: &[Lexeme]) -> Result<Option<HeldStatement>, Starved>
    ensures { Gives (λ s. s) result (spec.named_by spec.use_of tokens.now) }
{
    let Some((name, rest)) = name_at(alloc, tokens)? else {
        return Ok(None);
    };
    Ok(when_last(rest, Bounded::Within(Statement::Use(name))))
}

fn act_or_fact(
    alloc: Global,
    tokens: &[Lexeme],
    depth: u32,
) -> Result<Option<HeldStatement>, Starved>
    ensures { Gives (λ s. s) result (spec.act_or_fact limited depth tokens.now) }
{
    match before_name(b"act".as_slice(), tokens) {
        Some(rest) => act(alloc, rest, depth),
        None => fact(alloc, tokens, depth),
    }
}

fn use_or_other(
    alloc: Global,
    tokens: &[Lexeme],
    depth: u32,
) -> Result<Option<HeldStatement>, Starved>
    ensures { Gives (λ s. s) result (spec.use_or_other limited depth tokens.now) }
{
    match before_name(b"use".as_slice(), tokens) {
        Some(rest) => used(alloc, rest),
        None => act_or_fact(alloc, tokens, depth),
    }
}

fn bare(alloc: Global, tokens: &[Lexeme], depth: u32) -> Result<Option<HeldStatement>, Starved>
    ensures { Gives (λ s. s) result (spec.bare_by limited depth tokens.now) }
{
    match before_name(b"hide".as_slice(), tokens) {
        Some(rest) => hide(alloc, rest),
        None => use_or_other(alloc, tokens, depth),
    }
}

/// What the tokens of a clause say, with at most so many open brackets.
#[tactic(auto, unfolding(crate::specs::Speaking::statement_by))]
pub fn statement(
    alloc: Global,
    tokens: &[Lexeme],
    depth: u32,
) -> Result<Option<HeldStatement>, Starved>
    ensures { Gives (λ s. s) result (spec.statement_by limited depth tokens.now) }
{
    if has_annots(tokens) {
        return Ok(None);
    }
    bare(alloc, tokens, depth)
}
