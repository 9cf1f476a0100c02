//! Expressions, read by a descent that returns what is left.

ghost use Rattle.std.specs.Prelude.{◌≡◌, ◌++◌, [], ◌∷◌, length, Some, IfOk, OnOk};
ghost use Rattle.asl_parser_tree.specs.Holding.{limited};
ghost use Rattle.asl_parser_expr.specs.Reading as spec;
ghost use Rattle.asl_parser_tree.specs.Leaves.{Gives, token_by, view_front};
ghost use Rattle.asl_parser_expr.specs.Reading.{inside};
ghost use Rattle.asl_parser_tree.specs.declared.leaves.OperatorLevel.TheVariants as levels;

use asl_parser_tree::bounded::{Bounded, Held, HeldListing, HeldLiteral, HeldTerms};
use asl_parser_tree::leaves::{
    BracketShape, OperatorLevel, Start, after_bar, after_close, after_comma, after_open,
    after_prefix, after_tilde, inner_at, joint_at, name_at, relation_at, start_of, token, variable,
    variable_at,
};
use asl_parser_tree::lexeme::Lexeme;
use asl_parser_tree::making::{Operands, made};
use asl_parser_tree::meaning::{Joint, Prefix};
use asl_parser_tree::parts::{as_terms, listed, literal_of};
use asl_term::boxed::Boxed;
use asl_term::copying::copy_text;
use asl_term::sequence::{Seq, Starved};
use asl_term::syntax::{ListingOf, RelOp, Text};
use std::alloc::Global;

fn keep(all: &mut Vec<Held>, m: Boxed<Held>) -> Result<(), Starved>
    ensures { OnOk result (all.new.items ≡ all.old.items ++ m ∷ []) }
{
    match all.push(m.into_inner()) {
        Ok(()) => Ok(()),
        Err(_) => Err(Starved),
    }
}

// What is made of what was read, with what follows it.
fn whole<'a>(
    alloc: Global,
    making: Operands<'_>,
    rest: &'a [Lexeme],
) -> Result<Option<(Boxed<Held>, &'a [Lexeme])>, Starved>
    ensures { Gives (λ x. (x.0, x.1.now)) result (spec.whole limited making.entry rest.now) }
{
    match made(alloc, making)? {
        Some(m) => Ok(Some((m, rest))),
        None => Ok(None),
    }
}

#[cycle(reader)]
fn operand(
    alloc: Global,
    level: OperatorLevel,
    tokens: &[Lexeme],
    depth: u32,
) -> Result<Option<(Boxed<Held>, &[Lexeme])>, Starved>
    ensures { Gives (λ x. (x.0, x.1.now)) result (spec.operand_by limited (inside limited depth) level tokens.now) }
{
    match level {
        OperatorLevel::Or => chain(alloc, OperatorLevel::And, tokens, depth),
        OperatorLevel::And => prefix(alloc, Prefix::Not, tokens, depth),
        OperatorLevel::Sum => chain(alloc, OperatorLevel::Product, tokens, depth),
        OperatorLevel::Product => prefix(alloc, Prefix::Minus, tokens, depth),
    }
}

// The left operand, joined to the right one where there is one.
fn join_to<'a>(
    alloc: Global,
    left: Boxed<Held>,
    joint: Joint,
    right: Option<(Boxed<Held>, &'a [Lexeme])>,
) -> Result<Option<(Boxed<Held>, &'a [Lexeme])>, Starved>
    ensures { Gives (λ x. (x.0, x.1.now)) result (spec.join_to limited left joint (view_front right.entry)) }
{
    match right {
        None => Ok(None),
        Some((m, rest)) => whole(alloc, Operands::Joined(joint, left, m), rest),
    }
}

// One more operator and its right operand, joined to the left one.
#[cycle(reader)]
#[tactic(auto, unfolding(crate::specs::Reading::step_by))]
fn step<'a>(
    alloc: Global,
    level: OperatorLevel,
    left: Boxed<Held>,
    joint: Joint,
    tokens: &'a [Lexeme],
    depth: u32,
) -> Result<Option<(Boxed<Held>, &'a [Lexeme])>, Starved>
    ensures { Gives (λ x. (x.0, x.1.now)) result (spec.step_by limited (spec.operand_by limited (inside limited depth) level) left (joint, tokens.now)) }
{
    match operand(alloc, level, tokens, depth) {
        Ok(right) => join_to(alloc, left, joint, right),
        Err(e) => Err(e),
    }
}

#[cycle(reader)]
#[tactic(auto, using(crate::proofs::Loop::links, crate::proofs::Sound::step_shorter))]
fn chain(
    alloc: Global,
    level: OperatorLevel,
    tokens: &[Lexeme],
    depth: u32,
) -> Result<Option<(Boxed<Held>, &[Lexeme])>, Starved>
    ensures { Gives (λ x. (x.0, x.1.now)) result (spec.level_by limited (inside limited depth) level tokens.now) }
{
    let Some((mut left, mut rest)) = operand(alloc, level, tokens, depth)? else {
        return Ok(None);
    };
    'steps: while let Some((joint, after)) = joint_at(level, rest) {
        let Some((m, behind)) = step(alloc, level, left, joint, after, depth)? else {
            return Ok(None);
        };
        left = m;
        rest = behind;
    }
    Ok(Some((left, rest)))
}

#[cycle(reader)]
fn base(
    alloc: Global,
    before: Prefix,
    tokens: &[Lexeme],
    depth: u32,
) -> Result<Option<(Boxed<Held>, &[Lexeme])>, Starved>
    ensures { Gives (λ x. (x.0, x.1.now)) result (spec.base_by limited (inside limited depth) before tokens.now) }
{
    match before {
        Prefix::Not => relation(alloc, tokens, depth),
        Prefix::Minus => primary(alloc, tokens, depth),
    }
}

// Wraps what was read, this many times.
#[tactic(auto, using(crate::proofs::Loop::wrap_stops, crate::proofs::Loop::wrap_more))]
fn wraps<'a>(
    alloc: Global,
    before: Prefix,
    count: usize,
    m: Boxed<Held>,
    rest: &'a [Lexeme],
) -> Result<Option<(Boxed<Held>, &'a [Lexeme])>, Starved>
    ensures { Gives (λ x. (x.0, x.1.now)) result (spec.wrapped limited before count (Some (m, rest.now))) }
{
    let mut whole = m;
    'wraps: for _ in 0..count {
        let Some(more) = made(alloc, Operands::Prefixed(before, whole))? else {
            return Ok(None);
        };
        whole = more;
    }
    Ok(Some((whole, rest)))
}

#[cycle(reader)]
#[tactic(auto, using(crate::proofs::Loop::passes, crate::proofs::Loop::passed_none, crate::proofs::Loop::passed_some))]
fn prefix(
    alloc: Global,
    before: Prefix,
    tokens: &[Lexeme],
    depth: u32,
) -> Result<Option<(Boxed<Held>, &[Lexeme])>, Starved>
    ensures { Gives (λ x. (x.0, x.1.now)) result (spec.prefix_by limited before (spec.base_by limited (inside limited depth) before) tokens.now) }
{
    let mut count: usize = 0;
    let mut rest = tokens;
    'prefixes: while let Some(after) = after_prefix(before, rest) {
        count += 1;
        rest = after;
    }
    let Some((m, behind)) = base(alloc, before, rest, depth)? else {
        return Ok(None);
    };
    wraps(alloc, before, count, m, behind)
}

// The left side, related to the right one where there is one.
fn relate_to<'a>(
    alloc: Global,
    left: Boxed<Held>,
    op: RelOp,
    right: Option<(Boxed<Held>, &'a [Lexeme])>,
) -> Result<Option<(Boxed<Held>, &'a [Lexeme])>, Starved>
    ensures { Gives (λ x. (x.0, x.1.now)) result (spec.relate_to limited left op (view_front right.entry)) }
{
    match right {
        None => Ok(None),
        Some((m, rest)) => whole(alloc, Operands::Compared(op, left, m), rest),
    }
}

// A relation and its right side.
#[cycle(reader)]
#[tactic(auto, unfolding(crate::specs::Reading::compared_by))]
fn side<'a>(
    alloc: Global,
    left: Boxed<Held>,
    op: RelOp,
    tokens: &'a [Lexeme],
    depth: u32,
) -> Result<Option<(Boxed<Held>, &'a [Lexeme])>, Starved>
    ensures { Gives (λ x. (x.0, x.1.now)) result (spec.compared_by limited (spec.sum_by limited (inside limited depth)) left (op, tokens.now)) }
{
    match chain(alloc, OperatorLevel::Sum, tokens, depth) {
        Ok(right) => relate_to(alloc, left, op, right),
        Err(e) => Err(e),
    }
}

#[cycle(reader)]
#[tactic(auto, unfolding(crate::specs::Reading::relation_by))]
fn relation(
    alloc: Global,
    tokens: &[Lexeme],
    depth: u32,
) -> Result<Option<(Boxed<Held>, &[Lexeme])>, Starved>
    ensures { Gives (λ x. (x.0, x.1.now)) result (spec.relation_by limited (inside limited depth) tokens.now) }
{
    let Some((left, rest)) = chain(alloc, OperatorLevel::Sum, tokens, depth)? else {
        return Ok(None);
    };
    match relation_at(rest) {
        Some((op, after)) => side(alloc, left, op, after, depth),
        None => Ok(Some((left, rest))),
    }
}

// What is a token or two.
#[inline(never)]
fn leaf(alloc: Global, tokens: &[Lexeme]) -> Result<Option<(Boxed<Held>, &[Lexeme])>, Starved>
    ensures { Gives (λ x. (x.0, x.1.now)) result (token_by tokens.now) }
{
    match token(alloc, tokens)? {
        Some((m, rest)) => Ok(Some((Boxed::new(alloc, m)?, rest))),
        None => Ok(None),
    }
}

#[cycle(reader)]
#[tactic(auto, unfolding(crate::specs::Reading::primary_by))]
fn primary(
    alloc: Global,
    tokens: &[Lexeme],
    depth: u32,
) -> Result<Option<(Boxed<Held>, &[Lexeme])>, Starved>
    ensures { Gives (λ x. (x.0, x.1.now)) result (spec.primary_by limited (inside limited depth) tokens.now) }
{
    match start_of(tokens) {
        Start::Bracket => bracketed(alloc, tokens, depth),
        Start::Square => {
            let Some((l, rest)) = list(alloc, tokens, depth)? else {
                return Ok(None);
            };
            whole(alloc, Operands::Listing(l), rest)
        }
        Start::Name => {
            let Some((l, rest)) = literal(alloc, tokens, depth)? else {
                return Ok(None);
            };
            whole(alloc, Operands::Literal(l), rest)
        }
        Start::Dotted => call(alloc, tokens, depth),
        Start::Other => leaf(alloc, tokens),
    }
}

#[cycle(reader)]
#[tactic(auto, unfolding(crate::specs::Reading::bracketed_by, crate::specs::Reading::inside))]
fn bracketed(
    alloc: Global,
    tokens: &[Lexeme],
    depth: u32,
) -> Result<Option<(Boxed<Held>, &[Lexeme])>, Starved>
    ensures { Gives (λ x. (x.0, x.1.now)) result (spec.bracketed_by (inside limited depth) tokens.now) }
{
    let Some(rest) = after_open(BracketShape::Round, tokens) else {
        return Ok(None);
    };
    if depth == 0 {
        return Ok(None);
    }
    let Some((m, rest)) = chain(alloc, OperatorLevel::Or, rest, depth - 1)? else {
        return Ok(None);
    };
    let Some(rest) = after_close(BracketShape::Round, rest) else {
        return Ok(None);
    };
    Ok(Some((m, rest)))
}

// What stands behind an opening bracket, up to the closing one.
#[cycle(reader)]
#[tactic(auto, unfolding(crate::specs::Reading::filled_by, crate::specs::Reading::inside))]
fn filled(
    alloc: Global,
    level: OperatorLevel,
    shape: BracketShape,
    tokens: &[Lexeme],
    depth: u32,
) -> Result<Option<(Vec<Held>, &[Lexeme])>, Starved>
    ensures { Gives (λ x. (x.0.items, x.1.now)) result (spec.filled_by (inside limited depth) level shape tokens.now) }
{
    if depth == 0 {
        return Ok(None);
    }
    let Some((all, rest)) = items(alloc, level, tokens, depth - 1)? else {
        return Ok(None);
    };
    let Some(rest) = after_close(shape, rest) else {
        return Ok(None);
    };
    Ok(Some((all, rest)))
}

#[cycle(reader)]
#[tactic(auto, unfolding(crate::specs::Reading::parts_by))]
fn parts(
    alloc: Global,
    level: OperatorLevel,
    shape: BracketShape,
    tokens: &[Lexeme],
    depth: u32,
) -> Result<Option<(Vec<Held>, &[Lexeme])>, Starved>
    ensures { Gives (λ x. (x.0.items, x.1.now)) result (spec.parts_by (inside limited depth) level shape tokens.now) }
{
    match after_open(shape, tokens) {
        Some(rest) => filled(alloc, level, shape, rest, depth),
        None => Ok(Some((Vec::new(alloc), tokens))),
    }
}

#[cycle(reader)]
#[tactic(auto, using(crate::proofs::Items::turns, crate::proofs::Sound::item_shorter, crate::proofs::Loop::comma_shorter))]
fn items(
    alloc: Global,
    level: OperatorLevel,
    tokens: &[Lexeme],
    depth: u32,
) -> Result<Option<(Vec<Held>, &[Lexeme])>, Starved>
    ensures { Gives (λ x. (x.0.items, x.1.now)) result (spec.items_by (spec.level_by limited (inside limited depth) level) (length tokens.now) tokens.now) }
{
    let mut all = Vec::new(alloc);
    let mut rest = tokens;
    'items: loop {
        let Some((m, after)) = chain(alloc, level, rest, depth)? else {
            return Ok(None);
        };
        keep(&mut all, m)?;
        let Some(next) = after_comma(after) else {
            return Ok(Some((all, after)));
        };
        rest = next;
    }
}

#[cycle(reader)]
#[tactic(auto, unfolding(crate::specs::Reading::terms_by))]
fn terms(
    alloc: Global,
    shape: BracketShape,
    tokens: &[Lexeme],
    depth: u32,
) -> Result<Option<(HeldTerms, &[Lexeme])>, Starved>
    ensures { Gives (λ x. (x.0, x.1.now)) result (spec.terms_by limited (inside limited depth) shape tokens.now) }
{
    let Some((all, rest)) = parts(alloc, OperatorLevel::Sum, shape, tokens, depth)? else {
        return Ok(None);
    };
    let Some(terms) = as_terms(alloc, all)? else {
        return Ok(None);
    };
    Ok(Some((terms, rest)))
}

// A literal behind its sign.
#[cycle(reader)]
#[tactic(auto, unfolding(crate::specs::Reading::atom_by))]
fn unsigned(
    alloc: Global,
    neg: bool,
    tokens: &[Lexeme],
    depth: u32,
) -> Result<Option<(HeldLiteral, &[Lexeme])>, Starved>
    ensures { Gives (λ x. (x.0, x.1.now)) result (spec.atom_by limited (inside limited depth) neg tokens.now) }
{
    let Some((name, rest)) = name_at(tokens) else {
        return Ok(None);
    };
    let Some((args, rest)) = terms(alloc, BracketShape::Round, rest, depth)? else {
        return Ok(None);
    };
    let Some((annots, rest)) = terms(alloc, BracketShape::Square, rest, depth)? else {
        return Ok(None);
    };
    let functor = copy_text(alloc, name)?;
    Ok(Some((literal_of(neg, functor, args, annots), rest)))
}

/// A literal at the front, with at most so many open brackets, and what follows it; none where the
/// tokens begin with no literal. `Starved` comes only when memory runs out.
#[cycle(reader)]
#[tactic(auto, unfolding(crate::specs::Reading::literal_by))]
pub fn literal(
    alloc: Global,
    tokens: &[Lexeme],
    depth: u32,
) -> Result<Option<(HeldLiteral, &[Lexeme])>, Starved>
    ensures { Gives (λ x. (x.0, x.1.now)) result (spec.literal_by limited (inside limited depth) tokens.now) }
{
    match after_tilde(tokens) {
        Some(rest) => unsigned(alloc, true, rest, depth),
        None => unsigned(alloc, false, tokens, depth),
    }
}

#[cycle(reader)]
#[tactic(auto, unfolding(crate::specs::Reading::call_by))]
fn call(
    alloc: Global,
    tokens: &[Lexeme],
    depth: u32,
) -> Result<Option<(Boxed<Held>, &[Lexeme])>, Starved>
    ensures { Gives (λ x. (x.0, x.1.now)) result (spec.call_by limited (inside limited depth) tokens.now) }
{
    let Some((name, rest)) = inner_at(tokens) else {
        return Ok(None);
    };
    let Some((all, rest)) = parts(alloc, OperatorLevel::Or, BracketShape::Round, rest, depth)?
    else {
        return Ok(None);
    };
    whole(alloc, Operands::Called(name, all), rest)
}

#[cycle(reader)]
#[tactic(auto, unfolding(crate::specs::Reading::list_by, crate::specs::Reading::inside))]
fn list(
    alloc: Global,
    tokens: &[Lexeme],
    depth: u32,
) -> Result<Option<(HeldListing, &[Lexeme])>, Starved>
    ensures { Gives (λ x. (x.0, x.1.now)) result (spec.list_by (inside limited depth) tokens.now) }
{
    let Some(rest) = after_open(BracketShape::Square, tokens) else {
        return Ok(None);
    };
    if depth == 0 {
        return Ok(None);
    }
    body(alloc, rest, depth - 1)
}

// What stands behind the bracket of a list.
#[cycle(reader)]
#[tactic(auto, unfolding(crate::specs::Reading::body_by))]
fn body(
    alloc: Global,
    tokens: &[Lexeme],
    depth: u32,
) -> Result<Option<(HeldListing, &[Lexeme])>, Starved>
    ensures { Gives (λ x. (x.0, x.1.now)) result (spec.body_by limited (inside limited depth) tokens.now) }
{
    match after_close(BracketShape::Square, tokens) {
        Some(rest) => Ok(Some((no_items(alloc), rest))),
        None => some(alloc, tokens, depth),
    }
}

#[cycle(reader)]
#[tactic(auto, unfolding(crate::specs::Reading::some_by))]
fn some(
    alloc: Global,
    tokens: &[Lexeme],
    depth: u32,
) -> Result<Option<(HeldListing, &[Lexeme])>, Starved>
    ensures { Gives (λ x. (x.0, x.1.now)) result (spec.some_by limited (inside limited depth) tokens.now) }
{
    let Some((all, rest)) = items(alloc, OperatorLevel::Sum, tokens, depth)? else {
        return Ok(None);
    };
    let Some(terms) = as_terms(alloc, all)? else {
        return Ok(None);
    };
    let Some((l, rest)) = tail(alloc, rest, depth)? else {
        return Ok(None);
    };
    let Some(rest) = after_close(BracketShape::Square, rest) else {
        return Ok(None);
    };
    Ok(Some((listed(terms, l)?, rest)))
}

fn no_items(alloc: Global) -> HeldListing
    ensures { result ≡ spec.no_items }
{
    Bounded::Within(ListingOf {
        items: Seq::new(alloc),
        tail: None,
    })
}

fn open_tail(alloc: Global, name: &Text) -> Result<HeldListing, Starved>
    ensures { IfOk result (λ r. r ≡ spec.open_tail name.now) }
{
    let tail = Boxed::new(alloc, variable(alloc, name)?)?;
    Ok(Bounded::Within(ListingOf {
        items: Seq::new(alloc),
        tail: Some(tail),
    }))
}

// What stands behind the items of a list.
#[cycle(reader)]
#[tactic(auto, unfolding(crate::specs::Reading::tail_by, crate::specs::Reading::tail_after))]
fn tail(
    alloc: Global,
    tokens: &[Lexeme],
    depth: u32,
) -> Result<Option<(HeldListing, &[Lexeme])>, Starved>
    ensures { Gives (λ x. (x.0, x.1.now)) result (spec.tail_by (inside limited depth) tokens.now) }
{
    let Some(rest) = after_bar(tokens) else {
        return Ok(Some((no_items(alloc), tokens)));
    };
    let Some((name, behind)) = variable_at(rest) else {
        return list(alloc, rest, depth);
    };
    Ok(Some((open_tail(alloc, name)?, behind)))
}

/// An expression at the front, with at most so many open brackets, and what follows it.
pub fn expression(
    alloc: Global,
    tokens: &[Lexeme],
    depth: u32,
) -> Result<Option<(Held, &[Lexeme])>, Starved>
    ensures { Gives (λ x. (x.0, x.1.now)) result (spec.level_by limited (inside limited depth) levels.Or tokens.now) }
{
    match chain(alloc, OperatorLevel::Or, tokens, depth)? {
        Some((m, rest)) => Ok(Some((m.into_inner(), rest))),
        None => Ok(None),
    }
}
