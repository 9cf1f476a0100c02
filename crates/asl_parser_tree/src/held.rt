//! What expressions mean as they are read, within the limits of trees.
//!
//! A tree past the limits is not kept, so that no tree is ever much larger than they allow: what is still asked of it
//! stays in its place.

ghost use Rattle.std.specs.Prelude.{◌≡◌, ◌&&◌, IfOk};
ghost use Rattle.asl_parser_tree.specs.Holding as spec;
ghost use Rattle.asl_parser_tree.specs.Holding.{limited};
ghost use Rattle.asl_parser_tree.specs.Meanings as meanings;

use crate::bounded::{Bounded, Held, HeldExpr, HeldTerm, Outline};
use crate::conjuncts::{has_parts, is_literal};
use crate::limits::{within_call, within_expr, within_literal, within_relation, within_term};
use crate::meaning;
use crate::meaning::{Joint, Meaning, Prefix, is_pure};
use crate::plain::{is_action, is_plain, is_plain_literal};
use asl_term::sequence::Starved;
use asl_term::syntax::{Expr, RelOp, Term};
use std::alloc::Global;

// ---- outlines

/// The outline of a term that is no literal: it stands only where a term is wanted. `plain` tells
/// that it holds no arithmetic.
pub fn term_outline(plain: bool) -> Outline
    ensures { result ≡ spec.term_outline plain }
{
    Outline {
        term: true,
        formula: false,
        item: false,
        plain,
        literal: false,
        parts: false,
    }
}

fn formula_outline(literal: bool, parts: bool) -> Outline
    ensures { result ≡ spec.formula_outline literal parts }
{
    Outline {
        term: false,
        formula: true,
        item: false,
        plain: false,
        literal,
        parts,
    }
}

fn relation_outline() -> Outline
    ensures { result ≡ spec.relation_outline }
{
    Outline {
        term: false,
        formula: true,
        item: true,
        plain: false,
        literal: false,
        parts: true,
    }
}

/// The outline of a call of an internal action: an item of a body, and a formula too where the
/// action is pure.
pub fn call_outline(pure: bool) -> Outline
    ensures { result ≡ spec.call_outline pure }
{
    Outline {
        term: false,
        formula: pure,
        item: true,
        plain: false,
        literal: false,
        parts: false,
    }
}

fn truth_outline(action: bool) -> Outline
    ensures { result ≡ spec.truth_outline action }
{
    Outline {
        term: true,
        formula: true,
        item: action,
        plain: true,
        literal: false,
        parts: false,
    }
}

/// The outline of a literal, which may stand as a term and as a formula; as an item of a body
/// without a sign only where it is an action.
pub fn literal_outline(action: bool, plain: bool) -> Outline
    ensures { result ≡ spec.literal_outline action plain }
{
    Outline {
        term: true,
        formula: true,
        item: action,
        plain,
        literal: true,
        parts: true,
    }
}

fn outline(m: &Meaning) -> Outline
    ensures { result ≡ spec.outline m.now }
{
    match m {
        Meaning::Truth(b, _) => truth_outline(*b),
        Meaning::Literal(l) => literal_outline(is_action(l), is_plain_literal(l)),
        Meaning::Term(t) => term_outline(is_plain(t)),
        Meaning::Relation(_) => relation_outline(),
        Meaning::Call(c) => call_outline(is_pure(&c.name, c.args.len())),
        Meaning::Formula(e) => formula_outline(is_literal(e.get()), has_parts(e.get())),
    }
}

fn outline_of(h: &Held) -> Outline
    ensures { result ≡ spec.outline_of h.now }
{
    match h {
        Bounded::Within(m) => outline(m),
        Bounded::Past(o) => *o,
    }
}

// ---- keeping

fn is_small(m: &Meaning) -> bool
    ensures { result ≡ spec.is_small limited m.now }
{
    match m {
        Meaning::Truth(_, _) => true,
        Meaning::Literal(l) => within_literal(l),
        Meaning::Term(t) => within_term(t),
        Meaning::Relation(r) => within_relation(r.get()),
        Meaning::Call(c) => within_call(c),
        Meaning::Formula(e) => within_expr(e.get()),
    }
}

/// The meaning, where its tree is within the limits.
pub fn hold(m: Meaning) -> Held
    ensures { result ≡ spec.hold limited m }
{
    if is_small(&m) {
        Bounded::Within(m)
    } else {
        let o = outline(&m);
        drop(m);
        Bounded::Past(o)
    }
}

fn held_if(m: Option<Meaning>) -> Option<Held>
    ensures { result ≡ spec.hold_if limited m }
{
    Some(hold(m?))
}

fn hold_term(t: Term) -> HeldTerm
    ensures { result ≡ spec.hold_term limited t }
{
    if within_term(&t) {
        Bounded::Within(t)
    } else {
        let plain = is_plain(&t);
        drop(t);
        Bounded::Past(plain)
    }
}

// ---- terms and formulas

fn small_term(m: Meaning) -> Option<HeldTerm>
    ensures { result ≡ spec.small_term limited m }
{
    match m {
        Meaning::Truth(_, l) => Some(hold_term(Term::Lit(l))),
        Meaning::Literal(l) => Some(Bounded::Within(Term::Lit(l))),
        Meaning::Term(t) => Some(Bounded::Within(t)),
        Meaning::Relation(r) => {
            drop(r);
            None
        }
        Meaning::Call(c) => {
            drop(c);
            None
        }
        Meaning::Formula(e) => {
            drop(e);
            None
        }
    }
}

/// As a term.
pub fn as_term(h: Held) -> Option<HeldTerm>
    ensures { result ≡ spec.as_term limited h }
{
    match h {
        Bounded::Within(m) => small_term(m),
        Bounded::Past(o) => {
            if o.term {
                Some(Bounded::Past(o.plain))
            } else {
                None
            }
        }
    }
}

fn small_formula(m: Meaning) -> Option<HeldExpr>
    ensures { result ≡ spec.small_formula m }
{
    Some(Bounded::Within(meaning::as_formula(m)?))
}

/// As a formula, which holds no action of a body.
pub fn as_formula(h: Held) -> Option<HeldExpr>
    ensures { result ≡ spec.as_formula h }
{
    match h {
        Bounded::Within(m) => small_formula(m),
        Bounded::Past(o) => {
            if o.formula {
                Some(Bounded::Past(o.parts))
            } else {
                None
            }
        }
    }
}

// ---- operations

fn past_if(b: bool, o: Outline) -> Option<Held>
    ensures { result ≡ spec.past_if b o }
{
    if b { Some(Bounded::Past(o)) } else { None }
}

fn large_joint(joint: Joint, left: Outline, right: Outline) -> Option<Held>
    ensures { result ≡ spec.large_joint joint left right }
{
    match joint {
        Joint::Or => past_if(left.formula && right.formula, formula_outline(false, false)),
        Joint::And => past_if(
            left.formula && right.formula,
            formula_outline(false, left.parts && right.parts),
        ),
        Joint::Arith(_) => past_if(left.term && right.term, term_outline(false)),
    }
}

fn small_joined(
    alloc: Global,
    joint: Joint,
    left: Meaning,
    right: Meaning,
) -> Result<Option<Held>, Starved>
    ensures { IfOk result (λ r. r ≡ spec.hold_if limited (meanings.joined joint left right)) }
{
    match meaning::joined(alloc, joint, left, right) {
        Ok(m) => Ok(held_if(m)),
        Err(e) => Err(e),
    }
}

#[tactic(auto, unfolding(crate::specs::Holding::joined))]
fn joined_within(
    alloc: Global,
    joint: Joint,
    left: Meaning,
    right: Held,
) -> Result<Option<Held>, Starved>
    ensures { IfOk result (λ r. r ≡ spec.joined limited joint (Bounded.Within left) right) }
{
    match right {
        Bounded::Within(right) => small_joined(alloc, joint, left, right),
        Bounded::Past(o) => {
            let other = outline(&left);
            drop(left);
            Ok(large_joint(joint, other, o))
        }
    }
}

/// Two operands and what stands between them.
#[tactic(auto, unfolding(crate::specs::Holding::joined))]
pub fn joined(alloc: Global, joint: Joint, left: Held, right: Held) -> Result<Option<Held>, Starved>
    ensures { IfOk result (λ r. r ≡ spec.joined limited joint left right) }
{
    match left {
        Bounded::Within(left) => joined_within(alloc, joint, left, right),
        Bounded::Past(o) => {
            let other = outline_of(&right);
            drop(right);
            Ok(large_joint(joint, o, other))
        }
    }
}

fn large_relation(left: Outline, right: Outline) -> Option<Held>
    ensures { result ≡ spec.past_if (left.term && right.term) spec.relation_outline }
{
    past_if(left.term && right.term, relation_outline())
}

#[tactic(auto, unfolding(crate::specs::Holding::compared))]
fn compared_within(
    alloc: Global,
    op: RelOp,
    left: Meaning,
    right: Held,
) -> Result<Option<Held>, Starved>
    ensures { IfOk result (λ r. r ≡ spec.compared limited op (Bounded.Within left) right) }
{
    match right {
        Bounded::Within(right) => match meaning::compared(alloc, op, left, right) {
            Ok(m) => Ok(held_if(m)),
            Err(starved) => Err(starved),
        },
        Bounded::Past(o) => {
            let other = outline(&left);
            drop(left);
            Ok(large_relation(other, o))
        }
    }
}

/// Two terms and a relation between them.
#[tactic(auto, unfolding(crate::specs::Holding::compared))]
pub fn compared(alloc: Global, op: RelOp, left: Held, right: Held) -> Result<Option<Held>, Starved>
    ensures { IfOk result (λ r. r ≡ spec.compared limited op left right) }
{
    match left {
        Bounded::Within(left) => compared_within(alloc, op, left, right),
        Bounded::Past(o) => {
            let other = outline_of(&right);
            drop(right);
            Ok(large_relation(o, other))
        }
    }
}

fn small_prefixed(alloc: Global, prefix: Prefix, m: Meaning) -> Result<Option<Held>, Starved>
    ensures { IfOk result (λ r. r ≡ spec.hold_if limited (meanings.prefixed prefix m)) }
{
    match meaning::prefixed(alloc, prefix, m) {
        Ok(m) => Ok(held_if(m)),
        Err(e) => Err(e),
    }
}

fn large_prefix(prefix: Prefix, o: Outline) -> Option<Held>
    ensures { result ≡ spec.large_prefix prefix o }
{
    match prefix {
        Prefix::Not => past_if(o.formula, formula_outline(false, o.literal)),
        Prefix::Minus => past_if(o.term, term_outline(false)),
    }
}

/// An operand and what stands before it.
#[tactic(auto, unfolding(crate::specs::Holding::prefixed))]
pub fn prefixed(alloc: Global, prefix: Prefix, h: Held) -> Result<Option<Held>, Starved>
    ensures { IfOk result (λ r. r ≡ spec.prefixed limited prefix h) }
{
    match h {
        Bounded::Within(m) => small_prefixed(alloc, prefix, m),
        Bounded::Past(o) => Ok(large_prefix(prefix, o)),
    }
}
