//! What clauses say of the trees in them.

ghost use Rattle.std.specs.Prelude.{◌≡◌, [], ◌∷◌, ◌++◌, Some, IfOk};
ghost use Rattle.asl_parser_tree.specs.Holding.{limited};
ghost use Rattle.env_file.specs.Holding as spec;
ghost use Rattle.env_file.specs.Statements as statements;

use crate::limits::is_within;
use crate::statement::{
    Effect, Effects, HeldEffect, HeldEffects, HeldGuard, HeldStatement, Statement, WrittenAct,
};
use asl_parser_tree::bounded::{Bounded, HeldExpr, HeldLiteral};
use asl_parser_tree::conjuncts::has_parts;
use asl_term::sequence::Starved;
use asl_term::syntax::{Literal, Term};

/// What is kept of a guard, if it has parts.
pub fn guard_of(e: HeldExpr) -> Option<HeldGuard>
    ensures { result ≡ spec.guard_of e }
{
    match e {
        Bounded::Within(e) => {
            if has_parts(&e) {
                Some(Bounded::Within(Some(e)))
            } else {
                // Here and below a tree goes to `drop`: the proof of a function that ends one in place is long.
                drop(e);
                None
            }
        }
        Bounded::Past(parts) => { if parts { Some(Bounded::Past(())) } else { None } }
    }
}

fn changed(add: bool, l: Literal) -> Effect
    ensures { result ≡ statements.changed add l }
{
    if add {
        Effect::Added(l)
    } else {
        Effect::Deleted(l)
    }
}

/// What is kept of an effect with its sign.
pub fn effect_of(add: bool, l: HeldLiteral) -> HeldEffect
    ensures { result ≡ spec.effect_of add l }
{
    match l {
        Bounded::Within(l) => Bounded::Within(changed(add, l)),
        Bounded::Past(_) => Bounded::Past(()),
    }
}

fn with_effect(es: Effects, e: Effect) -> Result<HeldEffects, Starved>
    ensures { IfOk result (λ r. r ≡ Bounded.Within (es ++ e ∷ [])) }
{
    let mut all = es;
    all.push(e)?;
    Ok(Bounded::Within(all))
}

fn put_some(es: HeldEffects, e: HeldEffect) -> Result<HeldEffects, Starved>
    ensures { IfOk result (λ r. r ≡ spec.put_effect es (Some e)) }
{
    match es {
        Bounded::Within(es) => match e {
            Bounded::Within(e) => with_effect(es, e),
            Bounded::Past(()) => Ok(Bounded::Past(())),
        },
        Bounded::Past(()) => {
            drop(e);
            Ok(Bounded::Past(()))
        }
    }
}

/// One more effect, unless it is `true`.
pub fn put_effect(es: HeldEffects, e: Option<HeldEffect>) -> Result<HeldEffects, Starved>
    ensures { IfOk result (λ r. r ≡ spec.put_effect es e) }
{
    match e {
        Some(e) => put_some(es, e),
        None => Ok(es),
    }
}

// ---- statements

fn settle(s: Statement) -> HeldStatement
    ensures { result ≡ spec.hold_statement limited s }
{
    if is_within(&s) {
        Bounded::Within(s)
    } else {
        drop(s);
        Bounded::Past(())
    }
}

/// A fact of the world. `Past` where its literal is past the limits of trees.
pub fn fact_of(l: HeldLiteral) -> HeldStatement
    ensures { result ≡ spec.fact_of limited l }
{
    match l {
        Bounded::Within(l) => settle(Statement::Fact(l)),
        Bounded::Past(_) => Bounded::Past(()),
    }
}

fn small_act(head: Literal, by: Term, guard: HeldGuard, effects: HeldEffects) -> HeldStatement
    ensures { result ≡ spec.act_with limited (Bounded.Within head) by guard effects }
{
    match guard {
        Bounded::Within(guard) => match effects {
            Bounded::Within(effects) => settle(Statement::Act(WrittenAct {
                head,
                by,
                guard,
                effects,
            })),
            Bounded::Past(()) => {
                drop(by);
                drop(guard);
                Bounded::Past(())
            }
        },
        Bounded::Past(()) => {
            drop(by);
            Bounded::Past(())
        }
    }
}

/// An act of its parts. Where one of them is past the limits of trees, none of them is kept.
pub fn act_with(
    head: HeldLiteral,
    by: Term,
    guard: HeldGuard,
    effects: HeldEffects,
) -> HeldStatement
    ensures { result ≡ spec.act_with limited head by guard effects }
{
    match head {
        Bounded::Within(head) => small_act(head, by, guard, effects),
        Bounded::Past(_) => {
            drop(by);
            drop(guard);
            Bounded::Past(())
        }
    }
}
