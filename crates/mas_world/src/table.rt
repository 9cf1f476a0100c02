//! The act of a table that decides.

ghost use Rattle.std.specs.Prelude.{◌≡◌, [], IfOk};
ghost use Rattle.asl_unify.specs.Matches.{matches};
ghost use Rattle.mas_world.specs.Acts as spec;
ghost use Rattle.mas_world.specs.Guards.{first_of};

use crate::acts::Act;
use crate::facts::Deed;
use crate::guards::{first, ready};
use asl_term::copying::copy_text;
use asl_term::measure::ground_literal;
use asl_term::names::Names;
use asl_term::sequence::{Seq, Starved};
use asl_term::syntax::{Literal, LiteralOf, Literals, Term, Text};
use asl_unify::matching::{attempt, first_match};
use asl_unify::solve::{View, Work};
use asl_unify::subst::{Subst, no_subst};
use std::alloc::Global;

/// The name as an atom.
fn atom(alloc: Global, name: &Text) -> Result<Term, Starved>
    ensures { IfOk result (λ t. t ≡ spec.atom name.now) }
{
    Ok(Term::Lit(LiteralOf {
        neg: false,
        functor: copy_text(alloc, name)?,
        args: Seq::new(alloc),
        annots: Seq::new(alloc),
    }))
}

/// The first match of the act's literal with the action.
#[tactic(auto, using(crate::proofs::Firsts::front))]
fn answered(alloc: Global, a: &Act, action: &Literal) -> Result<Option<Subst>, Starved>
    ensures { IfOk result (λ r. r ≡ first_of (matches a.now.head action.now [])) }
{
    let none = no_subst(alloc);
    let r = first_match(alloc, &a.head, action, &none);
    drop(none);
    r
}

/// The substitution under which the act answers to the action of this agent.
fn entered(alloc: Global, a: &Act, agent: &Text, action: &Literal) -> Result<Option<Subst>, Starved>
    ensures { IfOk result (λ r. r ≡ spec.entered a.now agent.now action.now) }
{
    let Some(s) = answered(alloc, a, action)? else {
        return Ok(None);
    };
    let name = match atom(alloc, agent) {
        Ok(name) => name,
        Err(starved) => {
            drop(s);
            return Err(starved);
        }
    };
    let r = attempt(alloc, Work::Two(View::Whole(&a.by), View::Whole(&name)), &s);
    drop(name);
    drop(s);
    r
}

/// An effect under the substitution, if it settles and no variable is left in it.
fn effect(alloc: Global, l: &Literal, s: &Subst) -> Result<Option<Literal>, Starved>
    ensures { IfOk result (λ r. r ≡ spec.effect s.now l.now) }
{
    match ready(alloc, l, s)? {
        None => Ok(None),
        Some(x) => {
            if ground_literal(&x) {
                Ok(Some(x))
            } else {
                drop(x);
                Ok(None)
            }
        }
    }
}

/// All of them, or nothing.
fn effects(alloc: Global, ls: &[Literal], s: &Subst) -> Result<Option<Literals>, Starved>
    ensures { IfOk result (λ r. r ≡ spec.effects s.now ls.now) }
{
    let mut r = Seq::new(alloc);
    for l in ls {
        match effect(alloc, l, s)? {
            None => return Ok(None),
            Some(x) => r.push(x)?,
        }
    }
    Ok(Some(r))
}

/// The names in their order.
#[tactic(auto, using(crate::proofs::Naming::next_taken, crate::proofs::Naming::all_taken))]
fn copied(alloc: Global, names: &Names) -> Result<Seq<Text>, Starved>
    ensures { IfOk result (λ r. r ≡ names.now) }
{
    let mut all = Seq::new(alloc);
    for k in 0..names.len() {
        let Some(name) = names.at(k + 1) else {
            unreachable!()
        };
        all.push(copy_text(alloc, name)?)?;
    }
    Ok(all)
}

/// What the act takes away, adds and drops under a solution of its guard.
fn deed(alloc: Global, a: &Act, s: &Subst) -> Result<Option<Deed>, Starved>
    ensures { IfOk result (λ r. r ≡ spec.deed a.now s.now) }
{
    let drops = copied(alloc, &a.drops)?;
    let Some(dels) = effects(alloc, a.dels.as_slice(), s)? else {
        return Ok(None);
    };
    let Some(adds) = effects(alloc, a.adds.as_slice(), s)? else {
        return Ok(None);
    };
    Ok(Some(Deed::of(dels, adds, drops)))
}

/// What the act does on these facts, if it acts.
pub fn tried(
    alloc: Global,
    facts: &[Literal],
    a: &Act,
    agent: &Text,
    action: &Literal,
) -> Result<Option<Deed>, Starved>
    ensures { IfOk result (λ r. r ≡ spec.tried facts.now a.now agent.now action.now) }
{
    let Some(s) = entered(alloc, a, agent, action)? else {
        return Ok(None);
    };
    let found = first(alloc, facts, a.guard.as_slice(), &s);
    drop(s);
    match found {
        Err(starved) => Err(starved),
        Ok(None) => Ok(None),
        Ok(Some(t)) => {
            let r = deed(alloc, a, &t);
            drop(t);
            r
        }
    }
}

/// What the first act that acts does.
pub fn decided(
    alloc: Global,
    facts: &[Literal],
    acts: &[Act],
    agent: &Text,
    action: &Literal,
) -> Result<Option<Deed>, Starved>
    ensures { IfOk result (λ r. r ≡ spec.decided facts.now acts.now agent.now action.now) }
{
    for a in acts {
        if let Some(d) = tried(alloc, facts, a, agent, action)? {
            return Ok(Some(d));
        }
    }
    Ok(None)
}
