//! Whether a goal is covered, at one agent and at all that it is sent to.

ghost use Rattle.std.specs.Prelude.{◌≡◌, IfOk};
ghost use Rattle.std.specs.List.{list_all};
ghost use Rattle.asl_lint.specs.Goals as spec;

use crate::covers::covers;
use asl_term::names::{Names, find};
use asl_term::sequence::Starved;
use asl_term::syntax::{AgentText, Kind, Literal, Plan, Term};
use std::alloc::Global;

fn is_achieve(k: Kind) -> bool
    ensures { result ≡ spec.is_achieve k }
{
    match k {
        Kind::Achieve => true,
        Kind::Belief | Kind::Test => false,
    }
}

fn is_test(k: Kind) -> bool
    ensures { result ≡ spec.is_test k }
{
    match k {
        Kind::Test => true,
        Kind::Belief | Kind::Achieve => false,
    }
}

/// Whether some plan for `+!h` has an `h` that covers the goal.
pub fn achieves(alloc: Global, plans: &[Plan], g: &Literal) -> Result<bool, Starved>
    ensures { IfOk result (λ b. b ≡ spec.achieves plans.now g.now) }
{
    for p in plans {
        if p.trigger.add && is_achieve(p.trigger.kind) && covers(alloc, &p.trigger.lit, g)? {
            return Ok(true);
        }
    }
    Ok(false)
}

/// The same for `+?h`.
pub fn tests(alloc: Global, plans: &[Plan], g: &Literal) -> Result<bool, Starved>
    ensures { IfOk result (λ b. b ≡ spec.tests plans.now g.now) }
{
    for p in plans {
        if p.trigger.add && is_test(p.trigger.kind) && covers(alloc, &p.trigger.lit, g)? {
            return Ok(true);
        }
    }
    Ok(false)
}

/// The agents whose plans have to be for a goal that is sent.
#[derive(Clone, Copy, Drop)]
pub enum Receivers {
    All,
    One(u32),
    Nobody,
}

/// An atom is a positive literal without arguments and annotations.
pub fn is_atom(l: &Literal) -> bool
    ensures { result ≡ spec.is_atom l.now }
{
    !l.neg && l.args.len() == 0 && l.annots.len() == 0
}

/// The agents that a receiver is: all where it is a variable, and the one that an atom names.
pub fn sent_to(names: &Names, to: &Term) -> Receivers
    ensures { result ≡ spec.sent_to names.now to.now }
{
    match to {
        Term::Var(_) => Receivers::All,
        Term::Lit(l) => {
            if !is_atom(l) {
                return Receivers::Nobody;
            }
            match find(names, &l.functor) {
                Some(n) => Receivers::One(n),
                None => Receivers::Nobody,
            }
        }
        _ => Receivers::Nobody,
    }
}

/// Whether each of these agents covers a goal.
fn achieved_by_all(alloc: Global, texts: &[AgentText], g: &Literal) -> Result<bool, Starved>
    ensures { IfOk result (λ b. b ≡ list_all (λ text. spec.achieves text.plans g.now) texts.now) }
{
    for text in texts {
        if !achieves(alloc, text.plans.as_slice(), g)? {
            return Ok(false);
        }
    }
    Ok(true)
}

/// Whether each receiver covers a goal.
pub fn achieved_by(
    alloc: Global,
    texts: &[AgentText],
    to: Receivers,
    g: &Literal,
) -> Result<bool, Starved>
    ensures { IfOk result (λ b. b ≡ spec.achieved_by texts.now to g.now) }
{
    match to {
        Receivers::All => achieved_by_all(alloc, texts, g),
        Receivers::One(n) => match texts.get((n as usize).saturating_sub(1)) {
            Some(text) => achieves(alloc, text.plans.as_slice(), g),
            None => Ok(true),
        },
        Receivers::Nobody => Ok(true),
    }
}
