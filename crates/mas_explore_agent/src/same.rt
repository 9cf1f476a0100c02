//! Whether two agents go on alike.

ghost use Rattle.std.specs.Prelude.{◌≡◌, true, IfOk};
ghost use Rattle.mas_explore_agent.specs.Same as spec;

use asl_cycle::agent::Agent;
use asl_exec_circumstance::peers::Peers;
use asl_intend::stack::Stack;
use asl_resolve::answers::Budgets;
use asl_same::lists::{Same, same_all};
use asl_same::names::same_names;
use asl_term::compare_expr::equal_literal;
use asl_term::sequence::{Seq, Starved};
use asl_term::syntax::{Literal, Literals};
use asl_unify::limits::TermFault;
use mas_explore_tables::mixing::{mix_text, stirred};
use mas_explore_tables::table::Known;
use mas_mind::mind::Feedback;
use std::alloc::Global;

fn same_peers(a: &Peers, b: &Peers) -> bool
    ensures { result ≡ true → a.now ≡ b.now }
{
    a.me == b.me && same_names(a.names.get(), b.names.get())
}

fn same_feedback(a: Option<Feedback>, b: Option<Feedback>) -> bool
    ensures { result ≡ true → a ≡ b }
{
    match (a, b) {
        (None, None) => true,
        (Some(x), Some(y)) => x == y,
        _ => false,
    }
}

fn same_budgets(a: Budgets, b: Budgets) -> bool
    ensures { result ≡ true → a ≡ b }
{
    a.depth == b.depth && a.tries == b.tries
}

/// Whether their numbers, what they were told, and what no cycle changes are the same, but for plans and rules.
#[tactic(auto, using(crate::proofs::Sames::same_frame_of))]
fn same_frame(a: &Agent, b: &Agent) -> bool
    ensures { result ≡ true → spec.SameFrame a.now b.now }
{
    a.number() == b.number()
        && a.asks() == b.asks()
        && a.awaits() == b.awaits()
        && a.level() == b.level()
        && same_budgets(a.budgets(), b.budgets())
        && same_feedback(a.kept(), b.kept())
        && same_peers(a.peers(), b.peers())
}

/// Whether the first so many of two lists of literals are the same.
fn same_first(a: &Literals, b: &Literals, n: u64) -> bool
    ensures { result ≡ true → spec.SameUpTo n a.now b.now }
{
    for i in 0..n {
        let (Some(x), Some(y)) = (a.at(i), b.at(i)) else {
            return false;
        };
        if !equal_literal(x, y) {
            return false;
        }
    }
    true
}

#[tactic(auto, using(asl_same::proofs::Items::same_list))]
fn same_literals(a: &Literals, b: &Literals) -> bool
    ensures { result ≡ true → a.now ≡ b.now }
{
    let n = a.len();
    n == b.len() && same_first(a, b, n)
}

/// Whether their beliefs are the same, in order.
fn same_beliefs(alloc: Global, a: &Agent, b: &Agent) -> Result<bool, Starved>
    ensures { IfOk result (λ r. r ≡ true → a.now.parts.beliefs ≡ b.now.parts.beliefs) }
{
    let x = a.copy_beliefs(alloc)?;
    let r = match b.copy_beliefs(alloc) {
        Ok(y) => {
            let r = same_literals(&x, &y);
            drop(y);
            Ok(r)
        }
        Err(Starved) => Err(Starved),
    };
    drop(x);
    r
}

/// Whether two agents are the same, but for the number of their cycles and what they have shown.
#[tactic(auto, using(crate::proofs::Sames::same_but_of))]
pub fn same_agent(alloc: Global, a: &Agent, b: &Agent) -> Result<bool, Starved>
    ensures { IfOk result (λ r. r ≡ true → spec.SameBut a.now b.now) }
{
    if !same_frame(a, b) {
        return Ok(false);
    }
    let beliefs = same_beliefs(alloc, a, b)?;
    if !beliefs {
        return Ok(false);
    }
    let agenda = a.agenda().same(alloc, b.agenda())?;
    if !agenda {
        return Ok(false);
    }
    let plans = same_all(alloc, a.plans(), b.plans())?;
    if !plans {
        return Ok(false);
    }
    let same = same_all(alloc, a.rules(), b.rules())?;
    Ok(same)
}

/// A number of what stands on top of a stack.
fn mix_stack(alloc: Global, s: &Stack) -> Result<u64, Starved> {
    let own = stirred(s.len(), s.left(0));
    match s.bounded_trigger(alloc, 0) {
        Ok(Some(t)) => {
            let mix = stirred(own, t.lit.mix());
            drop(t);
            Ok(mix)
        }
        Ok(None) | Err(TermFault::TermLimit) => Ok(own),
        Err(TermFault::Memory) => Err(Starved),
    }
}

fn mix_stacks(alloc: Global, stacks: &[Stack], first: u64) -> Result<u64, Starved> {
    let mut mix = first;
    for s in stacks {
        mix = stirred(mix, mix_stack(alloc, s)?);
    }
    Ok(mix)
}

/// A number that two agents have that are the same, but for the number of their cycles and what they have shown.
pub fn mix_agent(alloc: Global, a: &Agent) -> Result<u64, Starved> {
    let beliefs = a.copy_beliefs(alloc)?;
    let mix = stirred(beliefs.mix(), stirred(a.number(), a.asks()));
    drop(beliefs);
    let (front, back) = a.agenda().running.parts();
    let mix = mix_stacks(alloc, front, mix)?;
    let mix = mix_stacks(alloc, back, mix)?;
    let (events, later) = a.agenda().events.parts();
    let events = events.len() as u64 + later.len() as u64;
    Ok(stirred(mix, stirred(events, a.plans().len() as u64)))
}
