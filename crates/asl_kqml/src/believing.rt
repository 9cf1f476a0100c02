//! The rows Tell and Untell.

ghost use Rattle.std.specs.Prelude.{◌≡◌, true, IfOk, IfSome, OnOk};
ghost use Rattle.asl_beliefs.specs.Bases.{all_ground};
ghost use Rattle.asl_beliefs.specs.Changes as changes;
ghost use Rattle.asl_exec_circumstance.specs.Circumstance as parts;
ghost use Rattle.asl_kqml.specs.Receive as spec;

use crate::sourced::{all_only_from, all_sourced};
use crate::took::{Took, by};
use asl_beliefs::base::BeliefBase;
use asl_beliefs::removed::BeliefFault;
use asl_exec_circumstance::parts::{Circumstance, event_of, tell_one};
use asl_exec_circumstance::rows::Row;
use asl_term::sequence::Starved;
use asl_term::syntax::{Literal, Literals, Text};
use asl_unify::subst::no_subst;
use std::alloc::Global;

/// Adds literals one after another, and posts their events.
fn add_all<B: BeliefBase>(
    alloc: Global,
    p: &mut Circumstance<B>,
    ls: &[Literal],
) -> Result<(), Starved>
    requires { all_ground ls.now ≡ true }
    ensures beliefs { OnOk result (B.beliefs p.new.beliefs ≡ (changes.all_added ls.now (B.beliefs p.old.beliefs)).beliefs) }
    ensures agenda { OnOk result (p.new.agenda
        ≡ parts.told p.old.agenda (changes.all_added ls.now (B.beliefs p.old.beliefs)).events) }
    ensures rules { B.rules p.new.beliefs ≡ B.rules p.old.beliefs }
    ensures number { p.new.number ≡ p.old.number }
{
    for l in ls {
        match p.beliefs.add(alloc, l) {
            Ok(event) => tell_one(alloc, &mut p.agenda, event)?,
            Err(BeliefFault::NotGround) => unreachable!(),
            Err(BeliefFault::Memory) => return Err(Starved),
        }
    }
    Ok(())
}

/// Removes literals one after another, and posts their events.
fn remove_all<B: BeliefBase>(
    alloc: Global,
    p: &mut Circumstance<B>,
    ls: &[Literal],
) -> Result<(), Starved>
    ensures beliefs { OnOk result (B.beliefs p.new.beliefs ≡ (spec.all_removed ls.now (B.beliefs p.old.beliefs)).beliefs) }
    ensures agenda { OnOk result (p.new.agenda
        ≡ parts.told p.old.agenda (spec.all_removed ls.now (B.beliefs p.old.beliefs)).events) }
    ensures rules { B.rules p.new.beliefs ≡ B.rules p.old.beliefs }
    ensures number { p.new.number ≡ p.old.number }
{
    for l in ls {
        let removed = p.beliefs.remove(alloc, l, &no_subst(alloc))?;
        tell_one(alloc, &mut p.agenda, event_of(removed))?;
    }
    Ok(())
}

/// Tell, or Ignore where there are no literals.
pub fn tell<B: BeliefBase>(
    alloc: Global,
    name: &Text,
    p: &mut Circumstance<B>,
    ls: Option<Literals>,
) -> Result<Took, Starved>
    requires { IfSome ls (λ held. all_ground held ≡ true) }
    ensures made { IfOk result (λ t. spec.tell name.now (parts.seen B.beliefs p.old) ls ≡ spec.received (parts.seen B.beliefs p.new) t) }
    ensures rules { B.rules p.new.beliefs ≡ B.rules p.old.beliefs }
    ensures number { p.new.number ≡ p.old.number }
{
    match ls {
        None => Ok(by(alloc, Row::Ignore)),
        Some(ls) => {
            let named = all_sourced(alloc, name, ls)?;
            let added = add_all(alloc, p, named.as_slice());
            drop(named);
            added?;
            Ok(by(alloc, Row::Tell))
        }
    }
}

/// Untell, or Ignore where there are no literals.
pub fn untell<B: BeliefBase>(
    alloc: Global,
    name: &Text,
    p: &mut Circumstance<B>,
    ls: Option<Literals>,
) -> Result<Took, Starved>
    ensures made { IfOk result (λ t. spec.untell name.now (parts.seen B.beliefs p.old) ls ≡ spec.received (parts.seen B.beliefs p.new) t) }
    ensures rules { B.rules p.new.beliefs ≡ B.rules p.old.beliefs }
    ensures number { p.new.number ≡ p.old.number }
{
    match ls {
        None => Ok(by(alloc, Row::Ignore)),
        Some(ls) => {
            let named = all_only_from(alloc, name, ls)?;
            let removed = remove_all(alloc, p, named.as_slice());
            drop(named);
            removed?;
            Ok(by(alloc, Row::Untell))
        }
    }
}
