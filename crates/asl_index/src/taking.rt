//! Beliefs of a store that lose annotations, and beliefs that go.

ghost use Rattle.std.specs.Prelude.{◌≡◌, ◌↔◌, ◌<◌, ◌+◌, Some, None, true, IfOk, OnOk, OnErr, slice_set};
ghost use Rattle.std.specs.Option.{is_some};
ghost use Rattle.asl_term.specs.declared.syntax.LiteralOf.{LiteralOf};
ghost use Rattle.asl_term.specs.declared.syntax.Term.{Term};
ghost use Rattle.asl_beliefs.specs.Bases.{AreBeliefs};
ghost use Rattle.asl_beliefs.specs.Changes as spec;
ghost use Rattle.asl_beliefs.specs.Laws.{NoMatch};
ghost use Rattle.asl_index_tables.specs.Slots.{at_slot, kept};
ghost use Rattle.asl_index.specs.Hits.{IsHit, left_slot};

use crate::store::Store;
use asl_beliefs::adding::copy_with;
use asl_beliefs::removed::Removed;
use asl_beliefs::sources::names_source;
use asl_beliefs::taking::{gone, is_match, left, minus};
use asl_term::sequence::{Seq, Starved};
use asl_term::syntax::{Literal, Term, Trigger, Triggers};
use asl_unify::build::build_all;
use asl_unify::log::Later;
use asl_unify::matching::first_match;
use asl_unify::subst::Subst;
use std::alloc::Global;

/// A slot whose belief a pattern matches, and the first match.
#[derive(Drop)]
pub struct Hit {
    pub slot: u64,
    pub subst: Subst,
}

/// The belief of a slot goes.
fn drop_at(store: &mut Store, k: u64) -> Trigger
    requires { is_some (at_slot store.old k) ≡ true }
    ensures event { (b : LiteralOf Term) → at_slot store.old k ≡ Some b → result ≡ spec.minus b }
    ensures slots { store.new ≡ slice_set store.old k None }
{
    match store.take(k) {
        Some(b) => minus(b),
        None => unreachable!(),
    }
}

/// The belief of a slot loses annotations, and goes where no source is left.
pub fn lose_at(alloc: Global, store: &mut Store, k: u64, taken: &[Term]) -> Result<Trigger, Starved>
    requires { is_some (at_slot store.old k) ≡ true }
    ensures slots { OnOk result ((b : LiteralOf Term) → at_slot store.old k ≡ Some b → store.new ≡ slice_set store.old k (left_slot taken.now b)) }
    ensures event { IfOk result (λ e. (b : LiteralOf Term) → at_slot store.old k ≡ Some b → e ≡ spec.loss taken.now b) }
    ensures err { OnErr result (store.new ≡ store.old) }
{
    let Some(b) = store.at(k) else { unreachable!() };
    let left = left(alloc, taken, b.annots.as_slice())?;
    if names_source(left.as_slice()) {
        let gone = gone(alloc, taken, b.annots.as_slice())?;
        let event = minus(copy_with(alloc, b, gone)?);
        store.set_annots(k, left);
        Ok(event)
    } else {
        Ok(drop_at(store, k))
    }
}

/// The first belief that a pattern matches, and its first match.
fn first_hit(alloc: Global, store: &Store, p: &Literal, s: &Subst) -> Result<Option<Hit>, Starved>
    ensures { IfOk result (λ r. IsHit p.now s.now store.now r) }
{
    for k in 0..store.count(p) {
        if let Some(slot) = store.slot(p, k) {
            if let Some(b) = store.at(slot) {
                if let Some(subst) = first_match(alloc, p, b, s)? {
                    return Ok(Some(Hit { slot, subst }));
                }
            }
        }
    }
    Ok(None)
}

/// The first belief that a pattern matches loses the annotations of its first match.
pub fn remove_from(
    alloc: Global,
    store: &mut Store,
    p: &Literal,
    s: &Subst,
) -> Result<Option<Removed>, Starved>
    requires { AreBeliefs (kept store.old) }
    ensures beliefs { OnOk result (kept store.new ≡ (spec.removed p.now s.now (kept store.old)).beliefs) }
    ensures removed { IfOk result (λ r. r ≡ (spec.removed p.now s.now (kept store.old)).removed) }
    ensures none { IfOk result (λ r. (r ≡ None) ↔ NoMatch p.now s.now (kept store.old)) }
    ensures err { OnErr result (store.new ≡ store.old) }
    ensures sound { AreBeliefs (kept store.new) }
{
    match first_hit(alloc, store, p, s)? {
        None => Ok(None),
        Some(hit) => {
            // That its pairs are sound is known once they are read.
            hit.subst.pairs();
            let taken = build_all(
                alloc,
                p.annots.as_slice(),
                &hit.subst,
                Later { log: None, from: 0 },
            )?;
            let event = lose_at(alloc, store, hit.slot, taken.as_slice())?;
            Ok(Some(Removed {
                event,
                subst: hit.subst,
            }))
        }
    }
}

/// Whether a pattern matches the belief of a slot.
fn is_hit(alloc: Global, store: &Store, p: &Literal, slot: u64) -> Result<bool, Starved>
    ensures { IfOk result (λ r. (b : LiteralOf Term) → at_slot store.now slot ≡ Some b → r ≡ spec.is_match p.now b) }
{
    match store.at(slot) {
        Some(b) => is_match(alloc, p, b),
        None => Ok(false),
    }
}

/// Every belief that a pattern matches goes.
pub fn abolish_from(alloc: Global, store: &mut Store, p: &Literal) -> Result<Triggers, Starved>
    requires { AreBeliefs (kept store.old) }
    ensures beliefs { OnOk result (kept store.new ≡ (spec.abolished p.now (kept store.old)).beliefs) }
    ensures events { IfOk result (λ r. r ≡ (spec.abolished p.now (kept store.old)).events) }
    ensures sound { AreBeliefs (kept store.new) }
{
    let mut events = Seq::new(alloc);
    let mut k = 0u64;
    while let Some(slot) = store.slot(p, k) {
        if is_hit(alloc, store, p, slot)? {
            events.push(drop_at(store, slot))?;
        } else {
            k = after(k, store.len());
        }
    }
    Ok(events)
}

/// The number behind one that is less than another.
fn after(k: u64, size: u64) -> u64
    requires { k < size }
    ensures { result ≡ k + 1 }
{
    k + 1
}
