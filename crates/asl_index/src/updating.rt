//! What is made of adding and taking in a store: replacing, percepts, and the beliefs of a source.

ghost use Rattle.std.specs.Prelude.{◌≡◌, ◌≤◌, ◌++◌, ◌∷◌, [], true, false, Some, length, map, slice_get, IfOk, OnOk};
ghost use Rattle.std.specs.Option.{option_copied, option_map_or};
ghost use Rattle.std.specs.List.{list_any};
ghost use Rattle.asl_term.specs.Exprs.{is_ground_literal};
ghost use Rattle.asl_beliefs.specs.Bases.{AreBeliefs, all_ground};
ghost use Rattle.asl_beliefs.specs.Changes as spec;
ghost use Rattle.asl_beliefs.specs.Laws as laws;
ghost use Rattle.asl_beliefs.specs.Sources as sources;
ghost use Rattle.asl_index_tables.specs.Slots.{at_slot, kept, places};
ghost use Rattle.asl_index.specs.Noted.{is_perceived};
ghost use Rattle.asl_index.specs.Store.{AreListed};
ghost use Rattle.asl_index.specs.Hits.{IsPassed, is_unseen_at};

use crate::adding::{add_all, add_to};
use crate::store::Store;
use crate::taking::{lose_at, remove_from};
use asl_beliefs::same::{is_held, same_belief};
use asl_beliefs::sources::source_percept;
use asl_beliefs::updating::{own_pattern, with_sources};
use asl_index_tables::keys::Keys;
use asl_index_tables::prints::literal_print;
use asl_term::sequence::{Seq, Starved};
use asl_term::syntax::{Literal, Term, Triggers};
use asl_unify::subst::no_subst;
use std::alloc::Global;

/// Removes what the agent itself believes of a functor, and adds a belief.
pub fn replace_in(alloc: Global, store: &mut Store, b: &Literal) -> Result<Triggers, Starved>
    requires no_variable { is_ground_literal b.now ≡ true }
    requires sound { AreBeliefs (kept store.old) }
    ensures beliefs { OnOk result (kept store.new ≡ (spec.replaced b.now (kept store.old)).beliefs) }
    ensures events { IfOk result (λ r. r ≡ (spec.replaced b.now (kept store.old)).events) }
    ensures sound { AreBeliefs (kept store.new) }
{
    let pattern = own_pattern(alloc, b)?;
    let mut events = Seq::new(alloc);
    match remove_from(alloc, store, &pattern, &no_subst(alloc))? {
        None => {}
        Some(removed) => events.push(removed.event)?,
    }
    match add_to(alloc, store, b)? {
        None => {}
        Some(event) => events.push(event)?,
    }
    Ok(events)
}

/// The places of literals, listed by the numbers of functor and arguments.
fn listing(alloc: Global, ls: &[Literal]) -> Result<Keys, Starved>
    ensures { IfOk result (λ r. AreListed (map Some ls.now) r) }
{
    let mut keys = Keys::new(alloc);
    for i in 0..ls.len() {
        keys.put(alloc, literal_print(&ls[i]), i as u64)?;
    }
    Ok(keys)
}

/// Whether the literal at a place has the sign, functor and arguments of this one.
fn is_at(ls: &[Literal], b: &Literal, k: u64) -> bool
    ensures { result ≡ option_map_or (spec.same_belief b.now) (slice_get ls.now k) false }
{
    match ls.get(k as usize) {
        Some(c) => same_belief(b, c),
        None => false,
    }
}

/// Whether a literal with the sign, functor and arguments of this one is among those that are listed.
#[tactic(auto, using(crate::proofs::Finds::among))]
fn is_among(b: &Literal, ls: &[Literal], keys: &Keys) -> bool
    requires { AreListed (map Some ls.now) keys.now }
    ensures { result ≡ list_any (spec.same_belief b.now) ls.now }
{
    let key = literal_print(b);
    for k in 0..keys.count(key) {
        if let Some(i) = keys.at(key, k) {
            if is_at(ls, b, i) {
                return true;
            }
        }
    }
    false
}

/// Whether the belief of a slot was perceived, and is not among the percepts.
fn is_unseen(store: &Store, k: u64, percepts: &[Literal], keys: &Keys, mark: &Term) -> bool
    requires listed { AreListed (map Some percepts.now) keys.now }
    requires mark { mark.now ≡ sources.source_percept }
    ensures { result ≡ is_unseen_at percepts.now store.now k }
{
    match store.at(k) {
        Some(b) => is_held(b.annots.as_slice(), mark) && !is_among(b, percepts, keys),
        None => false,
    }
}

/// Each belief that is no longer perceived loses `source(percept)`.
fn forget(
    alloc: Global,
    store: &mut Store,
    percepts: &[Literal],
    marks: &[Term],
) -> Result<Triggers, Starved>
    requires mark { marks.now ≡ sources.source_percept ∷ [] }
    requires sound { AreBeliefs (kept store.old) }
    ensures beliefs { OnOk result (kept store.new ≡ (spec.unseen percepts.now (kept store.old)).beliefs) }
    ensures events { IfOk result (λ r. r ≡ (spec.unseen percepts.now (kept store.old)).events) }
    ensures sound { AreBeliefs (kept store.new) }
{
    let keys = listing(alloc, percepts)?;
    let mut events = Seq::new(alloc);
    for k in 0..store.len() {
        if is_unseen(store, k, percepts, &keys, &marks[0]) {
            events.push(lose_at(alloc, store, k, marks)?)?;
        }
    }
    Ok(events)
}

/// How many percepts are passed with a slot, so many being passed before it. None where its belief has the mark and is
/// not the next percept.
#[tactic(auto, using(crate::proofs::Quiet::passes))]
fn passed(slot: Option<&Literal>, percepts: &[Literal], next: usize, mark: &Term) -> Option<usize>
    requires within { next ≤ length percepts.now }
    requires mark { mark.now ≡ sources.source_percept }
    ensures { IsPassed (option_copied slot.entry) percepts.now next result }
{
    let Some(b) = slot else {
        return Some(next);
    };
    if !is_held(b.annots.as_slice(), mark) {
        return Some(next);
    }
    let Some(p) = percepts.get(next) else {
        return None;
    };
    if same_belief(b, p) {
        Some(next + 1)
    } else {
        None
    }
}

/// Whether the percepts, one by one, are the beliefs that hold `source(percept)`, by one pass over both.
fn pass_over(percepts: &[Literal], store: &Store, mark: &Term) -> bool
    requires { mark.now ≡ sources.source_percept }
    ensures { result ≡ laws.are_perceived percepts.now (kept store.now) }
{
    let mut next = 0;
    for k in 0..store.len() {
        let Some(n) = passed(store.at(k), percepts, next, mark) else {
            return false;
        };
        next = n;
    }
    next == percepts.len()
}

/// Whether the belief of a slot is this one.
fn is_in_slot(store: &Store, k: u64, b: &Literal) -> bool
    ensures { result ≡ option_map_or (λ c. spec.same_belief c b.now) (at_slot store.now k) false }
{
    match store.at(k) {
        Some(c) => same_belief(c, b),
        None => false,
    }
}

/// Whether the percepts, one by one, are the beliefs of these places, which are those of all that was perceived.
fn are_at(percepts: &[Literal], store: &Store, ps: &[u64]) -> bool
    requires { ps.now ≡ places is_perceived 0 store.now }
    ensures { result ≡ laws.are_perceived percepts.now (kept store.now) }
{
    if ps.len() != percepts.len() {
        return false;
    }
    for i in 0..ps.len() {
        if !is_in_slot(store, ps[i], &percepts[i]) {
            return false;
        }
    }
    true
}

/// The same, by the places of what was perceived where they are noted.
fn are_perceived(alloc: Global, percepts: &[Literal], store: &Store) -> Result<bool, Starved>
    ensures { IfOk result (λ r. r ≡ laws.are_perceived percepts.now (kept store.now)) }
{
    match store.noted() {
        Some(ps) => Ok(are_at(percepts, store, ps.as_slice())),
        None => {
            let mark = source_percept(alloc)?;
            let known = pass_over(percepts, store, &mark);
            drop(mark);
            Ok(known)
        }
    }
}

/// Whether the percepts, one by one, are what was perceived already. The places of that are noted, so that where nothing of it
/// changes the next answer takes a look at the percepts alone.
pub fn are_known(alloc: Global, store: &mut Store, percepts: &[Literal]) -> Result<bool, Starved>
    ensures known { IfOk result (λ r. r ≡ laws.are_perceived percepts.now (kept store.old)) }
    ensures same { store.new ≡ store.old }
{
    store.note(alloc);
    let known = are_perceived(alloc, percepts, store)?;
    Ok(known)
}

/// Forgets what is no longer perceived, and adds the percepts. They are handed in a second time with their mark.
pub fn update_in(
    alloc: Global,
    store: &mut Store,
    percepts: &[Literal],
    marked: &[Literal],
) -> Result<Triggers, Starved>
    requires marked { marked.now ≡ map spec.as_percept percepts.now }
    requires no_variable { all_ground marked.now ≡ true }
    requires sound { AreBeliefs (kept store.old) }
    ensures beliefs { OnOk result (kept store.new ≡ (spec.updated percepts.now (kept store.old)).beliefs) }
    ensures events { IfOk result (λ r. r ≡ (spec.updated percepts.now (kept store.old)).events) }
    ensures sound { AreBeliefs (kept store.new) }
{
    let mut marks = Seq::new(alloc);
    marks.push(source_percept(alloc)?)?;
    let mut events = forget(alloc, store, percepts, marks.as_slice())?;
    add_all(alloc, store, marked, &mut events)?;
    Ok(events)
}

/// The beliefs of a source, each with default source, added one after another to none.
pub fn add_initial(alloc: Global, text: &[Literal], events: &mut Triggers) -> Result<Store, Starved>
    requires { all_ground text.now ≡ true }
    ensures beliefs { IfOk result (λ r. kept r ≡ (spec.all_added (map sources.with_source text.now) []).beliefs) }
    ensures events { OnOk result (events.new ≡ events.old ++ (spec.all_added (map sources.with_source text.now) []).events) }
    ensures sound { IfOk result (λ r. AreBeliefs (kept r)) }
{
    let own = with_sources(alloc, text)?;
    let mut store = Store::new(alloc);
    add_all(alloc, &mut store, own.as_slice(), events)?;
    Ok(store)
}
