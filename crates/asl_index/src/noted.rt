//! The places of what was perceived, which are kept as long as nothing of it changes.

ghost use Rattle.std.specs.Prelude.{◌≡◌, ◌++◌, ◌∷◌, [], false, Some, cond, IfOk, IfSome, OnOk};
ghost use Rattle.std.specs.Option.{option_map_or};
ghost use Rattle.asl_beliefs.specs.Changes.{is_held};
ghost use Rattle.asl_beliefs.specs.Sources.{source_percept};
ghost use Rattle.asl_index.specs.Noted as spec;
ghost use Rattle.asl_index.specs.Noted.{is_perceived};
ghost use Rattle.asl_index_tables.specs.Slots.{at_slot, places};

use crate::slots::held;
use asl_beliefs::same::is_held;
use asl_beliefs::sources::source_percept;
use asl_term::sequence::{Seq, Starved};
use asl_term::syntax::{Literal, Numbers, Term};
use std::alloc::Global;

/// Whether a term is a literal of the name `percept`.
fn names_percept(t: &Term) -> bool
    ensures { result ≡ spec.names_percept t.now }
{
    match t {
        Term::Lit(l) => l.functor.as_slice() == b"percept".as_slice(),
        _ => false,
    }
}

/// Whether the first of these terms is such a literal.
fn first_names_percept(ts: &[Term]) -> bool
    ensures { result ≡ spec.first_names_percept ts.now }
{
    match ts.get(0) {
        Some(t) => names_percept(t),
        None => false,
    }
}

/// Whether a term may be `source(percept)`: false of all other sources.
fn may_be_percept(t: &Term) -> bool
    ensures { result ≡ spec.may_be_percept t.now }
{
    match t {
        Term::Lit(l) => first_names_percept(l.args.as_slice()),
        _ => false,
    }
}

/// Whether one of these annotations may be `source(percept)`.
pub fn may_hold(annots: &[Term]) -> bool
    ensures { result ≡ false → is_held annots.now source_percept ≡ false }
{
    for t in annots {
        if may_be_percept(t) {
            return true;
        }
    }
    false
}

/// Whether the belief of a slot may have been perceived.
pub fn may_be_perceived(slots: &[Option<Literal>], k: u64) -> bool
    ensures { result ≡ false → option_map_or is_perceived (at_slot slots.now k) false ≡ false }
{
    match held(slots, k) {
        Some(b) => may_hold(b.annots.as_slice()),
        None => false,
    }
}

/// Whether one of two things is so.
pub fn either(a: bool, b: bool) -> bool
    ensures { result ≡ false → (a ≡ false) × (b ≡ false) }
{
    a || b
}

/// What was noted, unless it may have changed.
pub fn unless(noted: Option<Numbers>, changed: bool) -> Option<Numbers>
    ensures { IfSome result (λ ps. (changed ≡ false) × (noted ≡ Some ps)) }
{
    if changed {
        drop(noted);
        None
    } else {
        noted
    }
}

/// Whether the belief of a slot was perceived.
fn is_marked(slots: &[Option<Literal>], k: u64, mark: &Term) -> bool
    requires { mark.now ≡ source_percept }
    ensures { result ≡ option_map_or is_perceived (at_slot slots.now k) false }
{
    match held(slots, k) {
        Some(b) => is_held(b.annots.as_slice(), mark),
        None => false,
    }
}

/// Puts a place last where it is wanted.
fn put_if(found: &mut Numbers, wanted: bool, k: u64) -> Result<(), Starved>
    ensures { OnOk result (found.new ≡ cond wanted (found.old ++ k ∷ []) found.old) }
{
    if wanted { found.push(k) } else { Ok(()) }
}

/// The places of the beliefs that hold the mark, in order.
fn marked_places(alloc: Global, slots: &[Option<Literal>], mark: &Term) -> Result<Numbers, Starved>
    requires { mark.now ≡ source_percept }
    ensures { IfOk result (λ ps. ps ≡ places is_perceived 0 slots.now) }
{
    let mut found = Seq::new(alloc);
    for k in 0..slots.len() {
        let wanted = is_marked(slots, k as u64, mark);
        put_if(&mut found, wanted, k as u64)?;
    }
    Ok(found)
}

/// The places of what was perceived, in order.
pub fn perceived_places(alloc: Global, slots: &[Option<Literal>]) -> Result<Numbers, Starved>
    ensures { IfOk result (λ ps. ps ≡ places is_perceived 0 slots.now) }
{
    let mark = source_percept(alloc)?;
    let found = marked_places(alloc, slots, &mark);
    drop(mark);
    found
}
