//! The slots of bound variables, by which the pair of a variable is found without a look at all pairs.

ghost use Rattle.std.specs.Prelude.{◌≡◌, ◌<◌, ◌+◌, [], length, take, ◌≤◌, MatchOption, IfOk, IfSome, OnOk};
ghost use Rattle.asl_unify.specs.Compare.{find};
ghost use Rattle.asl_unify.specs.Puts.{IsSubst};
ghost use Rattle.asl_unify.specs.inner.Slots as spec;
ghost use Rattle.asl_unify.specs.inner.Slots.{AreFirst, ArePlaced};

use crate::subst::Pair;
use asl_term::compare::same_var;
use asl_term::sequence::Starved;
use asl_term::syntax::{Term, Var};
use std::alloc::Global;

/// Where the pairs of each slot stand.
#[derive(Drop)]
pub struct Slots {
    /// For each slot the place behind its last pair, or 0.
    pub last: Vec<usize>,
    /// For each pair the place behind the one before it in its slot, or 0.
    pub before: Vec<usize>,
}

fn mix(a: u64, b: u8) -> u64
    ensures { result ≡ spec.mix a b }
{
    a % 4_294_967_296 * 31 + b as u64
}

/// The slot of a variable among so many.
pub fn slot(x: &Var, count: usize) -> usize
    requires { 0 < count }
    ensures value { result ≡ spec.slot count x.now }
    ensures within { result < count }
{
    let mut mixed = x.number;
    for b in x.name.as_slice() {
        mixed = mix(mixed, *b);
    }
    (mixed % count as u64) as usize
}

/// So many slots with nothing in them.
#[tactic(auto, using(crate::proofs::Slotted::push_zero, crate::proofs::Slotted::no_slots))]
pub fn empty(alloc: Global, count: usize) -> Result<Slots, Starved>
    requires { 0 < count }
    ensures { IfOk result (λ r. ArePlaced [] r) }
{
    let mut last = Vec::new(alloc);
    for _i in 0..count {
        last.push(0)?;
    }
    Ok(Slots {
        last,
        before: Vec::new(alloc),
    })
}

/// Puts the first pair that is in no slot into its own.
fn put(pairs: &[Pair], k: usize, slots: &mut Slots) -> Result<(), Starved>
    requires within { k < length pairs.now }
    requires placed { AreFirst pairs.now k slots.old }
    ensures { OnOk result (AreFirst pairs.now (k + 1) slots.new) }
{
    let place = slot(&pairs[k].var, slots.last.len());
    slots.before.push(slots.last[place])?;
    slots.last[place] = k + 1;
    Ok(())
}

/// Puts the pairs from a place on, which are in no slot, into theirs. If memory is wanting, the slots are let go.
fn filled(pairs: &[Pair], from: usize, slots: Slots) -> Option<Slots>
    requires placed { AreFirst pairs.now from slots }
    requires within { from ≤ length pairs.now }
    ensures { IfSome result (ArePlaced pairs.now) }
{
    let mut slots = slots;
    for k in from..pairs.len() {
        if put(pairs, k, &mut slots).is_err() {
            return None;
        }
    }
    Some(slots)
}

/// So many pairs are looked at one by one.
const FEW: usize = 16;

/// All pairs in twice as many slots. If memory is wanting, there are no slots.
fn filled_anew(alloc: Global, pairs: &[Pair]) -> Option<Slots>
    ensures { IfSome result (ArePlaced pairs.now) }
{
    match empty(alloc, 2 * pairs.len().max(FEW)) {
        Ok(slots) => filled(pairs, 0, slots),
        Err(_) => None,
    }
}

/// The slots of pairs, of which those from a place on are in none yet. There are none where the pairs are few or memory is
/// wanting; where there are more pairs than slots, there become twice as many slots as pairs.
pub fn slots_of(alloc: Global, pairs: &[Pair], from: usize, slots: Option<Slots>) -> Option<Slots>
    requires placed { IfSome slots (AreFirst pairs.now from) }
    requires within { from ≤ length pairs.now }
    ensures { IfSome result (ArePlaced pairs.now) }
{
    match slots {
        Some(slots) => {
            if pairs.len() <= slots.last.len() {
                filled(pairs, from, slots)
            } else {
                drop(slots);
                filled_anew(alloc, pairs)
            }
        }
        None => {
            if pairs.len() <= FEW {
                None
            } else {
                filled_anew(alloc, pairs)
            }
        }
    }
}

/// Takes the last pair of those in slots out of its own.
fn take_last(pairs: &[Pair], k: usize, slots: &mut Slots)
    requires within { k < length pairs.now }
    requires placed { AreFirst pairs.now (k + 1) slots.old }
    ensures { AreFirst pairs.now k slots.new }
{
    let place = slot(&pairs[k].var, slots.last.len());
    slots.last[place] = slots.before[k];
    slots.before.truncate(k);
}

/// Takes the pairs behind a mark out of their slots.
fn cut(pairs: &[Pair], mark: usize, slots: &mut Slots)
    requires { ArePlaced pairs.now slots.old }
    ensures { ArePlaced (take mark pairs.now) slots.new }
{
    let end = mark.min(pairs.len());
    let mut k = pairs.len();
    while k > end {
        k -= 1;
        take_last(pairs, k, slots);
    }
}

/// Takes the pairs behind a mark out of their slots, where they are in slots.
pub fn shorten(pairs: &[Pair], mark: u64, slots: &mut Option<Slots>)
    requires { IfSome slots.old (ArePlaced pairs.now) }
    ensures { IfSome slots.new (ArePlaced (take mark pairs.now)) }
{
    if let Some(slots) = slots {
        cut(pairs, mark as usize, slots);
    }
}

/// The term of the pair of a variable.
pub fn find_in<'a>(pairs: &'a [Pair], slots: &Slots, x: &Var) -> Option<&'a Term>
    requires placed { ArePlaced pairs.now slots.now }
    requires sound { IsSubst pairs.now }
    ensures { MatchOption result (find pairs.now x.now ≡ None) (λ t. find pairs.now x.now ≡ Some t.now) }
{
    let mut at = slots.last[slot(x, slots.last.len())];
    while at > 0 {
        let p = &pairs[at - 1];
        if same_var(&p.var, x) {
            return Some(&p.term);
        }
        at = slots.before[at - 1];
    }
    None
}
