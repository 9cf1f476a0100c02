//! Beliefs in their order, found by sign, functor and number of arguments, or by sign, functor and arguments.

ghost use Rattle.std.specs.Prelude.{◌≡◌, ◌<◌, ◌≤◌, ◌-◌, ◌^◌, ℕ, ◌++◌, ◌∷◌, [], true, false, Some, None, IfSome, OnOk, OnErr};
ghost use Rattle.std.specs.Prelude.{length, filter, slice_get, slice_set};
ghost use Rattle.std.specs.Option.{option_copied, option_map_or, is_some};
ghost use Rattle.asl_term.specs.declared.syntax.LiteralOf.{LiteralOf};
ghost use Rattle.asl_term.specs.declared.syntax.Term.{Term};
ghost use Rattle.asl_unify.specs.Compare.{same_frame};
ghost use Rattle.asl_beliefs.specs.Changes as spec;
ghost use Rattle.asl_beliefs.specs.Sources.{with_annots};
ghost use Rattle.asl_index_tables.specs.Firsts.{AreApart};
ghost use Rattle.asl_index_tables.specs.Slots.{at_slot, kept, places};
ghost use Rattle.asl_index.specs.Store.{AreFiled, AreListed, IsHeld};
ghost use Rattle.asl_index.specs.Noted.{is_perceived};

use crate::firsts::{note_behind, noted_again};
use crate::noted::{either, may_be_perceived, may_hold, perceived_places, unless};
use crate::slots::{BeliefSlots, filed_again, held, pack};
use asl_beliefs::same::same_belief;
use asl_index_tables::frames::Frames;
use asl_index_tables::keys::Keys;
use asl_index_tables::prints::literal_print;
use asl_term::sequence::{Seq, Starved};
use asl_term::syntax::{Literal, Numbers, Terms};
use std::alloc::Global;
use std::marker::Model;

/// So many empty slots are left where they are.
const FEW: u64 = 64;

/// Slots in the order in which the beliefs were added, and how many were emptied since they were last packed.
pub struct Store {
    slots: BeliefSlots,
    frames: Frames,
    keys: Keys,
    emptied: u64,
    /// The places of what was perceived, as long as nothing of it has changed since they were noted.
    noted: Option<Numbers>,
    /// The number of the first argument of the belief of each slot, by slot. What is noted of an empty slot says nothing.
    firsts: Numbers,
}

/// By hand, so that a crate above that lets one go proves nothing of its parts.
impl Drop for Store {
    fn drop(self) {
        let Store {
            slots: _,
            frames: _,
            keys: _,
            emptied: _,
            noted: _,
            firsts: _,
        } = self;
    }
}

impl Model for Store {
    ghost use Rattle.std.specs.Prelude.{List, Option};
    ghost use Rattle.asl_term.specs.declared.syntax.LiteralOf.{LiteralOf};
    ghost use Rattle.asl_term.specs.declared.syntax.Term.{Term};
    ghost use Rattle.asl_term.specs.contracts.syntax.Term as term;
    ghost use Rattle.asl_index.specs.Store.{AreFiled, AreListed, AreFirsts};
    ghost use Rattle.asl_index.specs.Noted.{AreNoted};
    ghost use Rattle.std.specs.Coded.{codes};

    ghost Value = { List (Option (LiteralOf Term)) };

    ghost coded = { Prim.hlevel (codes, term.the_row.coded) };

    ghost view = { λ s. s.slots };

    ghost invariant = { λ s. AreFiled s.slots s.frames × (AreListed s.slots s.keys × (AreNoted s.slots s.noted × AreFirsts s.slots s.firsts)) };
}

impl Store {
    /// No beliefs.
    pub fn new(alloc: Global) -> Store
        ensures { result ≡ [] }
    {
        Store {
            slots: Seq::new(alloc),
            frames: Frames::new(alloc),
            keys: Keys::new(alloc),
            emptied: 0,
            noted: None,
            firsts: Seq::new(alloc),
        }
    }

    /// How many slots there are.
    pub fn len(&self) -> u64
        ensures { result ≡ length self.now }
    {
        self.slots.len()
    }

    /// The belief of a slot.
    pub fn at(&self, k: u64) -> Option<&Literal>
        ensures { option_copied result ≡ at_slot self.now k }
    {
        match self.slots.at(k) {
            Some(slot) => slot.as_ref(),
            None => None,
        }
    }

    /// How many beliefs have the sign, functor and number of arguments of a goal.
    pub fn count(&self, g: &Literal) -> u64
        ensures count { result ≡ length (filter (same_frame g.now) (kept self.now)) }
        ensures within { result < 2 ^ 63 }
    {
        let most = self.slots.as_slice().len() as u64;
        self.frames.count(g).min(most)
    }

    /// The slot of the k-th of these.
    pub fn slot(&self, g: &Literal, k: u64) -> Option<u64>
        ensures { result ≡ slice_get (places (same_frame g.now) 0 self.now) k }
    {
        self.frames.at(g, k)
    }

    /// The k-th of these.
    pub fn nth(&self, g: &Literal, k: u64) -> Option<&Literal>
        ensures { option_copied result ≡ slice_get (filter (same_frame g.now) (kept self.now)) k }
    {
        match self.frames.at(g, k) {
            Some(slot) => self.at(slot),
            None => None,
        }
    }

    /// The k-th of these, and how many there are: one look-up for both.
    pub fn pick(&self, g: &Literal, k: u64) -> (Option<&Literal>, u64)
        ensures belief { option_copied result.0 ≡ slice_get (filter (same_frame g.now) (kept self.now)) k }
        ensures count { result.1 ≡ length (filter (same_frame g.now) (kept self.now)) }
    {
        let (place, count) = self.frames.pick(g, k);
        match place {
            Some(slot) => (self.at(slot), count),
            None => (None, count),
        }
    }

    /// The first of these, from the k-th on, that may match by its first argument; how many there are where none may, and `k` itself
    /// where it is not less. Those that are passed over have no match with the goal.
    pub fn next(&self, g: &Literal, k: u64) -> u64
        ensures from { k ≤ result }
        ensures within { k < result → result ≤ length (filter (same_frame g.now) (kept self.now)) }
        ensures between { (i : ℕ) (b : LiteralOf Term) → k ≤ i → i < result
            → slice_get (filter (same_frame g.now) (kept self.now)) i ≡ Some b → AreApart g.now b }
    {
        self.frames.next(g, self.firsts.as_slice(), k)
    }

    /// The slot with the sign, functor and arguments of a literal.
    pub fn find(&self, b: &Literal) -> Option<u64>
        ensures { IsHeld b.now self.now result }
    {
        find_in(self.slots.as_slice(), &self.keys, b)
    }

    /// Puts a belief last.
    pub fn push(&mut self, alloc: Global, b: Literal) -> Result<(), Starved>
        ensures ok { OnOk result (kept self.new ≡ kept self.old ++ b ∷ []) }
        ensures err { OnErr result (kept self.new ≡ kept self.old) }
    {
        let place = self.slots.len();
        note_behind(&mut self.firsts, self.slots.as_slice(), &b)?;
        self.slots.push(None)?;
        file_last(
            alloc,
            self.slots.as_slice(),
            &mut self.frames,
            &mut self.keys,
            &b,
        )?;
        self.noted = unless(self.noted.take(), may_hold(b.annots.as_slice()));
        *self.slots.at_mut(place) = Some(b);
        Ok(())
    }

    /// Sets the annotations of a belief.
    pub fn set_annots(&mut self, k: u64, annots: Terms)
        requires { is_some (at_slot self.old k) ≡ true }
        ensures { (b : LiteralOf Term) → at_slot self.old k ≡ Some b → self.new ≡ slice_set self.old k (Some (with_annots b annots)) }
    {
        let after = may_hold(annots.as_slice());
        match self.slots.at_mut(k) {
            Some(b) => {
                let before = may_hold(b.annots.as_slice());
                b.annots = annots;
                self.noted = unless(self.noted.take(), either(before, after));
            }
            None => unreachable!(),
        }
    }

    /// Appends annotations to those of a belief.
    pub fn grow(&mut self, k: u64, more: Terms) -> Result<(), Starved>
        requires { is_some (at_slot self.old k) ≡ true }
        ensures ok { OnOk result ((b : LiteralOf Term) → at_slot self.old k ≡ Some b
            → self.new ≡ slice_set self.old k (Some (with_annots b (b.annots ++ more)))) }
        ensures err { OnErr result (self.new ≡ self.old) }
    {
        match self.slots.at_mut(k) {
            Some(b) => {
                let before = may_hold(b.annots.as_slice());
                let grown = b.annots.append_all(more);
                let after = may_hold(b.annots.as_slice());
                self.noted = unless(self.noted.take(), either(before, after));
                grown
            }
            None => unreachable!(),
        }
    }

    /// Takes a belief out of its slot.
    pub fn take(&mut self, k: u64) -> Option<Literal>
        requires { is_some (at_slot self.old k) ≡ true }
        ensures belief { result ≡ at_slot self.old k }
        ensures slots { self.new ≡ slice_set self.old k None }
    {
        let changed = may_be_perceived(self.slots.as_slice(), k);
        unfile(self.slots.as_slice(), &mut self.frames, &mut self.keys, k);
        self.noted = unless(self.noted.take(), changed);
        self.emptied = self.emptied.saturating_add(1);
        self.slots.at_mut(k).take()
    }

    /// Notes the places of what was perceived, where they are not noted. Where memory is wanting nothing is noted.
    pub fn note(&mut self, alloc: Global)
        ensures { self.new ≡ self.old }
    {
        if self.noted.is_none() {
            if let Ok(ps) = perceived_places(alloc, self.slots.as_slice()) {
                self.noted = Some(ps);
            }
        }
    }

    /// The places of what was perceived, where they are noted.
    pub fn noted(&self) -> Option<&Numbers>
        ensures { IfSome result (λ ps. ps.now ≡ places is_perceived 0 self.now) }
    {
        self.noted.as_ref()
    }

    /// Takes the empty slots out where they are more than `FEW` and than the beliefs. That costs one step for each
    /// slot, which the beliefs that went since the last time pay for. Where memory is wanting the slots stay.
    pub fn tidy(&mut self, alloc: Global)
        ensures { kept self.new ≡ kept self.old }
    {
        if self.emptied <= FEW || self.emptied <= self.slots.len() / 2 {
            return;
        }
        self.emptied = 0;
        if let Ok(firsts) = noted_again(alloc, self.slots.as_slice()) {
            if let Ok((frames, keys)) = filed_again(alloc, self.slots.as_slice()) {
                self.frames = frames;
                self.keys = keys;
                self.firsts = firsts;
                self.noted = None;
                pack(alloc, &mut self.slots);
            }
        }
    }
}

/// Whether a slot has a belief with the sign, functor and arguments of a literal.
fn is_at(slots: &[Option<Literal>], b: &Literal, k: u64) -> bool
    ensures { result ≡ option_map_or (spec.same_belief b.now) (at_slot slots.now k) false }
{
    match slots.get(k as usize) {
        Some(slot) => match slot {
            Some(c) => same_belief(b, c),
            None => false,
        },
        None => false,
    }
}

/// The slot with the sign, functor and arguments of a literal, among those that are listed under its number.
fn find_in(slots: &[Option<Literal>], keys: &Keys, b: &Literal) -> Option<u64>
    requires { AreListed slots.now keys.now }
    ensures { IsHeld b.now slots.now result }
{
    let key = literal_print(b);
    for k in 0..keys.count(key) {
        if let Some(slot) = keys.at(key, k) {
            if is_at(slots, b, slot) {
                return Some(slot);
            }
        }
    }
    None
}

/// Files and lists a belief under the last slot, which is empty, or leaves all as it was.
fn file_last(
    alloc: Global,
    slots: &[Option<Literal>],
    frames: &mut Frames,
    keys: &mut Keys,
    b: &Literal,
) -> Result<(), Starved>
    requires some { 0 < length slots.now }
    requires empty { slice_get slots.now (length slots.now - 1) ≡ Some None }
    requires filed { AreFiled slots.now frames.old }
    requires listed { AreListed slots.now keys.old }
    ensures filed { OnOk result (AreFiled (slice_set slots.now (length slots.now - 1) (Some b.now)) frames.new) }
    ensures listed { OnOk result (AreListed (slice_set slots.now (length slots.now - 1) (Some b.now)) keys.new) }
    ensures not_filed { OnErr result (AreFiled slots.now frames.new) }
    ensures not_listed { OnErr result (AreListed slots.now keys.new) }
{
    let place = (slots.len() - 1) as u64;
    frames.put(alloc, b, place)?;
    match keys.put(alloc, literal_print(b), place) {
        Ok(()) => Ok(()),
        Err(_) => {
            frames.take(b, place);
            Err(Starved)
        }
    }
}

/// Takes what is filed and listed of a slot out, as if the slot were empty.
fn unfile(slots: &[Option<Literal>], frames: &mut Frames, keys: &mut Keys, k: u64)
    requires some { is_some (at_slot slots.now k) ≡ true }
    requires filed { AreFiled slots.now frames.old }
    requires listed { AreListed slots.now keys.old }
    ensures filed { AreFiled (slice_set slots.now k None) frames.new }
    ensures listed { AreListed (slice_set slots.now k None) keys.new }
{
    match held(slots, k) {
        Some(b) => {
            frames.take(b, k);
            keys.take(literal_print(b), k);
        }
        None => unreachable!(),
    }
}
