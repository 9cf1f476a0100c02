//! Tables of values that are known again.

ghost use Rattle.std.specs.Prelude.{◌≡◌, ◌<◌, ◌^◌, [], true, length, slice_get, Some, IfOk, IfSome, OnErr};
ghost use Rattle.std.specs.Option.{option_copied};
ghost use Rattle.mas_explore_tables.specs.Tables as spec;

use asl_term::sequence::{Seq, Starved};
use std::alloc::Global;
use std::marker::Model;

/// What is known again by its content.
pub trait Known: Drop {
    /// Whether the two are the same. It may be said of two that are the same that they are not: then a table has them twice.
    fn same(&self, other: &Self) -> bool
        ensures { result ≡ true → self.now ≡ other.now };

    /// A number that depends on the content alone. Nothing is said of it: it finds the places to look at.
    fn mix(&self) -> u64;
}

/// Values by their numbers, from 0 in the order in which they came. Contracts see their list.
pub struct Table<T: Known> {
    items: Seq<T>,
    /// Of each place whether it is empty, which is 0, or the number of a value and one.
    slots: Seq<u64>,
}

/// By hand, so that a crate above that lets one go proves nothing of its parts.
impl<T: Known> Drop for Table<T> {
    fn drop(self) {
        let Table { items: _, slots: _ } = self;
    }
}

impl<T: Known> Model for Table<T> {
    ghost use Rattle.std.specs.Prelude.{List};
    ghost use Rattle.std.specs.Coded.{coded_list};

    ghost Value = { List T };

    ghost coded = { coded_list T.code };

    ghost view = { λ t. t.items };
}

/// So many places on, counted round.
fn place_behind(first: u64, step: u64, size: u64) -> u64
    requires first { first < size }
    requires step { step < size }
    ensures { result < size }
{
    if first < size - step {
        first + step
    } else {
        first - (size - step)
    }
}

fn slot_at(slots: &Seq<u64>, place: u64) -> u64 {
    match slots.at(place) {
        Some(slot) => *slot,
        None => 0,
    }
}

/// Puts a number into the first empty place from that of its mix on.
fn put_slot(slots: &mut Seq<u64>, mix: u64, slot: u64) {
    let size = slots.len();
    if size == 0 {
        return;
    }
    let first = mix % size;
    for step in 0..size {
        let place = place_behind(first, step, size);
        if slot_at(slots, place) == 0 {
            if place < slots.len() {
                *slots.at_mut(place) = slot;
            }
            return;
        }
    }
}

/// So many empty places.
fn empty_slots(alloc: Global, size: u64) -> Result<Seq<u64>, Starved> {
    let mut slots = Seq::new(alloc);
    slots.reserve_exact(size)?;
    for _ in 0..size {
        slots.push(0)?;
    }
    Ok(slots)
}

/// Places for all items, four times as many as there are.
fn slots_of<T: Known>(alloc: Global, items: &[T]) -> Result<Seq<u64>, Starved> {
    let size = (items.len() as u64).saturating_mul(4).saturating_add(16);
    let mut slots = empty_slots(alloc, size)?;
    let mut slot: u64 = 0;
    for x in items {
        slot = slot.saturating_add(1);
        put_slot(&mut slots, x.mix(), slot);
    }
    Ok(slots)
}

impl<T: Known> Table<T> {
    /// No values.
    pub fn new(alloc: Global) -> Table<T>
        ensures { result ≡ [] }
    {
        Table {
            items: Seq::new(alloc),
            slots: Seq::new(alloc),
        }
    }

    /// How many there are.
    pub fn count(&self) -> u64
        ensures { result ≡ length self.now }
    {
        self.items.len()
    }

    /// The value of this number.
    pub fn at(&self, n: u64) -> Option<&T>
        ensures { option_copied result ≡ slice_get self.now n }
    {
        self.items.at(n)
    }

    fn is_at(&self, n: u64, x: &T) -> bool
        ensures { result ≡ true → slice_get self.now n ≡ Some x.now }
    {
        match self.items.at(n) {
            Some(y) => y.same(x),
            None => false,
        }
    }

    /// The number of this value.
    pub fn look(&self, x: &T) -> Option<u64>
        ensures { IfSome result (λ n. slice_get self.now n ≡ Some x.now) }
    {
        let size = self.slots.len();
        if size == 0 {
            return None;
        }
        let first = x.mix() % size;
        for step in 0..size {
            let slot = slot_at(&self.slots, place_behind(first, step, size));
            if slot == 0 {
                return None;
            }
            if self.is_at(slot - 1, x) {
                return Some(slot - 1);
            }
        }
        None
    }

    /// Finds the last value again from now on. Where the places are half full there are more.
    fn note(&mut self, alloc: Global, mix: u64) -> Result<(), Starved>
        ensures { self.new ≡ self.old }
    {
        let count = self.items.len();
        if self.slots.len() / 2 <= count {
            self.slots = slots_of(alloc, self.items.as_slice())?;
        } else {
            put_slot(&mut self.slots, mix, count);
        }
        Ok(())
    }

    /// The place of this value, which is put last where it is not known.
    #[tactic(auto, using(crate::proofs::Entering::entered, crate::proofs::Entering::known))]
    fn place_of(&mut self, alloc: Global, x: T) -> Result<u64, Starved>
        ensures entered { IfOk result (spec.HasEntered self.old self.new x) }
        ensures refused { OnErr result (spec.IsGrown self.old self.new x) }
    {
        if let Some(n) = self.look(&x) {
            return Ok(n);
        }
        let n = self.items.len();
        let mix = x.mix();
        self.items.push(x)?;
        self.note(alloc, mix)?;
        Ok(n)
    }

    /// The number of this value, which is put last where it is not known. No memory holds as many values as there may be numbers.
    pub fn enter(&mut self, alloc: Global, x: T) -> Result<u64, Starved>
        ensures entered { IfOk result (spec.HasEntered self.old self.new x) }
        ensures few { IfOk result (λ n. n < 2 ^ 62) }
        ensures refused { OnErr result (spec.IsGrown self.old self.new x) }
    {
        let n = self.place_of(alloc, x)?;
        if n < 1 << 62 { Ok(n) } else { Err(Starved) }
    }
}
