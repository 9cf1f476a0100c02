//! A list whose free places contracts count.

ghost use Rattle.std.specs.Prelude.{◌≡◌, ◌<◌, ◌≤◌, ◌+◌, [], ◌∷◌, ◌++◌, length, remove, slice_get, IsOk, OnOk, OnErr};
ghost use Rattle.std.specs.Option.{option_copied};
ghost use Rattle.std.specs.Borrow.{Lends, sem};
ghost use Rattle.asl_term.specs.contracts.room.Roomy.{the_row};
ghost use Rattle.asl_term.specs.Spare.{with_item};

use crate::sequence::{Seq, Starved};
use std::alloc::Global;
use std::marker::Model;

/// A list with room for more. Contracts see its items and the number of free places.
pub struct Roomy<T> {
    items: Vec<T>,
}

/// By hand, so that a crate above that lets one go proves nothing of its parts.
impl<T: Drop> Drop for Roomy<T> {
    fn drop(self) {
        let Roomy { items: _ } = self;
    }
}

impl<T> Model for Roomy<T> {
    ghost use Rattle.std.specs.Prelude.{◌-◌};
    ghost use Rattle.asl_term.specs.Spare.{WithSpare, spare_code};

    ghost Value = { WithSpare T };

    ghost coded = { spare_code T.code };

    ghost view = { λ s. record { list = s.items.items; spare = s.items.cap - s.items.len } };
}

impl<T> Roomy<T> {
    /// No items. It takes no memory, and no free place is promised yet.
    pub fn new(alloc: Global) -> Roomy<T>
        ensures { result.list ≡ [] }
    {
        Roomy {
            items: Vec::new(alloc),
        }
    }

    /// How many items there are. Free places do not count.
    pub fn len(&self) -> u64
        ensures { result ≡ length self.now.list }
    {
        self.items.len() as u64
    }

    /// The number of free places.
    pub fn spare(&self) -> u64
        ensures { result ≡ self.now.spare }
    {
        (self.items.capacity() - self.items.len()) as u64
    }

    /// Its items, in order.
    pub fn as_slice(&self) -> &[T]
        ensures { result.now ≡ self.now.list }
    {
        self.items.as_slice()
    }

    /// The item at a place, counted from 0; none where there are too few.
    pub fn at(&self, k: u64) -> Option<&T>
        ensures { option_copied result ≡ slice_get self.now.list k }
    {
        self.items.get(k as usize)
    }

    /// The item at a place, counted from 0, to be changed where it stands.
    pub fn at_mut(&mut self, k: u64) -> &mut T
        requires { k < length self.old.list }
        ensures* writes_back { sem 𝓛 (Lends (the_row T.row) T.row self.entry result (with_item self.old k)) }
        ensures value { slice_get self.old.list k ≡ Some result.now }
    {
        &mut self.items[k as usize]
    }

    /// Its items, without a count of free places.
    pub fn into_seq(self) -> Seq<T>
        ensures { result ≡ self.list }
    {
        let Roomy { items } = self;
        Seq::from_vec(items)
    }
}

impl<T: Drop> Roomy<T> {
    /// Puts an item last. Memory is needed only where no place is free; `Starved` comes only when
    /// it runs out, and the item is then dropped.
    pub fn push(&mut self, x: T) -> Result<(), Starved>
        ensures ok { OnOk result (self.new.list ≡ self.old.list ++ x ∷ []) }
        ensures err { OnErr result (self.new.list ≡ self.old.list) }
        ensures room { 0 < self.old.spare → IsOk result × (self.new.spare + 1 ≡ self.old.spare) }
    {
        let end = self.items.len();
        match self.items.insert(end, x) {
            Ok(()) => Ok(()),
            Err(_) => Err(Starved),
        }
    }

    /// Makes room for `n` more items. Room that is there is never given back.
    pub fn reserve(&mut self, n: u64) -> Result<(), Starved>
        ensures list { self.new.list ≡ self.old.list }
        ensures room { OnOk result (n ≤ self.new.spare) }
        ensures kept { self.old.spare ≤ self.new.spare }
        ensures enough { n ≤ self.old.spare → IsOk result }
    {
        match self.items.reserve(n as usize) {
            Ok(()) => Ok(()),
            Err(_) => Err(Starved),
        }
    }

    /// Takes out the item at `k`, whose place becomes free.
    pub fn remove(&mut self, k: u64) -> Option<T>
        ensures value { result ≡ slice_get self.old.list k }
        ensures rest { self.new.list ≡ remove self.old.list k }
        ensures room { k < length self.old.list → self.new.spare ≡ self.old.spare + 1 }
        ensures kept { length self.old.list ≤ k → self.new.spare ≡ self.old.spare }
    {
        if k < self.len() {
            Some(self.items.remove(k as usize))
        } else {
            None
        }
    }
}
