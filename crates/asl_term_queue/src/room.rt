//! A list from whose front items are taken, and whose free places contracts count.

ghost use Rattle.std.specs.Prelude.{◌≡◌, ◌<◌, ◌≤◌, ◌+◌, [], ◌∷◌, ◌++◌, drop, length, slice_get, IsOk, OnOk, OnErr};
ghost use Rattle.std.specs.Option.{option_copied};

use asl_term::sequence::Starved;
use std::alloc::Global;
use std::collections::VecDeque;
use std::marker::Model;

/// A list with room for more, whose first item is taken without moving the others. Contracts see its items and the
/// number of free places.
pub struct RoomyQueue<T> {
    items: VecDeque<T>,
}

/// By hand, so that a crate above that lets one go proves nothing of its parts.
impl<T: Drop> Drop for RoomyQueue<T> {
    fn drop(self) {
        let RoomyQueue { items: _ } = self;
    }
}

impl<T> Model for RoomyQueue<T> {
    ghost use Rattle.std.specs.Prelude.{◌-◌};
    ghost use Rattle.asl_term.specs.Spare.{WithSpare, spare_code};

    ghost Value = { WithSpare T };

    ghost coded = { spare_code T.code };

    ghost view = { λ s. record { list = s.items.items; spare = s.items.cap - s.items.len } };
}

impl<T> RoomyQueue<T> {
    /// No items. It takes no memory, and no free place is promised yet.
    pub fn new(alloc: Global) -> RoomyQueue<T>
        ensures { result.list ≡ [] }
    {
        RoomyQueue {
            items: VecDeque::new(alloc),
        }
    }

    /// How many items there are. Free places do not count.
    pub fn len(&self) -> u64
        ensures { result ≡ length self.now.list }
    {
        self.items.len() as u64
    }

    /// The item at a place, counted from 0; none where there are too few.
    pub fn at(&self, k: u64) -> Option<&T>
        ensures { option_copied result ≡ slice_get self.now.list k }
    {
        self.items.get(k as usize)
    }
}

impl<T: Drop> RoomyQueue<T> {
    /// Puts an item last. Memory is needed only where no place is free; `Starved` comes only when it runs out, and
    /// the item is then dropped.
    pub fn push(&mut self, x: T) -> Result<(), Starved>
        ensures ok { OnOk result (self.new.list ≡ self.old.list ++ x ∷ []) }
        ensures err { OnErr result (self.new.list ≡ self.old.list) }
        ensures room { 0 < self.old.spare → IsOk result × (self.new.spare + 1 ≡ self.old.spare) }
    {
        match self.items.push_back(x) {
            Ok(()) => Ok(()),
            Err(_) => Err(Starved),
        }
    }

    /// Makes room for `n` more items. Room that is there is never given back.
    pub fn reserve(&mut self, n: u64) -> Result<(), Starved>
        ensures list { self.new.list ≡ self.old.list }
        ensures room { OnOk result (n ≤ self.new.spare) }
        ensures kept { self.old.spare ≤ self.new.spare }
        ensures enough { n ≤ self.old.spare → IsOk result }
    {
        match self.items.reserve(n as usize) {
            Ok(()) => Ok(()),
            Err(_) => Err(Starved),
        }
    }

    /// Takes the first item, whose place becomes free.
    pub fn take_first(&mut self) -> Option<T>
        ensures value { result ≡ slice_get self.old.list 0 }
        ensures rest { self.new.list ≡ drop 1 self.old.list }
        ensures room { 0 < length self.old.list → self.new.spare ≡ self.old.spare + 1 }
        ensures kept { length self.old.list ≤ 0 → self.new.spare ≡ self.old.spare }
    {
        self.items.pop_front()
    }
}
