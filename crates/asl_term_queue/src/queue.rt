//! A list from whose front items are taken.

ghost use Rattle.std.specs.Prelude.{◌≡◌, [], ◌∷◌, ◌++◌, drop, slice_get, OnOk, OnErr};
ghost use Rattle.std.specs.Option.{option_copied};

use asl_term::sequence::{Seq, Starved};
use std::alloc::Global;
use std::collections::VecDeque;
use std::marker::Model;
use std::mem;

/// A list whose first item is taken without moving the others. Contracts see its items.
pub struct Queue<T> {
    items: VecDeque<T>,
}

/// By hand, so that a crate above that lets one go proves nothing of its parts.
impl<T: Drop> Drop for Queue<T> {
    fn drop(self) {
        let Queue { items: _ } = self;
    }
}

impl<T> Model for Queue<T> {
    ghost use Rattle.std.specs.Prelude.{List};
    ghost use Rattle.std.specs.Coded.{coded_list};

    ghost Value = { List T };

    ghost coded = { coded_list T.code };

    ghost view = { λ q. q.items.items };
}

impl<T> Queue<T> {
    /// No items. It takes no memory before the first is put in.
    pub fn new(alloc: Global) -> Queue<T>
        ensures { result ≡ [] }
    {
        Queue {
            items: VecDeque::new(alloc),
        }
    }

    /// The items of a list, in its order, where they stand: nothing is copied, and no
    /// memory is taken.
    pub fn from_seq(items: Seq<T>) -> Queue<T>
        ensures { result ≡ items }
    {
        Queue {
            items: VecDeque::from_vec(items.into_vec()),
        }
    }

    /// The first item.
    pub fn first(&self) -> Option<&T>
        ensures { option_copied result ≡ slice_get self.now 0 }
    {
        self.items.front()
    }

    /// Its items in two lists, one after the other.
    pub fn parts(&self) -> (&[T], &[T])
        ensures { self.now ≡ result.0.now ++ result.1.now }
    {
        self.items.as_slices()
    }

    /// Takes all items.
    pub fn take_all(&mut self, alloc: Global) -> Seq<T>
        ensures items { result ≡ self.old }
        ensures rest { self.new ≡ [] }
    {
        let items = mem::replace(&mut self.items, VecDeque::new(alloc));
        Seq::from_vec(Vec::from(items))
    }
}

impl<T: Drop> Queue<T> {
    /// Puts an item last. `Starved` comes only when memory runs out; the item is then dropped.
    pub fn push(&mut self, x: T) -> Result<(), Starved>
        ensures ok { OnOk result (self.new ≡ self.old ++ x ∷ []) }
        ensures err { OnErr result (self.new ≡ self.old) }
    {
        match self.items.push_back(x) {
            Ok(()) => Ok(()),
            Err(_) => Err(Starved),
        }
    }

    /// Takes the first item.
    pub fn take_first(&mut self) -> Option<T>
        ensures value { result ≡ slice_get self.old 0 }
        ensures rest { self.new ≡ drop 1 self.old }
    {
        self.items.pop_front()
    }
}
