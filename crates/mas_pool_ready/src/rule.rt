//! What each pass knows of a queue of numbered items, and the rule that ties the passes to it.

use crossbeam_queue::protocol::{Join, Lesson, Outcome, Protocol, Split};
use std::collections::LinkedList;
use std::marker::PhantomData;

/// An item with a number, which is followed on its way through a queue.
pub trait Numbered {
    ghost use Rattle.std.specs.Prelude.{ℕ, ◌≡◌};

    /// Its number, from 1 on.
    ghost number_of: { Self → ℕ };

    /// Whether the second is what may become of the first.
    ghost became: { Self → Self → Type 0 };

    fn number(&self) -> u32
        ensures { result ≡ number_of self.now };
}

/// What a pass knows: the numbers of the items that it holds, the last one taken first; its parts of 64; and the items
/// that were put at the opening. No value of it is made.
pub struct ReadyView<T> {
    pub holds: LinkedList<u32>,
    pub parts: u64,
    pub first: LinkedList<T>,
}

/// The rule of the queue.
pub struct ReadyRule<T> {
    of: PhantomData<T>,
}

impl<T: Numbered> Protocol<T, ReadyView<T>> for ReadyRule<T> {
    ghost use Rattle.mas_pool_ready.specs.Rule.{Holds, blank};

    ghost holds = { Holds T.number_of T.became };

    ghost first = { blank };
}

/// An item is put at the opening.
pub struct Grows<T> {
    of: PhantomData<T>,
}

impl<T: Numbered> Outcome<T, ReadyView<T>> for Grows<T> {
    ghost use Rattle.std.specs.Prelude.{◌≡◌};
    ghost use Rattle.mas_pool_ready.specs.Rule.{grown};

    ghost then = { λ v x w. w ≡ grown v x };
}

/// An item is taken.
pub struct ReadyTakes<T> {
    of: PhantomData<T>,
}

impl<T: Numbered> Outcome<T, ReadyView<T>> for ReadyTakes<T> {
    ghost use Rattle.mas_pool_ready.specs.Rule.{Taken};

    ghost then = { Taken T.number_of T.became };
}

impl<T: Numbered> Lesson<T, ReadyView<T>> for ReadyTakes<T> {
    ghost use Rattle.mas_pool_ready.specs.Rule.{Tells};

    ghost fact = { Tells T.number_of T.became };
}

/// The item that was taken last is put back.
pub struct ReadyPuts<T> {
    of: PhantomData<T>,
}

impl<T: Numbered> Outcome<T, ReadyView<T>> for ReadyPuts<T> {
    ghost use Rattle.std.specs.Prelude.{◌≡◌};
    ghost use Rattle.mas_pool_ready.specs.Rule.{gave};

    ghost then = { λ v x w. w ≡ gave v };
}

/// One part goes to a new pass.
pub struct ReadySplit;

impl<T> Split<ReadyView<T>> for ReadySplit {
    ghost use Rattle.mas_pool_ready.specs.Rule.{less, one_part};

    ghost left = { less };

    ghost right = { one_part };
}

impl<T> Join<ReadyView<T>> for ReadySplit {
    ghost use Rattle.mas_pool_ready.specs.Rule.{both_of, spent};

    ghost both = { both_of };

    ghost spent = { spent };
}
