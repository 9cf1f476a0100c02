//! What each pass knows of a deque of agents, and the rule of a deque.
use crate::agent::ReadyAgent;
use crossbeam_deque::protocol::{Join, Lesson, Outcome, Protocol, Split};
use std::collections::LinkedList;
use std::marker::PhantomData;

/// What a pass knows: the numbers of the agents that it put and of those that it got, its parts of the whole, and the home
/// of all agents once the deque was opened. No value of it is made.
pub struct DequeView<H> {
    pub put: LinkedList<u32>,
    pub got: LinkedList<u32>,
    pub parts: u64,
    pub home: Option<H>,
}

/// The rule of a deque of agents.
pub struct DequeRule<T> {
    of: PhantomData<T>,
}

impl<T: ReadyAgent> Protocol<T, DequeView<T::Home>> for DequeRule<T> {
    ghost use Rattle.mas_steal_rack.specs.Rule.{Holds, blank, spent};

    ghost holds = { Holds T.number T.home T.ready };

    ghost first = { blank };

    ghost guest = { spent };
}

/// The owner puts an agent.
pub struct DequePuts<T> {
    of: PhantomData<T>,
}

impl<T: ReadyAgent> Outcome<T, DequeView<T::Home>> for DequePuts<T> {
    ghost use Rattle.std.specs.Prelude.{◌≡◌};
    ghost use Rattle.mas_steal_rack.specs.Rule.{with_put};

    ghost then = { λ v xs w. w ≡ with_put T.number T.home v xs };
}

/// The owner or a thief gets the first agent.
pub struct Gets<T> {
    of: PhantomData<T>,
}

impl<T: ReadyAgent> Outcome<T, DequeView<T::Home>> for Gets<T> {
    ghost use Rattle.mas_steal_rack.specs.Rule.{Taken, IsDry};

    ghost then = { Taken T.number T.home T.ready };

    ghost empty = { IsDry };
}

/// One part for a new pass.
pub struct DequeSplit;

impl<H> Split<DequeView<H>> for DequeSplit {
    ghost use Rattle.mas_steal_rack.specs.Rule.{less, one_part};

    ghost left = { less };

    ghost right = { one_part };
}

impl<H> Join<DequeView<H>> for DequeSplit {
    ghost use Rattle.mas_steal_rack.specs.Rule.{both_of, spent};

    ghost both = { both_of };

    ghost spent = { spent };
}

/// No pass has more parts than there are.
impl<T, H> Lesson<T, DequeView<H>> for DequeSplit {
    ghost use Rattle.std.specs.Prelude.{◌≤◌};
    ghost use Rattle.mas_steal_rack.specs.Rule.{whole};

    ghost fact = { λ v items. v.parts ≤ whole };
}
