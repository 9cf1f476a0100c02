//! Boxes of messages, first in, first out.

ghost use Rattle.std.specs.Prelude.{◌≡◌, [], ◌<◌, ◌≤◌, ◌+◌, ◌∷◌, ◌++◌, drop, length, IsOk, OnOk, OnErr, IfSome, slice_get};
ghost use Rattle.std.specs.Option.{option_copied};
ghost use Rattle.mas_mind.specs.Minds.{IsAgent};
ghost use Rattle.mas_board.specs.Posts as spec;
ghost use Rattle.mas_board.specs.Posts.{IsTo};

use asl_term::sequence::{Seq, Starved};
use asl_term_queue::room::RoomyQueue;
use mas_mind::mind::Message;
use std::marker::Model;

/// A box for each agent, by the agents' numbers from 1 on. Contracts see for each box its messages, the oldest first,
/// and its free places.
pub struct Post {
    boxes: Seq<RoomyQueue<Message>>,
}

/// By hand, so that a crate above that lets one go proves nothing of its parts.
impl Drop for Post {
    fn drop(self) {
        let Post { boxes: _ } = self;
    }
}

impl Model for Post {
    ghost use Rattle.std.specs.Prelude.{List};
    ghost use Rattle.std.specs.Coded.{codes, coded_list};
    ghost use Rattle.asl_term.specs.Spare.{WithSpare, spare_code};
    ghost use Rattle.asl_term.specs.contracts.syntax.Term as t;
    ghost use Rattle.mas_mind.specs.declared.mind.Message.{Message};
    ghost use Rattle.mas_board.specs.Posts.{IsPost};

    ghost Value = { List (WithSpare Message) };

    ghost coded = { coded_list (spare_code (Prim.hlevel (codes, t.the_row.coded))) };

    ghost view = { λ p. p.boxes };

    ghost invariant = { λ p. IsPost p.boxes };
}

impl Post {
    /// These boxes, in their order.
    pub fn of(boxes: Seq<RoomyQueue<Message>>) -> Post
        requires { spec.IsPost boxes }
        ensures { result ≡ boxes }
    {
        Post { boxes }
    }

    /// Makes the free places of a box at least `n`.
    pub fn reserve(&mut self, a: u32, n: u64) -> Result<(), Starved>
        requires { IsAgent (length self.old) a }
        ensures list { spec.messages self.new a ≡ spec.messages self.old a }
        ensures room { OnOk result (n ≤ spec.spare self.new a) }
        ensures kept { spec.spare self.old a ≤ spec.spare self.new a }
        ensures enough { n ≤ spec.spare self.old a → IsOk result }
        ensures others { spec.OthersStay a self.old self.new }
    {
        self.boxes.at_mut((a - 1) as u64).reserve(n)
    }

    /// Puts a message last into the box of its receiver.
    pub fn put(&mut self, m: Message) -> Result<(), Starved>
        requires { IsAgent (length self.old) m.to }
        ensures ok { OnOk result (spec.messages self.new m.to ≡ spec.messages self.old m.to ++ m ∷ []) }
        ensures err { OnErr result (spec.messages self.new m.to ≡ spec.messages self.old m.to) }
        ensures room { 0 < spec.spare self.old m.to → IsOk result × (spec.spare self.new m.to + 1 ≡ spec.spare self.old m.to) }
        ensures others { spec.OthersStay m.to self.old self.new }
    {
        let place = (m.to - 1) as u64;
        self.boxes.at_mut(place).push(m)
    }

    /// The oldest message of a box, which leaves it. Its place becomes free.
    pub fn take(&mut self, a: u32) -> Option<Message>
        requires { IsAgent (length self.old) a }
        ensures value { result ≡ slice_get (spec.messages self.old a) 0 }
        ensures rest { spec.messages self.new a ≡ drop 1 (spec.messages self.old a) }
        ensures room { 0 < length (spec.messages self.old a) → spec.spare self.new a ≡ spec.spare self.old a + 1 }
        ensures kept { spec.spare self.old a ≤ spec.spare self.new a }
        ensures addressed { IfSome result (IsTo a) }
        ensures others { spec.OthersStay a self.old self.new }
    {
        self.boxes.at_mut((a - 1) as u64).take_first()
    }

    /// The number of messages in a box.
    pub fn count(&self, a: u32) -> u64
        requires { IsAgent (length self.now) a }
        ensures { result ≡ length (spec.messages self.now a) }
    {
        match self.boxes.at((a - 1) as u64) {
            Some(messages) => messages.len(),
            None => 0,
        }
    }

    /// The k-th oldest message of a box, counted from 0.
    pub fn peek(&self, a: u32, k: u64) -> Option<&Message>
        requires { IsAgent (length self.now) a }
        ensures { option_copied result ≡ slice_get (spec.messages self.now a) k }
    {
        match self.boxes.at((a - 1) as u64) {
            Some(messages) => messages.at(k),
            None => None,
        }
    }
}
