//! Answers that are remembered.

ghost use Rattle.std.specs.Prelude.{◌≡◌, [], IfSome, OnOk};
ghost use Rattle.mas_explore_tables.specs.Tables as spec;

use crate::table::{Known, Table};
use asl_term::sequence::{Seq, Starved};
use std::alloc::Global;
use std::marker::Model;

/// Questions with their answers. Contracts see both lists.
pub struct Answered<K: Known, R: Copy + Drop> {
    keys: Table<K>,
    values: Seq<R>,
}

/// By hand, so that a crate above that lets one go proves nothing of its parts.
impl<K: Known, R: Copy + Drop> Drop for Answered<K, R> {
    fn drop(self) {
        let Answered { keys: _, values: _ } = self;
    }
}

impl<K: Known, R: Copy + Drop> Model for Answered<K, R> {
    ghost use Rattle.std.specs.Prelude.{◌≤◌, length};
    ghost use Rattle.std.specs.Coded.{codes};
    ghost use Rattle.mas_explore_tables.specs.Tables.{Answers};

    ghost Value = { Answers K R };

    ghost coded = { Prim.hlevel (codes, K.code, R.code) };

    ghost view = { λ a. record { keys = a.keys; values = a.values } };

    ghost invariant = { λ a. length a.values ≤ length a.keys };
}

impl<K: Known, R: Copy + Drop> Answered<K, R> {
    /// No answers.
    pub fn new(alloc: Global) -> Answered<K, R>
        ensures { result ≡ record { keys = []; values = [] } }
    {
        Answered {
            keys: Table::new(alloc),
            values: Seq::new(alloc),
        }
    }

    /// The answer to this question. It may be said of one that has an answer that it has none.
    pub fn get(&self, key: &K) -> Option<R>
        ensures { IfSome result (spec.Recalls self.now key.now) }
    {
        let place = self.keys.look(key)?;
        match self.values.at(place) {
            Some(value) => Some(*value),
            None => None,
        }
    }

    /// Remembers an answer.
    pub fn note(&mut self, alloc: Global, key: K, value: R) -> Result<(), Starved>
        ensures { OnOk result (spec.HasNoted self.old self.new key value) }
    {
        let place = self.keys.enter(alloc, key)?;
        if place == self.values.len() {
            self.values.push(value)?;
        }
        Ok(())
    }
}
