//! Places by a number.

ghost use Rattle.std.specs.Prelude.{◌≡◌, [], ℕ, None, length, nat_eq, slice_get, OnOk, OnErr};
ghost use Rattle.std.specs.HashMap.{get};
ghost use Rattle.asl_index_tables.specs.Keys.{listed, IsSame, IsPut, IsTaken};

use crate::frames::take_place;
use asl_term::sequence::{Seq, Starved};
use asl_term::syntax::Numbers;
use std::alloc::Global;
use std::collections::HashMap;

/// Places in a list, by a number.
pub struct Keys {
    pub places: HashMap<u64, Numbers>,
}

/// By hand, so that a crate above that lets one go proves nothing of its parts.
impl Drop for Keys {
    fn drop(self) {
        let Keys { places: _ } = self;
    }
}

impl Keys {
    /// Nothing is listed.
    pub fn new(alloc: Global) -> Keys
        ensures { (n : ℕ) → listed result n ≡ [] }
    {
        Keys {
            places: HashMap::new(alloc),
        }
    }

    /// How many places are listed under a number.
    pub fn count(&self, key: u64) -> u64
        ensures { result ≡ length (listed self.now key) }
    {
        match self.places.get(&key) {
            Some(places) => places.len(),
            None => 0,
        }
    }

    /// The k-th of them.
    pub fn at(&self, key: u64, k: u64) -> Option<u64>
        ensures { result ≡ slice_get (listed self.now key) k }
    {
        match self.places.get(&key) {
            Some(places) => places.at(k).copied(),
            None => None,
        }
    }

    /// Puts a place last under a number.
    pub fn put(&mut self, alloc: Global, key: u64, place: u64) -> Result<(), Starved>
        ensures ok { OnOk result (IsPut key place self.old self.new) }
        ensures err { OnErr result (IsSame self.old self.new) }
    {
        match self.places.get_mut(&key) {
            Some(places) => places.push(place),
            None => self.put_first(alloc, key, place),
        }
    }

    /// The same where nothing is listed there.
    fn put_first(&mut self, alloc: Global, key: u64, place: u64) -> Result<(), Starved>
        requires { get nat_eq self.old.places key ≡ None }
        ensures ok { OnOk result (IsPut key place self.old self.new) }
        ensures err { OnErr result (IsSame self.old self.new) }
    {
        let mut places = Seq::new(alloc);
        places.push(place)?;
        match self.places.insert(key, places) {
            Ok(_) => Ok(()),
            Err(_) => Err(Starved),
        }
    }

    /// Takes a place out under a number.
    pub fn take(&mut self, key: u64, place: u64)
        ensures { IsTaken key place self.old self.new }
    {
        match self.places.get_mut(&key) {
            Some(places) => take_place(places, place),
            None => {}
        }
    }
}
