//! Places by sign, functor and number of arguments.

ghost use Rattle.std.specs.Prelude.{◌≡◌, ◌<◌, ◌≤◌, ◌++◌, ◌∷◌, [], List, ℕ, Bool, Some, None, length, slice_get, slice_set, MatchOption, OnOk, OnErr};
ghost use Rattle.std.specs.HashMap.{get};
ghost use Rattle.std.specs.Str.{bytes_eq};
ghost use Rattle.asl_index_tables.specs.declared.frames.Group.{Group};
ghost use Rattle.asl_unify.specs.Compare as unify;
ghost use Rattle.asl_index_tables.specs.Firsts.{AreOther, first_print};
ghost use Rattle.asl_index_tables.specs.Frames as spec;
ghost use Rattle.asl_index_tables.specs.Frames.{filed, group_from, place_from, places_in, ArePut, AreTaken, IsSame, IsPut, IsTaken};

use crate::firsts;
use asl_term::copying::copy_text;
use asl_term::sequence::{Seq, Starved};
use asl_term::syntax::{Literal, Numbers, Text};
use std::alloc::Global;
use std::collections::HashMap;

/// The places of what has one sign and one number of arguments, in order.
#[derive(Drop)]
pub struct Group {
    pub neg: bool,
    pub count: u64,
    pub places: Numbers,
}

pub type Groups = Seq<Group>;

/// Places in a list, by sign, functor and number of arguments.
pub struct Frames {
    pub groups: HashMap<Text, Groups>,
}

/// By hand, so that a crate above that lets one go proves nothing of its parts.
impl Drop for Frames {
    fn drop(self) {
        let Frames { groups: _ } = self;
    }
}

/// Whether two signs are one.
fn same_sign(a: bool, b: bool) -> bool
    ensures { result ≡ unify.same_sign a b }
{
    if a { b } else { !b }
}

/// The first group of a sign and a number.
fn find(groups: &[Group], neg: bool, count: u64) -> Option<u64>
    ensures { result ≡ group_from 0 neg count groups.now }
{
    for i in 0..groups.len() {
        if same_sign(neg, groups[i].neg) && count == groups[i].count {
            return Some(i as u64);
        }
    }
    None
}

/// Puts a place last in the k-th group.
fn put_at(groups: &mut Groups, k: u64, place: u64) -> Result<(), Starved>
    requires { k < length groups.old }
    ensures ok { OnOk result ((g : Group) → slice_get groups.old k ≡ Some g
        → groups.new ≡ slice_set groups.old k (spec.with_places g (g.places ++ place ∷ []))) }
    ensures err { OnErr result (groups.new ≡ groups.old) }
{
    groups.at_mut(k).places.push(place)
}

/// Puts a place last under a sign and a number.
fn put_in(
    alloc: Global,
    groups: &mut Groups,
    neg: bool,
    count: u64,
    place: u64,
) -> Result<(), Starved>
    ensures ok { OnOk result (ArePut neg count place groups.old groups.new) }
    ensures err { OnErr result (groups.new ≡ groups.old) }
{
    match find(groups.as_slice(), neg, count) {
        Some(k) => put_at(groups, k, place),
        None => {
            let mut places = Seq::new(alloc);
            places.push(place)?;
            groups.push(Group { neg, count, places })
        }
    }
}

/// Where a place stands among places.
fn find_place(places: &[u64], place: u64) -> Option<u64>
    ensures { result ≡ place_from 0 place places.now }
{
    for i in 0..places.len() {
        if place == places[i] {
            return Some(i as u64);
        }
    }
    None
}

/// Takes a place out of a list of places.
pub fn take_place(places: &mut Numbers, place: u64)
    ensures { places.new ≡ spec.without place places.old }
{
    match find_place(places.as_slice(), place) {
        Some(k) => {
            places.remove(k);
        }
        None => {}
    }
}

/// Takes a place out of the k-th group.
fn take_at(groups: &mut Groups, k: u64, place: u64)
    requires { k < length groups.old }
    ensures { (g : Group) → slice_get groups.old k ≡ Some g → groups.new ≡ slice_set groups.old k (spec.with_places g (spec.without place g.places)) }
{
    take_place(&mut groups.at_mut(k).places, place);
}

/// Takes a place out under a sign and a number.
fn take_from(groups: &mut Groups, neg: bool, count: u64, place: u64)
    ensures { AreTaken neg count place groups.old groups.new }
{
    match find(groups.as_slice(), neg, count) {
        Some(k) => take_at(groups, k, place),
        None => {}
    }
}

/// The places under a sign and a number.
fn places_of(groups: &[Group], neg: bool, count: u64) -> Option<&Numbers>
    ensures { MatchOption result (places_in neg count groups.now ≡ []) (λ r. r.now ≡ places_in neg count groups.now) }
{
    for g in groups {
        if same_sign(neg, g.neg) && count == g.count {
            return Some(&g.places);
        }
    }
    None
}

impl Frames {
    /// Nothing is filed.
    pub fn new(alloc: Global) -> Frames
        ensures { (neg : Bool) (functor : List ℕ) (count : ℕ) → filed result neg functor count ≡ [] }
    {
        Frames {
            groups: HashMap::new(alloc),
        }
    }

    /// The places with the frame of a literal.
    fn find(&self, l: &Literal) -> Option<&Numbers>
        ensures { MatchOption result (filed self.now l.now.neg l.now.functor (length l.now.args) ≡ [])
            (λ r. r.now ≡ filed self.now l.now.neg l.now.functor (length l.now.args)) }
    {
        match self.groups.get(&l.functor) {
            Some(groups) => places_of(groups.as_slice(), l.neg, l.args.len()),
            None => None,
        }
    }

    /// How many places have the frame of a literal.
    pub fn count(&self, l: &Literal) -> u64
        ensures { result ≡ length (filed self.now l.now.neg l.now.functor (length l.now.args)) }
    {
        match self.find(l) {
            Some(places) => places.len(),
            None => 0,
        }
    }

    /// The k-th of them.
    pub fn at(&self, l: &Literal, k: u64) -> Option<u64>
        ensures { result ≡ slice_get (filed self.now l.now.neg l.now.functor (length l.now.args)) k }
    {
        match self.find(l) {
            Some(places) => places.at(k).copied(),
            None => None,
        }
    }

    /// The k-th of them, and how many there are: one look-up for both.
    pub fn pick(&self, l: &Literal, k: u64) -> (Option<u64>, u64)
        ensures place { result.0 ≡ slice_get (filed self.now l.now.neg l.now.functor (length l.now.args)) k }
        ensures count { result.1 ≡ length (filed self.now l.now.neg l.now.functor (length l.now.args)) }
    {
        match self.find(l) {
            Some(places) => (places.at(k).copied(), places.len()),
            None => (None, 0),
        }
    }

    /// The first of them, from the k-th on, of which the number of the first argument may agree with that of a literal, where
    /// these numbers are noted by place; how many there are where there is none, and `k` itself where it is not less.
    pub fn next(&self, l: &Literal, firsts: &[u64], k: u64) -> u64
        ensures from { k ≤ result }
        ensures within { k < result → result ≤ length (filed self.now l.now.neg l.now.functor (length l.now.args)) }
        ensures between { AreOther (first_print l.now) firsts.now (filed self.now l.now.neg l.now.functor (length l.now.args)) k result }
    {
        let first = firsts::first_print(l);
        if first == 0 {
            return k;
        }
        match self.find(l) {
            Some(places) => firsts::next_like(places.as_slice(), firsts, first, k),
            None => k,
        }
    }

    /// Puts a place last under the frame of a literal.
    pub fn put(&mut self, alloc: Global, l: &Literal, place: u64) -> Result<(), Starved>
        ensures ok { OnOk result (IsPut l.now place self.old self.new) }
        ensures err { OnErr result (IsSame self.old self.new) }
    {
        match self.groups.get_mut(&l.functor) {
            Some(groups) => put_in(alloc, groups, l.neg, l.args.len(), place),
            None => self.put_first(alloc, l, place),
        }
    }

    /// The same where nothing has its functor.
    fn put_first(&mut self, alloc: Global, l: &Literal, place: u64) -> Result<(), Starved>
        requires { get bytes_eq self.old.groups l.now.functor ≡ None }
        ensures ok { OnOk result (IsPut l.now place self.old self.new) }
        ensures err { OnErr result (IsSame self.old self.new) }
    {
        let mut groups = Seq::new(alloc);
        put_in(alloc, &mut groups, l.neg, l.args.len(), place)?;
        let functor = copy_text(alloc, &l.functor)?;
        match self.groups.insert(functor, groups) {
            Ok(_) => Ok(()),
            Err(_) => Err(Starved),
        }
    }

    /// Takes a place out under the frame of a literal.
    pub fn take(&mut self, l: &Literal, place: u64)
        ensures { IsTaken l.now place self.old self.new }
    {
        match self.groups.get_mut(&l.functor) {
            Some(groups) => take_from(groups, l.neg, l.args.len(), place),
            None => {}
        }
    }
}
