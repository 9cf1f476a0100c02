//! Substitutions one after another, and an index of the variables that they bind: the next one that binds a variable is found
//! without a look at those between.

ghost use Rattle.std.specs.Prelude.{◌≡◌, ◌<◌, ◌≤◌, ◌+◌, [], ◌∷◌, ◌++◌, length, drop, MatchOption, IfSome, IfOk, OnOk, OnErr};
ghost use Rattle.asl_unify.specs.Logs.{later};
ghost use Rattle.asl_unify.specs.inner.Logs.{HasFirst, HasAll, IsNext, IsPair, PassesBy};

use crate::slots::{Slots, empty, slot};
use crate::subst::Subst;
use asl_term::sequence::{Seq, Starved};
use asl_term::syntax::Var;
use std::alloc::Global;
use std::marker::Model;

/// The pairs of all substitutions, in their order, by the slots of their variables.
#[derive(Drop)]
pub struct Index {
    pub slots: Slots,
    /// For each pair the number of its substitution.
    pub of: Vec<usize>,
}

/// Substitutions, the oldest first.
pub struct Log {
    substs: Seq<Subst>,
    /// Few substitutions have none.
    index: Option<Index>,
}

/// By hand, so that a crate above that lets one go proves nothing of its parts.
impl Drop for Log {
    fn drop(self) {
        let Log {
            substs: _,
            index: _,
        } = self;
    }
}

impl Model for Log {
    ghost use Rattle.std.specs.Prelude.{List, IfSome};
    ghost use Rattle.asl_unify.specs.declared.subst.Pair.{Pair};
    ghost use Rattle.asl_unify.specs.inner.Logs.{HasAll};
    ghost use Rattle.asl_term.specs.contracts.syntax.Term as t;
    ghost use Rattle.std.specs.Coded.{codes};

    ghost Value = { List (List Pair) };

    ghost coded = { Prim.hlevel (codes, t.the_row.coded) };

    ghost view = { λ l. l.substs };

    ghost invariant = { λ l. IfSome l.index (HasAll l.substs) };
}

/// The substitutions of a log from a number on, or none.
#[derive(Clone, Copy)]
pub struct Later<'a> {
    pub log: Option<&'a Log>,
    pub from: usize,
}

/// So many substitutions are looked at one by one.
const FEW: usize = 16;

impl<'a> Later<'a> {
    /// The first, and those behind it.
    pub fn split_first(self) -> Option<(&'a Subst, Later<'a>)>
        ensures { MatchOption result (later self.entry ≡ []) (λ r. later self.entry ≡ r.0.now ∷ later r.1) }
    {
        match self.log {
            None => None,
            Some(log) => log.at(self.from),
        }
    }

    /// The first that binds a variable, and those behind it. Where none does, it may be any.
    pub fn split_bound(self, x: &Var) -> Option<(&'a Subst, Later<'a>)>
        ensures { MatchOption result (later self.entry ≡ []) (λ r. IsNext (later self.entry) x.now (r.0.now ∷ later r.1)) }
    {
        match self.log {
            None => None,
            Some(log) => log.at_bound(self.from, x),
        }
    }
}

/// The number of the first substitution from a number on that has a pair in the slot of a variable; where none has, of the last.
fn bound_from(all: &[Subst], index: &Index, from: usize, x: &Var) -> usize
    requires indexed { HasAll all.now index.now }
    requires within { from < length all.now }
    ensures low { from ≤ result }
    ensures high { result < length all.now }
    ensures free { PassesBy all.now x.now from result }
{
    let slots = &index.slots;
    let mut found = all.len() - 1;
    let mut at = slots.last[slot(x, slots.last.len())];
    while at > 0 {
        let number = index.of[at - 1];
        if number < from {
            return found;
        }
        found = number;
        at = slots.before[at - 1];
    }
    found
}

/// An index of nothing, with so many slots.
fn empty_index(alloc: Global, count: usize) -> Result<Index, Starved>
    requires { 0 < count }
    ensures { IfOk result (λ r. HasFirst [] 0 0 r) }
{
    let slots = empty(alloc, count)?;
    Ok(Index {
        slots,
        of: Vec::new(alloc),
    })
}

/// Puts a pair of a substitution into its slot, behind those that are in theirs.
fn put_pair(all: &[Subst], k: usize, i: usize, index: &mut Index) -> Result<(), Starved>
    requires indexed { HasFirst all.now k i index.old }
    requires there { IsPair all.now k i }
    ensures { OnOk result (HasFirst all.now k (i + 1) index.new) }
{
    let pair = &all[k].pairs()[i];
    let place = slot(&pair.var, index.slots.last.len());
    index.slots.before.push(index.slots.last[place])?;
    index.of.push(k)?;
    index.slots.last[place] = index.of.len();
    Ok(())
}

/// Puts the pairs of a substitution into their slots.
fn put(all: &[Subst], k: usize, index: &mut Index) -> Result<(), Starved>
    requires indexed { HasFirst all.now k 0 index.old }
    requires within { k < length all.now }
    ensures { OnOk result (HasFirst all.now (k + 1) 0 index.new) }
{
    for i in 0..all[k].pairs().len() {
        put_pair(all, k, i, index)?;
    }
    Ok(())
}

/// The same of those from a number on. If memory is wanting, the index is let go.
fn filled(all: &[Subst], from: usize, index: Index) -> Option<Index>
    requires indexed { HasFirst all.now from 0 index }
    requires within { from ≤ length all.now }
    ensures { IfSome result (HasAll all.now) }
{
    let mut index = index;
    for k in from..all.len() {
        if put(all, k, &mut index).is_err() {
            return None;
        }
    }
    Some(index)
}

/// An index of all in so many slots.
fn filled_anew(alloc: Global, all: &[Subst], count: usize) -> Option<Index>
    requires { 0 < count }
    ensures { IfSome result (HasAll all.now) }
{
    match empty_index(alloc, count) {
        Ok(index) => filled(all, 0, index),
        Err(_) => None,
    }
}

/// The index of substitutions of which those from a number on are in none yet. Few have none; where there are more pairs than
/// slots, there become twice as many slots as pairs.
fn index_of(alloc: Global, all: &[Subst], from: usize, index: Option<Index>) -> Option<Index>
    requires indexed { IfSome index (HasFirst all.now from 0) }
    requires within { from ≤ length all.now }
    ensures { IfSome result (HasAll all.now) }
{
    match index {
        Some(index) => {
            let pairs = index.of.len();
            if pairs <= index.slots.last.len() {
                filled(all, from, index)
            } else {
                drop(index);
                filled_anew(alloc, all, 2 * pairs)
            }
        }
        None => {
            if all.len() <= FEW {
                None
            } else {
                filled_anew(alloc, all, 2 * all.len())
            }
        }
    }
}

impl Log {
    /// No substitutions. It takes no memory before the first is put in.
    pub fn new(alloc: Global) -> Log
        ensures { result ≡ [] }
    {
        Log {
            substs: Seq::new(alloc),
            index: None,
        }
    }

    /// What it allocates with.
    pub fn alloc(&self) -> Global {
        self.substs.alloc()
    }

    /// How many there are.
    pub fn len(&self) -> u64
        ensures { result ≡ length self.now }
    {
        self.substs.len()
    }

    /// Puts one last.
    #[tactic(auto, using(crate::proofs::Logged::longer_if))]
    pub fn push(&mut self, s: Subst) -> Result<(), Starved>
        ensures ok { OnOk result (self.new ≡ self.old ++ s ∷ []) }
        ensures err { OnErr result (self.new ≡ self.old) }
    {
        let from = self.substs.as_slice().len();
        match self.substs.push(s) {
            Ok(()) => {
                let alloc = self.substs.alloc();
                self.index = index_of(alloc, self.substs.as_slice(), from, self.index.take());
                Ok(())
            }
            Err(starved) => Err(starved),
        }
    }

    /// Lets all go.
    pub fn clear(&mut self)
        ensures { self.new ≡ [] }
    {
        drop(self.index.take());
        self.substs.truncate(0);
    }

    /// Those behind the first `n`.
    pub fn since(&self, n: u64) -> Later<'_>
        ensures { later result ≡ drop n self.now }
    {
        Later {
            log: Some(self),
            from: n as usize,
        }
    }

    /// The substitution of a number, and those behind it.
    fn at(&self, k: usize) -> Option<(&Subst, Later<'_>)>
        ensures { MatchOption result (drop k self.now ≡ []) (λ r. drop k self.now ≡ r.0.now ∷ later r.1) }
    {
        let all = self.substs.as_slice();
        if k < all.len() {
            let behind = Later {
                log: Some(self),
                from: k + 1,
            };
            Some((&all[k], behind))
        } else {
            None
        }
    }

    /// The first from a number on that binds a variable, and those behind it.
    fn at_bound(&self, from: usize, x: &Var) -> Option<(&Subst, Later<'_>)>
        ensures { MatchOption result (drop from self.now ≡ []) (λ r. IsNext (drop from self.now) x.now (r.0.now ∷ later r.1)) }
    {
        let all = self.substs.as_slice();
        match &self.index {
            Some(index) if from < all.len() => self.at(bound_from(all, index, from, x)),
            _ => self.at(from),
        }
    }
}
