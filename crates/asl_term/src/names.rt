//! Numbers for names.

ghost use Rattle.std.specs.Prelude.{◌≡◌, ◌<◌, [], Some, length, IfOk, OnOk, OnErr};
ghost use Rattle.std.specs.List.{IsDistinct};
ghost use Rattle.std.specs.Option.{option_copied};
ghost use Rattle.std.specs.Str.{bytes_eq};
ghost use Rattle.std.specs.Cmp.{partial_equiv_from_equiv};
ghost use Rattle.std.specs.Cmp.Lexicographic.{nat_list_eq_equiv};
ghost use Rattle.std.specs.Cmp.Rules.{hashing};
ghost use Rattle.std.specs.Hash as fed;
ghost use Rattle.std.proofs.Common.{rules};
ghost use Rattle.asl_term.specs.Names.{place_of, with_name, name_at};

use crate::copying::copy_text;
use crate::sequence::{Seq, Starved};
use crate::syntax::Text;
use indexmap::IndexSet;
use std::alloc::Global;
use std::hash::{Hash, Hasher};
use std::marker::Model;

impl PartialEq for Seq<u8> {
    ghost eq = { bytes_eq };

    ghost laws = { partial_equiv_from_equiv nat_list_eq_equiv };

    fn eq(&self, other: &Seq<u8>) -> bool {
        self.as_slice() == other.as_slice()
    }
}

impl Eq for Seq<u8> {
    ghost laws = { nat_list_eq_equiv };
}

impl Hash for Seq<u8> {
    ghost hash_input = { fed.slice fed.u8 };

    ghost respects_eq = { Prim.search (hashing, rules) };

    fn hash<H: Hasher>(&self, state: &mut H) {
        self.as_slice().hash(state);
    }
}

/// A list of distinct names, fewer than 2^32. Contracts see them in their order.
pub struct Names {
    texts: IndexSet<Text>,
}

/// By hand, so that a crate above that lets one go proves nothing of its parts.
impl Drop for Names {
    fn drop(self) {
        let Names { texts: _ } = self;
    }
}

impl Model for Names {
    ghost use Rattle.std.specs.Prelude.{ℕ, ◌<◌, ◌^◌, List, length};
    ghost use Rattle.std.specs.Coded.{coded_ℕ, coded_list};

    ghost Value = { List (List ℕ) };

    ghost coded = { coded_list (coded_list coded_ℕ) };

    ghost view = { λ n. n.texts.keys };

    ghost invariant = { λ n. length n.texts.keys < 2 ^ 32 };
}

impl Names {
    /// No names.
    pub fn new(alloc: Global) -> Result<Names, Starved>
        ensures { IfOk result (λ n. n ≡ []) }
    {
        Ok(Names {
            texts: IndexSet::new(alloc),
        })
    }

    /// How many names there are.
    pub fn len(&self) -> u32
        ensures number { result ≡ length self.now }
        ensures distinct { IsDistinct bytes_eq self.now }
    {
        self.texts.len() as u32
    }

    /// The name at the place `k`, counted from 1.
    pub fn at(&self, k: u32) -> Option<&Text>
        ensures { option_copied result ≡ name_at self.now k }
    {
        if k == 0 {
            return None;
        }
        self.texts.get_index((k - 1) as usize)
    }
}

/// The place of the name, counted from 1.
#[tactic(auto, using(crate::proofs::Places::place_at))]
pub fn find(names: &Names, name: &Text) -> Option<u32>
    ensures { result ≡ place_of names.now name.now }
{
    match names.texts.get_index_of(name) {
        None => None,
        Some(index) => Some((index as u32) + 1),
    }
}

/// The place of the name, counted from 1. A new name goes last.
#[tactic(auto, using(crate::proofs::Places::absent, crate::proofs::Places::known, crate::proofs::Places::added))]
pub fn number(names: &mut Names, name: &Text) -> Result<u32, Starved>
    requires { length names.old < 4294967295 }
    ensures names { OnOk result (names.new ≡ with_name names.old name.now) }
    ensures place { IfOk result (λ k. place_of names.new name.now ≡ Some k) }
    ensures err { OnErr result (names.new ≡ names.old) }
{
    if let Some(k) = find(names, name) {
        return Ok(k);
    }
    let copied = copy_text(name.alloc(), name)?;
    match names.texts.insert_full(copied) {
        Ok((index, _)) => Ok((index as u32) + 1),
        Err(_) => Err(Starved),
    }
}

/// Equal names, in order.
#[tactic(auto, using(crate::proofs::Naming::next_name, crate::proofs::Naming::no_gap))]
pub fn copy_names(alloc: Global, names: &Names) -> Result<Names, Starved>
    ensures { IfOk result (λ r. r ≡ names.now) }
{
    let mut r = Names::new(alloc)?;
    for k in 0..names.len() {
        if let Some(name) = names.at(k + 1) {
            number(&mut r, name)?;
        }
    }
    Ok(r)
}
