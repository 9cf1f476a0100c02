//! What is added to the plans of a library and dropped from them, with where they are found.

ghost use Rattle.std.specs.Prelude.{◌≡◌, ◌<◌, ◌++◌, ◌∷◌, ◌-◌, [], Some, length, not, slice_get, slice_set, IfOk, OnOk, OnErr};
ghost use Rattle.asl_plans.specs.declared.entry.OwnedPlan.{OwnedPlan as Held};
ghost use Rattle.asl_plans.specs.FiledPlaces.{IsIndex};
ghost use Rattle.asl_plans.specs.Libraries as spec;
ghost use Rattle.asl_plans.specs.Libraries.{AreEntries};

use crate::entry::{OwnedPlan, OwnedPlans, Which};
use crate::filing::FiledPlaces;
use crate::index::{find, index_left, put_last};
use crate::owners::{put_owner, take_back};
use asl_index_tables::keys::Keys;
use asl_term::sequence::{Seq, Starved};
use asl_term::syntax::Plan;
use std::mem;

/// One more owner of the plan at a place. Answers whether it is new.
fn own_at(entries: &mut OwnedPlans, k: u64, owner: u32) -> Result<bool, Starved>
    requires { k < length entries.old }
    ensures new { IfOk result (λ new. (e : Held) → slice_get entries.old k ≡ Some e → new ≡ not (spec.owns owner e)) }
    ensures ok { OnOk result ((e : Held) → slice_get entries.old k ≡ Some e → entries.new ≡ slice_set entries.old k (spec.with_owner owner e)) }
    ensures err { OnErr result (entries.new ≡ entries.old) }
{
    put_owner(entries.at_mut(k), owner)
}

/// A plan with its first owner.
fn entry_of(p: Plan, owner: u32) -> Result<OwnedPlan, Starved>
    ensures { IfOk result (λ e. e ≡ spec.entry p owner) }
{
    let mut owners = Seq::new(p.body.alloc());
    match owners.push(owner) {
        Ok(()) => Ok(OwnedPlan { plan: p, owners }),
        Err(starved) => {
            drop(p);
            Err(starved)
        }
    }
}

/// Puts a plan last that is not there.
fn put_new(
    entries: &mut OwnedPlans,
    filed: &mut FiledPlaces,
    keys: &mut Keys,
    p: Plan,
    owner: u32,
) -> Result<(), Starved>
    requires { IsIndex entries.old filed.old keys.old }
    ensures ok { OnOk result (entries.new ≡ entries.old ++ spec.entry p owner ∷ []) }
    ensures err { OnErr result (entries.new ≡ entries.old) }
    ensures index { IsIndex entries.new filed.new keys.new }
{
    let alloc = entries.alloc();
    let e = entry_of(p, owner)?;
    entries.push(e)?;
    match put_last(alloc, entries.as_slice(), filed, keys) {
        Ok(()) => Ok(()),
        Err(starved) => {
            drop(entries.pop());
            Err(starved)
        }
    }
}

/// Adds a plan from an owner. Answers whether it is new.
pub fn add_to(
    entries: &mut OwnedPlans,
    filed: &mut FiledPlaces,
    keys: &mut Keys,
    p: Plan,
    owner: u32,
) -> Result<bool, Starved>
    requires index { IsIndex entries.old filed.old keys.old }
    requires sound { AreEntries entries.old }
    ensures new { IfOk result (λ new. new ≡ not (spec.is_owned p owner entries.old)) }
    ensures ok { OnOk result (entries.new ≡ spec.added p owner entries.old) }
    ensures err { OnErr result (entries.new ≡ entries.old) }
    ensures index { IsIndex entries.new filed.new keys.new }
    ensures sound { AreEntries entries.new }
{
    match find(entries.as_slice(), keys, &p) {
        Some(k) => {
            drop(p);
            own_at(entries, k, owner)
        }
        None => {
            put_new(entries, filed, keys, p, owner)?;
            Ok(true)
        }
    }
}

/// Takes an owner from the plans that are meant. Answers how many had no owner left, and went.
pub fn drop_from(
    entries: &mut OwnedPlans,
    filed: &mut FiledPlaces,
    keys: &mut Keys,
    which: &Which,
    owner: u32,
) -> Result<u64, Starved>
    requires index { IsIndex entries.old filed.old keys.old }
    requires sound { AreEntries entries.old }
    ensures ok { OnOk result (entries.new ≡ spec.dropped which.now owner entries.old) }
    ensures count { IfOk result (λ n. n ≡ length entries.old - length entries.new) }
    ensures err { OnErr result (entries.new ≡ entries.old) }
    ensures index { IsIndex entries.new filed.new keys.new }
    ensures sound { AreEntries entries.new }
{
    let alloc = entries.alloc();
    let (left, listed) = index_left(alloc, entries.as_slice(), which, owner)?;
    let before = entries.len();
    take_back(alloc, entries, which, owner);
    drop(mem::replace(filed, left));
    drop(mem::replace(keys, listed));
    Ok(before.saturating_sub(entries.len()))
}
