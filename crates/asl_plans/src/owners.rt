//! Who a plan is from.

ghost use Rattle.std.specs.Prelude.{◌≡◌, ◌==◌, not, filter, map, IfOk, OnOk, OnErr};
ghost use Rattle.std.specs.List.{list_any};
ghost use Rattle.asl_plans.specs.Libraries as spec;

use crate::entry::{OwnedPlan, OwnedPlans, Owners, Which};
use crate::same::is_meant;
use asl_term::sequence::{Seq, Starved};
use std::alloc::Global;
use std::mem;

fn is_among(owners: &[u32], owner: u32) -> bool
    ensures { result ≡ list_any (λ x. x == owner) owners.now }
{
    for x in owners {
        if *x == owner {
            return true;
        }
    }
    false
}

/// Whether some owner is another one.
fn has_another(owners: &[u32], owner: u32) -> bool
    ensures { result ≡ list_any (λ x. not (x == owner)) owners.now }
{
    for x in owners {
        if *x != owner {
            return true;
        }
    }
    false
}

/// Puts an owner last, unless it is there already. Answers whether it was put.
pub fn put_owner(e: &mut OwnedPlan, owner: u32) -> Result<bool, Starved>
    ensures new { IfOk result (λ new. new ≡ not (spec.owns owner e.old)) }
    ensures ok { OnOk result (e.new ≡ spec.with_owner owner e.old) }
    ensures err { OnErr result (e.new ≡ e.old) }
{
    if is_among(e.owners.as_slice(), owner) {
        return Ok(false);
    }
    e.owners.push(owner)?;
    Ok(true)
}

/// Takes an owner out.
fn lose_owner(alloc: Global, owners: &mut Owners, owner: u32)
    ensures { owners.new ≡ filter (λ x. not (x == owner)) owners.old }
{
    let mut all = mem::replace(owners, Seq::new(alloc)).into_vec();
    all.retain(|x| *x != owner);
    drop(mem::replace(owners, Seq::from_vec(all)));
}

/// Takes an owner out where the plan is meant.
fn lose(alloc: Global, e: &mut OwnedPlan, which: &Which, owner: u32)
    ensures { e.new ≡ spec.lost which.now owner e.old }
{
    if is_meant(which, &e.plan) {
        lose_owner(alloc, &mut e.owners, owner);
    }
}

/// Takes an owner out of all plans that are meant.
fn lose_all(alloc: Global, entries: &mut OwnedPlans, which: &Which, owner: u32)
    ensures { entries.new ≡ map (spec.lost which.now owner) entries.old }
{
    for k in 0..entries.len() {
        lose(alloc, entries.at_mut(k), which, owner);
    }
}

fn has_owner(e: &OwnedPlan) -> bool
    ensures { result ≡ spec.has_owner e.now }
{
    e.owners.len() != 0
}

/// Whether a plan still has an owner once this one has taken back what is meant.
pub fn is_kept(e: &OwnedPlan, which: &Which, owner: u32) -> bool
    ensures { result ≡ spec.has_owner (spec.lost which.now owner e.now) }
{
    if is_meant(which, &e.plan) {
        return has_another(e.owners.as_slice(), owner);
    }
    has_owner(e)
}

/// Keeps the plans that have an owner.
fn keep_owned(alloc: Global, entries: &mut OwnedPlans)
    ensures { entries.new ≡ filter spec.has_owner entries.old }
{
    let mut all = mem::replace(entries, Seq::new(alloc)).into_vec();
    all.retain(|e| has_owner(e));
    drop(mem::replace(entries, Seq::from_vec(all)));
}

/// Takes an owner out of all plans that are meant, and then those plans that have none left.
pub fn take_back(alloc: Global, entries: &mut OwnedPlans, which: &Which, owner: u32)
    ensures { entries.new ≡ spec.dropped which.now owner entries.old }
{
    lose_all(alloc, entries, which, owner);
    keep_owned(alloc, entries);
}
