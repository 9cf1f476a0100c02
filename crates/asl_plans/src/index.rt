//! Where the plans of a library are found: filed by their triggers, and listed by a number that is made of these.

ghost use Rattle.std.specs.Prelude.{◌≡◌, ◌<◌, ◌++◌, ◌∷◌, ◌-◌, ◌^◌, [], List, length, slice_get, take, IfOk, OnOk, OnErr};
ghost use Rattle.asl_index_tables.specs.Keys as keyed;
ghost use Rattle.asl_plans.specs.declared.entry.OwnedPlan.{OwnedPlan as Held};
ghost use Rattle.asl_plans.specs.FiledPlaces as spec;
ghost use Rattle.asl_plans.specs.FiledPlaces.{AreListed, IsCounted, IsFound, IsIndex, IsPut, is_plan};
ghost use Rattle.asl_plans.specs.Libraries.{dropped};

use crate::entry::{OwnedPlan, Which};
use crate::filing::FiledPlaces;
use crate::keys::plan_key;
use crate::owners::is_kept;
use crate::same::same_plan;
use asl_index_tables::keys::Keys;
use asl_term::sequence::Starved;
use asl_term::syntax::Plan;
use std::alloc::Global;

/// Whether the plan at a place is this one.
fn is_at(entries: &[OwnedPlan], p: &Plan, k: u64) -> bool
    ensures { result ≡ is_plan p.now (slice_get entries.now k) }
{
    match entries.get(k as usize) {
        None => false,
        Some(e) => same_plan(p, &e.plan),
    }
}

/// The place of a plan, among those that are listed under its number.
pub fn find(entries: &[OwnedPlan], keys: &Keys, p: &Plan) -> Option<u64>
    requires { AreListed entries.now keys.now }
    ensures { IsFound p.now entries.now result }
{
    let key = plan_key(p);
    for k in 0..keys.count(key) {
        if let Some(place) = keys.at(key, k) {
            if is_at(entries, p, place) {
                return Some(place);
            }
        }
    }
    None
}

/// Files and lists a place for a plan.
fn put(
    alloc: Global,
    filed: &mut FiledPlaces,
    keys: &mut Keys,
    p: &Plan,
    place: u64,
) -> Result<(), Starved>
    ensures filed { OnOk result (IsPut p.now.trigger place filed.old filed.new) }
    ensures listed { OnOk result (keyed.IsPut (spec.plan_key p.now) place keys.old keys.new) }
{
    filed.put(alloc, &p.trigger, place)?;
    keys.put(alloc, plan_key(p), place)
}

/// Files and lists the last plan, or leaves all as it was.
pub fn put_last(
    alloc: Global,
    entries: &[OwnedPlan],
    filed: &mut FiledPlaces,
    keys: &mut Keys,
) -> Result<(), Starved>
    requires some { 0 < length entries.now }
    requires before { IsIndex (take (length entries.now - 1) entries.now) filed.old keys.old }
    ensures ok { OnOk result (IsIndex entries.now filed.new keys.new) }
    ensures err { OnErr result (IsIndex (take (length entries.now - 1) entries.now) filed.new keys.new) }
{
    let last = entries.len() - 1;
    let place = last as u64;
    let p = &entries[last].plan;
    filed.put(alloc, &p.trigger, place)?;
    match keys.put(alloc, plan_key(p), place) {
        Ok(()) => Ok(()),
        Err(_) => {
            filed.take(&p.trigger, place);
            Err(Starved)
        }
    }
}

/// Files and lists a plan behind so many others, where it still has an owner. Answers how many there are then.
fn put_next(
    alloc: Global,
    e: &OwnedPlan,
    which: &Which,
    owner: u32,
    n: u64,
    filed: &mut FiledPlaces,
    keys: &mut Keys,
) -> Result<u64, Starved>
    requires { n < 2 ^ 64 - 1 }
    ensures { IfOk result (λ m. (lib : List Held) → length lib ≡ n → IsIndex lib filed.old keys.old
        → IsCounted (lib ++ dropped which.now owner (e.now ∷ [])) m filed.new keys.new) }
{
    if !is_kept(e, which, owner) {
        return Ok(n);
    }
    put(alloc, filed, keys, &e.plan, n)?;
    Ok(n + 1)
}

/// The plans that are left once an owner has taken back what is meant, filed and listed.
pub fn index_left(
    alloc: Global,
    entries: &[OwnedPlan],
    which: &Which,
    owner: u32,
) -> Result<(FiledPlaces, Keys), Starved>
    ensures { IfOk result (λ r. IsIndex (dropped which.now owner entries.now) r.0 r.1) }
{
    let mut filed = FiledPlaces::new(alloc);
    let mut keys = Keys::new(alloc);
    let mut n = 0u64;
    for k in 0..entries.len() {
        n = put_next(alloc, &entries[k], which, owner, n, &mut filed, &mut keys)?;
    }
    Ok((filed, keys))
}
