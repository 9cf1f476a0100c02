//! The solutions that come of what an internal action finds.

ghost use Rattle.std.specs.Prelude.{◌≡◌, [], ◌∷◌, ◌++◌, IfOk, OnOk};
ghost use Rattle.asl_unify.specs.Matches.{behind};
ghost use Rattle.asl_stdlib.specs.Findings as spec;

use asl_term::sequence::{Seq, Starved};
use asl_term::syntax::Term;
use asl_unify::matching::attempt_pairs;
use asl_unify::solve::{View, Work};
use asl_unify::subst::{PairLists, Subst};
use std::alloc::Global;

/// No pairs behind the substitution where a test holds.
#[tactic(auto, using(crate::proofs::Behind::behind_none))]
pub fn hold(alloc: Global, holds: bool, s: &Subst) -> Result<PairLists, Starved>
    ensures { IfOk result (λ r. behind s.now r ≡ spec.solutions (spec.Holds holds) s.now) }
{
    let mut out = Seq::new(alloc);
    if holds {
        out.push(Seq::new(alloc))?;
    }
    Ok(out)
}

/// Appends the pairs that the solution of a term and a result puts behind the substitution, if they unify.
fn put_met(
    alloc: Global,
    x: &Term,
    found: &Term,
    s: &Subst,
    out: &mut PairLists,
) -> Result<(), Starved>
    ensures { OnOk result (behind s.now out.new ≡ behind s.now out.old ++ spec.each_met x.now (found.now ∷ []) s.now) }
{
    let work = Work::Two(View::Whole(x), View::Whole(found));
    match attempt_pairs(alloc, work, s)? {
        Some(more) => {
            out.push(more)?;
            Ok(())
        }
        None => Ok(()),
    }
}

/// Unifies a term with the one result.
pub fn meet(alloc: Global, x: &Term, found: &Term, s: &Subst) -> Result<PairLists, Starved>
    ensures { IfOk result (λ r. behind s.now r ≡ spec.solutions (spec.Gives x.now (found.now ∷ [])) s.now) }
{
    let mut out = Seq::new(alloc);
    put_met(alloc, x, found, s, &mut out)?;
    Ok(out)
}

/// The same of a result that is made for it.
pub fn meet_made(alloc: Global, x: &Term, found: Term, s: &Subst) -> Result<PairLists, Starved>
    ensures { IfOk result (λ r. behind s.now r ≡ spec.solutions (spec.Gives x.now (found ∷ [])) s.now) }
{
    let met = meet(alloc, x, &found, s);
    // A tree given away is cheaper to prove than one that ends in place.
    drop(found);
    met
}

/// Unifies a term with each result, in order.
pub fn meet_each(alloc: Global, x: &Term, results: &[Term], s: &Subst) -> Result<PairLists, Starved>
    ensures { IfOk result (λ r. behind s.now r ≡ spec.solutions (spec.Gives x.now results.now) s.now) }
{
    let mut out = Seq::new(alloc);
    for found in results {
        put_met(alloc, x, found, s, &mut out)?;
    }
    Ok(out)
}
