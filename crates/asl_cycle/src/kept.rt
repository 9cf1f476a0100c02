//! Events whose triggers are not built. Where the first relevant plan has no context, and its trigger takes any arguments, its
//! means go on the event's stack at once, with what they are bound to as it is kept. This is the fast way of the rows Rel1, Appl1,
//! SelAppl, and ExtEv or IntEv, which steps.rt has for all other events: a change of one of these rows is one here, and in
//! `from_taken` and `from_stack` of cycle.rt, too.

ghost use Rattle.std.specs.Prelude.{◌≡◌, Some, true, false, slice_get, IfOk, IfSome};
ghost use Rattle.asl_exec_circumstance.specs.Circumstance.{seen_around};
ghost use Rattle.asl_plans.specs.FiledPlaces.{filed_plans};
ghost use Rattle.asl_term.specs.declared.syntax.Expr.TheVariants as expr;
ghost use Rattle.asl_cycle.specs.inner.Choosing.{IsFirstAt, IsOpenAt, IsTaken, is_matched};

use asl_beliefs::base::BeliefBase;
use asl_exec_choose::choosing::rename_means;
use asl_exec_circumstance::parts::{Circumstance, Surroundings};
use asl_intend::agenda::Event;
use asl_intend::event_trigger::EventTrigger;
use asl_plans::entry::OwnedPlan;
use asl_plans::library::Library;
use asl_resolve::actions::Actions;
use asl_term::sequence::Starved;
use asl_term::syntax::Expr;
use asl_unify::rename::rename_literal;
use std::alloc::Global;

fn is_true(e: &Expr) -> bool
    ensures { result ≡ true → e.now ≡ expr.True }
{
    match e {
        Expr::True => true,
        _ => false,
    }
}

/// The k-th plan of the sign, kind and frame of a trigger that is not built.
#[tactic(auto, using(crate::proofs::Direct::filed_alike))]
fn filed<'a>(lib: &'a Library, t: &EventTrigger, k: u64) -> Option<&'a OwnedPlan>
    ensures { IfSome result (λ e. slice_get (filed_plans t.now.add t.now.kind t.now.lit lib.now.plans) k ≡ Some e.now) }
{
    let Some(lit) = t.kept_literal() else {
        return None;
    };
    let Some(entry) = lib.filed_plan(t.is_addition(), t.kind(), lit, k) else {
        return None;
    };
    Some(entry)
}

/// Whether the trigger of a plan, renamed, matches that of an event.
fn matches_event(
    alloc: Global,
    t: &EventTrigger,
    plan: &OwnedPlan,
    number: u64,
) -> Result<bool, Starved>
    ensures { IfOk result (λ r. r ≡ is_matched number t.now plan.now) }
{
    let lit = rename_literal(alloc, &plan.plan.trigger.lit, number)?;
    let matched = t.is_matched(alloc, &lit);
    drop(lit);
    matched
}

/// The place of the first of these whose own trigger, renamed, matches that of the event.
fn first_matched(
    alloc: Global,
    lib: &Library,
    t: &EventTrigger,
    number: u64,
) -> Result<Option<u64>, Starved>
    ensures { IfOk result (λ r. IfSome r (IsFirstAt lib.now.plans number t.now)) }
{
    for k in 0..lib.all().len() {
        let Some(entry) = filed(lib, t, k as u64) else {
            return Ok(None);
        };
        let matched = matches_event(alloc, t, entry, number)?;
        if matched {
            return Ok(Some(k as u64));
        }
    }
    Ok(None)
}

/// The one at a place, where it has no context.
fn direct_plan<'a>(lib: &'a Library, t: &EventTrigger, place: u64) -> Option<&'a OwnedPlan>
    ensures { IfSome result (λ e. IsOpenAt lib.now.plans t.now place e.now) }
{
    let Some(entry) = filed(lib, t, place) else {
        return None;
    };
    if is_true(&entry.plan.context) {
        Some(entry)
    } else {
        None
    }
}

/// The same as `take_kept`, where the place of the first plan that matches is known.
fn take_at<B: BeliefBase, A: Actions>(
    alloc: Global,
    k: &Surroundings<A>,
    p: &Circumstance<B>,
    event: &mut Event,
    place: u64,
) -> Result<bool, Starved>
    requires { IsFirstAt k.now.lib.plans p.now.number event.old.trigger place }
    ensures taken { let e = seen_around A.solve k.now B.rules p.now in
        IfOk result (λ r. r ≡ true → IsTaken e p.now.number event.old event.new.stack) }
    ensures stays { IfOk result (λ r. r ≡ false → event.new ≡ event.old) }
{
    match direct_plan(&k.lib, &event.trigger, place) {
        None => Ok(false),
        Some(entry) => {
            let means = rename_means(alloc, &entry.plan, p.number)?;
            let taken = event.stack.push_kept(alloc, &event.trigger, &means)?;
            drop(means);
            Ok(taken)
        }
    }
}

/// Puts the means of the first relevant plan on the stack of an event whose trigger is not built, where that is told without it.
/// False where it is not, and then the event stays.
pub fn take_kept<B: BeliefBase, A: Actions>(
    alloc: Global,
    k: &Surroundings<A>,
    p: &Circumstance<B>,
    event: &mut Event,
) -> Result<bool, Starved>
    ensures taken { let e = seen_around A.solve k.now B.rules p.now in
        IfOk result (λ r. r ≡ true → IsTaken e p.now.number event.old event.new.stack) }
    ensures stays { IfOk result (λ r. r ≡ false → event.new ≡ event.old) }
{
    let found = first_matched(alloc, &k.lib, &event.trigger, p.number)?;
    match found {
        None => Ok(false),
        Some(place) => {
            let taken = take_at(alloc, k, p, event, place)?;
            Ok(taken)
        }
    }
}
