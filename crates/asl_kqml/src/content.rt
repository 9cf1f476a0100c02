//! The plans that contents of messages are, and whether a reply says something.

ghost use Rattle.std.specs.Prelude.{◌≡◌, IfOk};
ghost use Rattle.asl_kqml.specs.Contents as spec;

use asl_plans::entry::Which;
use asl_print_plan::reading::plan_of;
use asl_term::copying::copy_text;
use asl_term::sequence::{Seq, Starved};
use asl_term::syntax::{Plan, Plans, Term};
use std::alloc::Global;

/// The plan of a term that is a string which is a plan.
fn plan_of_term(alloc: Global, t: &Term) -> Result<Option<Plan>, Starved>
    ensures { IfOk result (λ r. r ≡ spec.plan_of t.now) }
{
    match t {
        Term::Str(s) => plan_of(alloc, s.as_slice()),
        _ => Ok(None),
    }
}

/// The plans of terms that all are strings which are plans.
fn all_plans(alloc: Global, ts: &[Term]) -> Result<Option<Plans>, Starved>
    ensures { IfOk result (λ r. r ≡ spec.all_plans ts.now) }
{
    let mut r = Seq::new(alloc);
    for t in ts {
        match plan_of_term(alloc, t)? {
            Some(p) => r.push(p)?,
            None => return Ok(None),
        }
    }
    Ok(Some(r))
}

/// The plans of a content that is a string, or a list of strings without a tail, each of which is a plan.
pub fn plans_of(alloc: Global, t: &Term) -> Result<Option<Plans>, Starved>
    ensures { IfOk result (λ r. r ≡ spec.plans_of t.now) }
{
    match t {
        Term::Str(s) => match plan_of(alloc, s.as_slice())? {
            Some(p) => {
                let mut r = Seq::new(alloc);
                r.push(p)?;
                Ok(Some(r))
            }
            None => Ok(None),
        },
        Term::List(l) => {
            if l.tail.is_some() {
                return Ok(None);
            }
            all_plans(alloc, l.items.as_slice())
        }
        _ => Ok(None),
    }
}

/// Which plans a content means: the plan that it is, or those with the label that it is.
pub fn which_of(alloc: Global, t: &Term) -> Result<Option<Which>, Starved>
    ensures { IfOk result (λ r. r ≡ spec.which_of t.now) }
{
    match t {
        Term::Str(s) => match plan_of(alloc, s.as_slice())? {
            Some(p) => Ok(Some(Which::Same(p))),
            None => Ok(None),
        },
        Term::Lit(l) => {
            if l.neg || l.args.len() != 0 || l.annots.len() != 0 {
                return Ok(None);
            }
            Ok(Some(Which::Label(copy_text(alloc, &l.functor)?)))
        }
        _ => Ok(None),
    }
}

/// Whether a term is `false` or `[]`.
pub fn is_nothing(t: &Term) -> bool
    ensures { result ≡ spec.is_nothing t.now }
{
    match t {
        Term::Lit(l) => {
            !l.neg
                && l.args.len() == 0
                && l.annots.len() == 0
                && l.functor.as_slice() == b"false".as_slice()
        }
        Term::List(l) => l.items.len() == 0 && l.tail.is_none(),
        _ => false,
    }
}
