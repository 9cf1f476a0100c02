//! Goals into which a substitution is put, with the numbers of their operations where these are told without being built.

ghost use Rattle.std.specs.Prelude.{◌≡◌, map, IfOk, IfErr, true};
ghost use Rattle.asl_unify.specs.Applied.{applied_literal, within_literal};
ghost use Rattle.asl_unify.specs.Limits.{Passes};
ghost use Rattle.asl_unify.specs.Puts.{IsSubst, apply};
ghost use Rattle.asl_unify.specs.Settling.{settle, settle_literal};

use crate::numbers::result_of;
use asl_term::copying::copy_text;
use asl_term::sequence::{Seq, Starved};
use asl_term::syntax::{Literal, LiteralOf, Term, Terms};
use asl_unify::build::{build, build_all};
use asl_unify::limits::{TermFault, literal_fits};
use asl_unify::log::Later;
use asl_unify::subst::Subst;
use std::alloc::Global;

/// What the pairs make of a term, or the number to which that settles.
fn argument(alloc: Global, t: &Term, s: &Subst) -> Result<Term, Starved>
    requires { IsSubst s.now }
    ensures { IfOk result (λ r. settle r ≡ settle (apply s.now t.now)) }
{
    if let Term::Op(a) = t {
        if let Some(n) = result_of(a, s) {
            return Ok(Term::Num(n));
        }
    }
    build(alloc, t, s, Later { log: None, from: 0 })
}

/// The same of each.
fn arguments(alloc: Global, ts: &[Term], s: &Subst) -> Result<Terms, Starved>
    requires { IsSubst s.now }
    ensures { IfOk result (λ r. map settle r ≡ map settle (map (apply s.now) ts.now)) }
{
    let mut r = Seq::new(alloc);
    r.reserve_exact(ts.len() as u64)?;
    for t in ts {
        r.push(argument(alloc, t, s)?)?;
    }
    Ok(r)
}

/// What the pairs make of a goal, or what settles to the same. The limits are those of what they make of it.
pub fn apply_goal(alloc: Global, l: &Literal, s: &Subst) -> Result<Literal, TermFault>
    ensures settles { IfOk result (λ r. settle_literal r ≡ settle_literal (applied_literal s.now l.now)) }
    ensures within { IfOk result (λ _. within_literal (applied_literal s.now l.now) ≡ true) }
    ensures fault { IfErr result (λ e. Passes (within_literal (applied_literal s.now l.now)) e) }
{
    // That its pairs are sound is known once they are read.
    s.pairs();
    let rest = Later { log: None, from: 0 };
    if !literal_fits(l, s, rest) {
        return Err(TermFault::TermLimit);
    }
    let functor = copy_text(alloc, &l.functor)?;
    let args = arguments(alloc, l.args.as_slice(), s)?;
    let annots = build_all(alloc, l.annots.as_slice(), s, rest)?;
    Ok(LiteralOf {
        neg: l.neg,
        functor,
        args,
        annots,
    })
}
