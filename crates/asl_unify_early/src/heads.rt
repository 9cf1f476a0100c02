//! The match of arguments with those of a head, each of which is a variable or a number. Where each place tells by itself what the
//! comparison does there, the head is not renamed.

ghost use Rattle.std.specs.Prelude.{◌≡◌, ◌++◌, ◌∷◌, [], None, true, false, length, map, IfOk, IfSome};
ghost use Rattle.std.specs.List.{AllByRecursion};
ghost use Rattle.asl_term.specs.declared.syntax.Term.TheVariants as term;
ghost use Rattle.asl_unify.specs.Compare.{find, asks, Unified};
ghost use Rattle.asl_unify.specs.Matches.{behind, on_unified};
ghost use Rattle.asl_unify.specs.Puts.{IsSubst};
ghost use Rattle.asl_unify.specs.Renamed.{numbered, renamed};
ghost use Rattle.asl_unify.specs.Unified.{unified};
ghost use Rattle.asl_unify_early.specs.inner.Heads.{StepsTo};

use asl_term::copying::copy;
use asl_term::measure::ground;
use asl_term::sequence::{Seq, Starved};
use asl_term::syntax::{Term, Var};
use asl_unify::matching::args_pairs;
use asl_unify::rename::{rename_all, rename_var};
use asl_unify::subst::{Pair, PairLists, Pairs, Subst, find_pair};
use std::alloc::Global;

/// Whether a variable may have a pair.
fn may_be_bound(x: &Var, s: &Subst, new: &[Pair]) -> bool
    ensures { result ≡ false → find (s.now ++ new.now) x.now ≡ None }
{
    match s.find(x) {
        Some(_) => true,
        None => match find_pair(new, x) {
            Some(_) => true,
            None => false,
        },
    }
}

/// Whether a variable, renamed, gets a term, as it does where it has no pair, and the term no variable. Then their pair is put last.
fn tell_var(
    alloc: Global,
    a: &Term,
    x: &Var,
    number: u64,
    s: &Subst,
    new: &mut Pairs,
) -> Result<bool, Starved>
    ensures { IfOk result (λ told. told ≡ true → StepsTo s.now a.now (term.Var (numbered number x.now)) new.old new.new) }
{
    if !ground(a) {
        return Ok(false);
    }
    let var = rename_var(alloc, x, number)?;
    if may_be_bound(&var, s, new.as_slice()) {
        drop(var);
        return Ok(false);
    }
    let term = match copy(alloc, a) {
        Ok(term) => term,
        Err(starved) => {
            drop(var);
            return Err(starved);
        }
    };
    new.push(Pair { var, term })?;
    Ok(true)
}

/// Whether two terms, of which the second one is renamed, tell by themselves what one step of their comparison does. Then it is done.
fn tell(
    alloc: Global,
    a: &Term,
    b: &Term,
    number: u64,
    s: &Subst,
    new: &mut Pairs,
) -> Result<bool, Starved>
    ensures { IfOk result (λ told. told ≡ true → StepsTo s.now a.now (renamed number b.now) new.old new.new) }
{
    match b {
        Term::Var(x) => {
            let told = tell_var(alloc, a, x, number, s, new)?;
            Ok(told)
        }
        Term::Num(n) => match a {
            Term::Num(m) => Ok(*m == *n),
            _ => Ok(false),
        },
        _ => Ok(false),
    }
}

/// The new pairs of a match, where each place tells its own.
fn told_pairs(
    alloc: Global,
    xs: &[Term],
    ys: &[Term],
    number: u64,
    s: &Subst,
) -> Result<Option<Pairs>, Starved>
    requires lengths { length xs.now ≡ length ys.now }
    requires sound { IsSubst s.now }
    ensures value { IfOk result (λ r. IfSome r (λ new. unified s.now (asks xs.now (map (renamed number) ys.now) []) ≡ Unified (s.now ++ new))) }
    ensures sound { IfOk result (λ r. IfSome r (λ new. IsSubst (s.now ++ new))) }
{
    let mut new = Seq::new(alloc);
    new.reserve_exact(xs.len() as u64)?;
    for i in 0..xs.len() {
        if !tell(alloc, &xs[i], &ys[i], number, s, &mut new)? {
            return Ok(None);
        }
    }
    Ok(Some(new))
}

/// Whether all terms of a head are variables and numbers, and no variable is met by a term with variables: else it is vain to ask each
/// place.
fn may_tell(xs: &[Term], ys: &[Term]) -> bool {
    for y in ys {
        match y {
            Term::Var(_) => {}
            Term::Num(_) => {}
            _ => return false,
        }
    }
    for x in xs {
        if !ground(x) {
            return false;
        }
    }
    true
}

/// The pairs that the match of arguments with those of a head, renamed, puts behind those of a substitution, where there is one.
pub fn head_args_pairs(
    alloc: Global,
    xs: &[Term],
    ys: &[Term],
    number: u64,
    s: &Subst,
) -> Result<PairLists, Starved>
    requires { length xs.now ≡ length ys.now }
    ensures value { IfOk result (λ r. behind s.now r ≡ on_unified (λ t. t ∷ []) (unified s.now (asks xs.now (map (renamed number) ys.now) []))) }
    ensures sound { IfOk result (λ r. AllByRecursion (λ more. IsSubst (s.now ++ more)) r) }
{
    // That its pairs are sound is known once they are read.
    s.pairs();
    if may_tell(xs, ys) {
        if let Some(new) = told_pairs(alloc, xs, ys, number, s)? {
            let mut out = Seq::new(alloc);
            out.reserve_exact(1)?;
            out.push(new)?;
            return Ok(out);
        }
    }
    let args = rename_all(alloc, ys, number)?;
    let found = args_pairs(alloc, xs, args.as_slice(), s);
    drop(args);
    found
}
