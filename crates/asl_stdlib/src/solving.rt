//! What an internal action of a formula comes to.

ghost use Rattle.std.specs.Prelude.{◌≡◌, [], ◌∷◌, ◌++◌, IfOk, IfErr, OnOk, Ok, map, true};
ghost use Rattle.asl_term.specs.Trees.{all};
ghost use Rattle.asl_term_actions.specs.Actions as actions;
ghost use Rattle.asl_unify.specs.Limits.{Passes, within};
ghost use Rattle.asl_unify.specs.Puts.{apply};
ghost use Rattle.asl_unify.specs.Settling.{Faults, each, settle};
ghost use Rattle.asl_resolve.specs.Calls.{terms};
ghost use Rattle.asl_resolve.specs.GivenPairs.{AreSound, IsGiven, given};
ghost use Rattle.asl_unify.specs.Matches.{behind};
ghost use Rattle.asl_stdlib.specs.Findings.{solutions};
ghost use Rattle.asl_stdlib.specs.Solving as spec;

use crate::lists::{length_row, member_row, my_name_row, nth_row, reverse_row, test_row};
use crate::numbers::{Extreme, best_row};
use crate::texts::concat_row;
use asl_resolve::actions::{GivenPairs, Inner};
use asl_term::sequence::{Seq, Starved};
use asl_term::syntax::{Arg, ArgOf, Call, Term, Terms, Text};
use asl_term_actions::action::{Action, Look};
use asl_term_actions::named::named;
use asl_unify::limits::TermFault;
use asl_unify::matching::Substs;
use asl_unify::settle::{ArithFault, settle_term};
use asl_unify::subst::{PairLists, Subst, extended};
use asl_unify::tree::Tree;
use std::alloc::Global;

/// Appends an argument, with the substitution put into it, if it is a term.
fn put_applied(alloc: Global, arg: &Arg, s: &Subst, out: &mut Terms) -> Result<(), TermFault>
    ensures ok { OnOk result ((out.new ≡ out.old ++ map (apply s.now) (terms (arg.now ∷ []))) ×
        (all (map within (map (apply s.now) (terms (arg.now ∷ [])))) ≡ true)) }
    ensures fault { IfErr result (λ e. Passes (all (map within (map (apply s.now) (terms (arg.now ∷ []))))) e) }
{
    match arg {
        ArgOf::Plain(t) => {
            out.push(t.apply(alloc, s)?)?;
            Ok(())
        }
        ArgOf::Logic(_) => Ok(()),
    }
}

/// The arguments that are terms, with the substitution put into them.
fn applied(alloc: Global, args: &[Arg], s: &Subst) -> Result<Terms, TermFault>
    ensures ok { IfOk result (λ r. (r ≡ map (apply s.now) (terms args.now)) × (all (map within (map (apply s.now) (terms args.now))) ≡ true)) }
    ensures fault { IfErr result (λ e. Passes (all (map within (map (apply s.now) (terms args.now)))) e) }
{
    let mut out = Seq::new(alloc);
    for arg in args {
        put_applied(alloc, arg, s, &mut out)?;
    }
    Ok(out)
}

/// Each argument settled, from left to right, up to the first failure.
fn settled(alloc: Global, args: &[Term]) -> Result<Terms, ArithFault>
    ensures ok { IfOk result (λ r. each (map settle args.now) ≡ Ok r) }
    ensures fault { IfErr result (λ e. Faults (each (map settle args.now)) e) }
{
    let mut out = Seq::new(alloc);
    for t in args {
        out.push(settle_term(alloc, t)?)?;
    }
    Ok(out)
}

/// The solutions of an action on its settled arguments.
fn solved(
    alloc: Global,
    me: &Text,
    look: Look,
    args: &[Term],
    s: &Subst,
) -> Result<PairLists, Starved>
    ensures { IfOk result (λ r. behind s.now r ≡ solutions (spec.found me.now look args.now) s.now) }
{
    match look {
        Look::Member => member_row(alloc, args, s),
        Look::Length => length_row(alloc, args, s),
        Look::Nth => nth_row(alloc, args, s),
        Look::Concat => concat_row(alloc, args, s),
        Look::Max => best_row(alloc, Extreme::Greatest, args, s),
        Look::Min => best_row(alloc, Extreme::Least, args, s),
        Look::Reverse => reverse_row(alloc, args, s),
        Look::MyName => my_name_row(alloc, me, args, s),
        Look::Passes(test) => test_row(alloc, test, args, s),
    }
}

/// The solutions of the action of a name, and none for others.
fn solved_by(
    alloc: Global,
    me: &Text,
    name: &Text,
    args: &[Term],
    s: &Subst,
) -> Result<PairLists, Starved>
    ensures { IfOk result (λ r. behind s.now r ≡ solutions (spec.found_by me.now (actions.named name.now) args.now) s.now) }
{
    match named(name) {
        Some(Action::Looks(look)) => solved(alloc, me, look, args, s),
        Some(Action::Collects(_) | Action::Print | Action::Fail | Action::Does(_)) | None => {
            Ok(Seq::new(alloc))
        }
    }
}

/// What the action of a name comes to on its applied arguments: they are settled first.
fn on_settled(
    alloc: Global,
    me: &Text,
    name: &Text,
    args: &[Term],
    s: &Subst,
) -> Result<GivenPairs, Starved>
    ensures { IfOk result (λ r. given s.now r ≡ spec.on_settled me.now name.now s.now (each (map settle args.now))) }
{
    match settled(alloc, args) {
        Ok(args) => {
            let found = solved_by(alloc, me, name, args.as_slice(), s)?;
            Ok(GivenPairs::Sols(found))
        }
        Err(ArithFault::Memory) => Err(Starved),
        Err(ArithFault::Arith { .. }) => Ok(GivenPairs::Arith),
    }
}

/// What the action of a name comes to on its arguments: they are applied first.
fn on_applied(alloc: Global, c: &Call, me: &Text, s: &Subst) -> Result<GivenPairs, Starved>
    ensures { IfOk result (λ r. given s.now r ≡ spec.solve me.now c.now.name (terms c.now.args) s.now) }
{
    match applied(alloc, c.args.as_slice(), s) {
        Ok(args) => {
            let r = on_settled(alloc, me, &c.name, args.as_slice(), s)?;
            Ok(r)
        }
        Err(TermFault::Memory) => Err(Starved),
        Err(TermFault::TermLimit) => Ok(GivenPairs::TermLimit),
    }
}

/// What a call of an internal action comes to for the agent `me`: its solutions in order, each as the pairs that it puts
/// behind those of the substitution, `TermLimit` where one of the applied arguments passes the limits, else `Arith` where
/// one of them does not settle. A name that is no action of these has no solutions. The results themselves have no limits.
pub fn pure_pairs(alloc: Global, c: &Call, me: &Text, s: &Subst) -> Result<GivenPairs, Starved>
    ensures value { IfOk result (λ r. given s.now r ≡ spec.solve me.now c.now.name (terms c.now.args) s.now) }
    ensures sound { IfOk result (λ r. IsGiven s.now r) }
{
    // That its pairs are sound is known once they are read.
    s.pairs();
    let r = on_applied(alloc, c, me, s)?;
    Ok(r)
}

/// The substitutions that the pairs of each solution make.
fn whole(alloc: Global, found: PairLists, s: &Subst) -> Result<Substs, Starved>
    requires { AreSound s.now found }
    ensures { IfOk result (λ r. r ≡ behind s.now found) }
{
    let mut out = Seq::new(alloc);
    let mut left = found;
    left.reverse();
    while let Some(more) = left.pop() {
        out.push(extended(alloc, s, more)?)?;
    }
    Ok(out)
}

/// The same, with whole substitutions.
pub fn pure(alloc: Global, c: &Call, me: &Text, s: &Subst) -> Result<Inner, Starved>
    ensures { IfOk result (λ r. r ≡ spec.solve me.now c.now.name (terms c.now.args) s.now) }
{
    match pure_pairs(alloc, c, me, s)? {
        GivenPairs::Sols(found) => Ok(Inner::Sols(whole(alloc, found, s)?)),
        GivenPairs::Arith => Ok(Inner::Arith),
        GivenPairs::TermLimit => Ok(Inner::TermLimit),
    }
}
