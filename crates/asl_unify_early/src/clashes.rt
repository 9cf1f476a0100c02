//! Matches of a goal with a belief and with the head of a rule. The head is not renamed, and nothing is unified, where the topmost
//! layers of two arguments show that there is no match.

ghost use Rattle.std.specs.Prelude.{◌≡◌, ◌++◌, [], true, length, slice_get, IfOk};
ghost use Rattle.std.specs.List.{AllByRecursion};
ghost use Rattle.asl_term.specs.declared.syntax.Term.{out-Term};
ghost use Rattle.asl_unify.specs.Compare.{same_head};
ghost use Rattle.asl_unify.specs.Matches.{matches, behind};
ghost use Rattle.asl_unify.specs.Cursors.{matches_left};
ghost use Rattle.asl_unify.specs.Puts.{IsSubst};
ghost use Rattle.asl_unify.specs.Renamed.{renamed_literal};
ghost use Rattle.asl_unify_early.specs.inner.Clashes as spec;

use crate::heads::head_args_pairs;
use asl_term::sequence::{Seq, Starved};
use asl_term::syntax::{Listing, Literal, Term};
use asl_unify::cursors::{Portion, no_portion};
use asl_unify::layers::same_frames;
use asl_unify::rename::rename_literal;
use asl_unify::subst::{PairLists, Subst, no_subst};
use asl_unify::{cursors, matching};
use std::alloc::Global;

/// Whether a list has no item and no tail.
fn is_nil(l: &Listing) -> bool
    ensures { result ≡ spec.is_nil l.now.items l.now.tail }
{
    match l.items.as_slice().first() {
        Some(_) => false,
        None => match &l.tail {
            Some(_) => false,
            None => true,
        },
    }
}

/// Whether one of two lists is of nothing, and the other has items.
fn lists_clash(l: &Listing, m: &Listing) -> bool
    ensures { result ≡ spec.lists_clash l.now.items l.now.tail m.now.items m.now.tail }
{
    if is_nil(l) {
        !m.items.as_slice().is_empty()
    } else {
        is_nil(m) && !l.items.as_slice().is_empty()
    }
}

/// Whether two literals agree in all but their arguments and annotations.
fn same_heads(l: &Literal, m: &Literal) -> bool
    ensures { result ≡ same_head l.now m.now }
{
    same_frames(l, m) && l.annots.len() == m.annots.len()
}

/// Whether two terms are different numbers, literals that differ in more than their arguments and annotations, or a list of
/// nothing and one of something.
fn clash(a: &Term, b: &Term) -> bool
    ensures { result ≡ spec.layers_clash (out-Term a.now) (out-Term b.now) }
{
    match a {
        Term::Num(m) => match b {
            Term::Num(k) => *m != *k,
            _ => false,
        },
        Term::Lit(l) => match b {
            Term::Lit(m) => !same_heads(l, m),
            _ => false,
        },
        Term::List(l) => match b {
            Term::List(m) => lists_clash(l, m),
            _ => false,
        },
        _ => false,
    }
}

/// Whether terms at one place of two lists of one length are such.
fn has_clash(xs: &[Term], ys: &[Term]) -> bool
    requires { length xs.now ≡ length ys.now }
    ensures { result ≡ true → spec.HasClash xs.now ys.now }
{
    for i in 0..xs.len() {
        if clash(&xs[i], &ys[i]) {
            return true;
        }
    }
    false
}

/// Whether an argument of a literal and that of another one at the same place can't be unified, by their topmost layers.
fn never_match(p: &Literal, q: &Literal) -> bool
    ensures { result ≡ true → spec.NeverMatch p.now q.now }
{
    let xs = p.args.as_slice();
    let ys = q.args.as_slice();
    if xs.len() != ys.len() {
        return false;
    }
    has_clash(xs, ys)
}

/// The pairs that each match with a literal puts behind those of a substitution, in order.
pub fn match_pairs(alloc: Global, p: &Literal, q: &Literal, s: &Subst) -> Result<PairLists, Starved>
    ensures value { IfOk result (λ r. behind s.now r ≡ matches p.now q.now s.now) }
    ensures sound { IfOk result (λ r. AllByRecursion (λ more. IsSubst (s.now ++ more)) r) }
{
    // That its pairs are sound is known once they are read.
    s.pairs();
    if never_match(p, q) {
        return Ok(Seq::new(alloc));
    }
    matching::match_pairs(alloc, p, q, s)
}

/// The same with a literal that is renamed by a number first: of its arguments alone, where the other one has no annotations.
pub fn renamed_pairs(
    alloc: Global,
    p: &Literal,
    q: &Literal,
    number: u64,
    s: &Subst,
) -> Result<PairLists, Starved>
    ensures value { IfOk result (λ r. behind s.now r ≡ matches p.now (renamed_literal number q.now) s.now) }
    ensures sound { IfOk result (λ r. AllByRecursion (λ more. IsSubst (s.now ++ more)) r) }
{
    // That its pairs are sound is known once they are read.
    s.pairs();
    if never_match(p, q) {
        return Ok(Seq::new(alloc));
    }
    if p.annots.as_slice().is_empty() && same_frames(p, q) {
        return head_args_pairs(alloc, p.args.as_slice(), q.args.as_slice(), number, s);
    }
    let head = rename_literal(alloc, q, number)?;
    let found = matching::match_pairs(alloc, p, &head, s);
    drop(head);
    found
}

/// The next matches with a literal from a cursor on, as in `cursors`.
pub fn match_portion(
    alloc: Global,
    p: &Literal,
    q: &Literal,
    s: &Subst,
    at: &[u64],
) -> Result<Portion, Starved>
    ensures value { IfOk result (λ r. behind s.now r.found ++ matches_left p.now q.now s.now r.rest ≡ matches_left p.now q.now s.now at.now) }
    ensures sound { IfOk result (λ r. AllByRecursion (λ more. IsSubst (s.now ++ more)) r.found) }
    ensures some { IfOk result (λ r. r.found ≡ [] → r.rest ≡ []) }
{
    // That its pairs are sound is known once they are read.
    s.pairs();
    if never_match(p, q) {
        return Ok(no_portion(alloc));
    }
    cursors::match_portion(alloc, p, q, s, at)
}

/// The same with a literal that is renamed by a number first.
pub fn renamed_portion(
    alloc: Global,
    p: &Literal,
    q: &Literal,
    number: u64,
    s: &Subst,
    at: &[u64],
) -> Result<Portion, Starved>
    ensures value { IfOk result (λ r. behind s.now r.found ++ matches_left p.now (renamed_literal number q.now) s.now r.rest
        ≡ matches_left p.now (renamed_literal number q.now) s.now at.now) }
    ensures sound { IfOk result (λ r. AllByRecursion (λ more. IsSubst (s.now ++ more)) r.found) }
    ensures some { IfOk result (λ r. r.found ≡ [] → r.rest ≡ []) }
{
    // That its pairs are sound is known once they are read.
    s.pairs();
    if never_match(p, q) {
        return Ok(no_portion(alloc));
    }
    let head = rename_literal(alloc, q, number)?;
    let found = cursors::match_portion(alloc, p, &head, s, at);
    drop(head);
    found
}

/// Whether a literal has no match with another one, whatever number its variables get, by the topmost layers of their arguments.
fn never_matched(p: &Literal, q: &Literal) -> bool
    ensures { result ≡ true → spec.NeverMatched p.now q.now }
{
    let xs = q.args.as_slice();
    let ys = p.args.as_slice();
    if xs.len() != ys.len() {
        return false;
    }
    has_clash(xs, ys)
}

/// The first match of a literal, renamed by a number, with another one under no substitution, if there is one.
pub fn renamed_first(
    alloc: Global,
    p: &Literal,
    number: u64,
    q: &Literal,
) -> Result<Option<Subst>, Starved>
    ensures { IfOk result (λ r. r ≡ slice_get (matches (renamed_literal number p.now) q.now []) 0) }
{
    if never_matched(p, q) {
        return Ok(None);
    }
    let renamed = rename_literal(alloc, p, number)?;
    let found = matching::first_match(alloc, &renamed, q, &no_subst(alloc));
    drop(renamed);
    found
}
