//! A long round of the comparison. In it a comparison of a variable that comes again is counted, and not gone through
//! again, so the time is not that of the whole terms, which may be exponential in the pairs.

ghost use Rattle.std.specs.Prelude.{◌≡◌, ◌<◌, ◌≤◌, ◌+◌, List, vec_len, MatchBool, ◌++◌, MatchOption, IfOk, IfErr, [], ◌∷◌, ℕ};
ghost use Rattle.std.specs.List.{AllByRecursion};
ghost use Rattle.asl_unify.specs.declared.subst.Pair.{Pair};
ghost use Rattle.asl_unify.specs.declared.rounds.Known.{Known};
ghost use Rattle.asl_unify.specs.declared.solve.UnifyFault.TheVariants.{Memory};
ghost use Rattle.asl_unify.specs.inner.Repeats.{question, under, Passes, IsKnown, Kept};
ghost use Rattle.asl_unify.specs.inner.Views.{seen, now_of, fresh_pairs, asked, Led, FailsFrom};
ghost use Rattle.asl_unify.specs.Puts.{IsSubst};

use crate::lookups::variable;
use crate::solve::{Fresh, Pairing, UnifyFault, View, Work};
use crate::stepping::{advance, next};
use crate::subst::Subst;
use asl_term::compare::{equal, equal_all};
use asl_term::syntax::Term;
use std::alloc::Global;
use std::mem::replace;

/// So many comparisons are kept at once: each later one is looked for among them, which takes time too.
const KEPT: usize = 4_096;

/// A comparison that is gone through, the work that was set aside for it, and the count of compared pairs before it.
#[derive(Drop)]
pub struct LongRound<'a> {
    pub question: Pairing<'a>,
    pub rest: Vec<Work<'a>>,
    pub count: u64,
}

/// A comparison that was gone through, and how many pairs were compared in it.
#[derive(Clone, Copy)]
pub struct Known<'a> {
    pub question: Pairing<'a>,
    pub pairs: u64,
}

fn same_tail(a: Option<&Term>, b: Option<&Term>) -> bool
    ensures { MatchBool result (now_of a.entry ≡ now_of b.entry) (Unit {0}) }
{
    match a {
        None => match b {
            None => true,
            Some(_) => false,
        },
        Some(t) => match b {
            None => false,
            Some(u) => equal(t, u),
        },
    }
}

/// Whether two views show the same term in the same form.
fn same_view<'a>(a: View<'a>, b: View<'a>) -> bool
    ensures { MatchBool result (seen a.entry ≡ seen b.entry) (Unit {0}) }
{
    match a {
        View::Whole(t) => match b {
            View::Whole(u) => equal(t, u),
            View::Rest(_, _) => false,
        },
        View::Rest(xs, t) => match b {
            View::Whole(_) => false,
            View::Rest(ys, u) => equal_all(xs, ys) && same_tail(t, u),
        },
    }
}

/// How many pairs were compared in a comparison of a variable that was gone through. The last ones are looked at first.
fn recall<'a>(q: Pairing<'a>, known: &[Known<'a>]) -> Option<u64>
    ensures { MatchOption result (Unit {0}) (λ d. (s : List Pair) (n : ℕ) → AllByRecursion (IsKnown s n) known.now → Passes s n (question q.entry ∷ []) d []) }
{
    if variable(q.left).is_none() && variable(q.right).is_none() {
        return None;
    }
    let mut i = known.len();
    while i > 0 {
        i -= 1;
        let k = known[i];
        if same_view(k.question.left, q.left) && same_view(k.question.right, q.right) {
            return Some(k.pairs);
        }
    }
    None
}

/// Sets the other work aside where a variable is compared.
fn begin<'a>(
    alloc: Global,
    q: Pairing<'a>,
    count: u64,
    work: &mut Vec<Work<'a>>,
    begun: &mut Vec<LongRound<'a>>,
) -> Result<(), UnifyFault>
    ensures keeps { IfOk result (λ _. (s : List Pair) (known : List Known) → Kept s begun.old.items known (question q.entry ∷ asked work.old.items []) count
        → Kept s begun.new.items known (question q.entry ∷ asked work.new.items []) count) }
    ensures same { IfOk result (λ _. asked work.new.items [] ++ under begun.new.items [] ≡ asked work.old.items [] ++ under begun.old.items []) }
    ensures more { IfOk result (λ _. vec_len begun.new ≤ vec_len begun.old + 1) }
    ensures fault { IfErr result (λ e. e ≡ Memory) }
{
    if variable(q.left).is_none() && variable(q.right).is_none() {
        return Ok(());
    }
    let rest = replace(work, Vec::new(alloc));
    let last = LongRound {
        question: q,
        rest,
        count,
    };
    if begun.push(last).is_err() {
        return Err(UnifyFault::Memory);
    }
    Ok(())
}

/// Keeps a comparison that was gone through. Where too many are kept, those before it are let go.
fn keep<'a>(known: &mut Vec<Known<'a>>, k: Known<'a>) -> Result<(), UnifyFault>
    ensures ok { IfOk result (λ _. (s : List Pair) (n : ℕ) → AllByRecursion (IsKnown s n) known.old.items → IsKnown s n k.entry
        → AllByRecursion (IsKnown s n) known.new.items) }
    ensures fault { IfErr result (λ e. e ≡ Memory) }
{
    if known.len() >= KEPT {
        known.clear();
    }
    match known.push(k) {
        Ok(()) => Ok(()),
        Err(_) => Err(UnifyFault::Memory),
    }
}

/// Takes up the work that was set aside for the last comparison, which is gone through, or tells that there is none.
fn finish<'a>(
    count: u64,
    work: &mut Vec<Work<'a>>,
    begun: &mut Vec<LongRound<'a>>,
    known: &mut Vec<Known<'a>>,
) -> Result<bool, UnifyFault>
    ensures keeps { IfOk result (λ _. (s : List Pair) → Kept s begun.old.items known.old.items [] count
        → Kept s begun.new.items known.new.items (asked work.new.items []) count) }
    ensures same { IfOk result (λ _. asked work.old.items [] ≡ [] → asked work.new.items [] ++ under begun.new.items [] ≡ under begun.old.items []) }
    ensures less { IfOk result (λ more. MatchBool more (vec_len begun.new < vec_len begun.old)
        ((asked work.new.items [] ≡ asked work.old.items []) × (begun.old.items ≡ []))) }
    ensures fault { IfErr result (λ e. e ≡ Memory) }
{
    let Some(last) = begun.pop() else {
        return Ok(false);
    };
    let pairs = count.saturating_sub(last.count);
    let question = last.question;
    *work = last.rest;
    match keep(known, Known { question, pairs }) {
        Ok(()) => Ok(true),
        Err(fault) => Err(fault),
    }
}

/// Puts more work before the other.
#[tactic(auto, using(crate::proofs::Repeats::asked_append))]
fn add_work<'a>(work: &mut Vec<Work<'a>>, more: &[Work<'a>]) -> Result<(), UnifyFault>
    ensures ok { IfOk result (λ _. asked work.new.items [] ≡ asked more.now (asked work.old.items [])) }
    ensures fault { IfErr result (λ e. e ≡ Memory) }
{
    match work.extend_from_slice(more) {
        Ok(()) => Ok(()),
        Err(_) => Err(UnifyFault::Memory),
    }
}

/// Puts what was set aside behind the other work.
fn put_back<'a>(
    alloc: Global,
    begun: &[LongRound<'a>],
    work: &mut Vec<Work<'a>>,
) -> Result<(), UnifyFault>
    ensures ok { IfOk result (λ _. asked work.new.items [] ≡ asked work.old.items [] ++ under begun.now []) }
    ensures fault { IfErr result (λ e. e ≡ Memory) }
{
    let mut all: Vec<Work<'a>> = Vec::new(alloc);
    for b in begun {
        add_work(&mut all, b.rest.as_slice())?;
    }
    add_work(&mut all, work.as_slice())?;
    *work = all;
    Ok(())
}

/// Compares until a variable is bound, or nothing is left to compare.
pub fn long_round<'a>(
    alloc: Global,
    work: &mut Vec<Work<'a>>,
    old: &'a Subst,
    fresh: &mut Vec<Fresh<'a>>,
    count: &mut u64,
) -> Result<bool, UnifyFault>
    requires { IsSubst (old.now ++ fresh_pairs fresh.old.items) }
    ensures sound { IfOk result (λ more. IsSubst (old.now ++ fresh_pairs fresh.new.items)) }
    ensures leads { IfOk result (λ more. Led (asked work.old.items []) (old.now ++ fresh_pairs fresh.old.items) count.old
        (asked work.new.items []) (old.now ++ fresh_pairs fresh.new.items) count.new) }
    ensures left { IfOk result (λ more. MatchBool more (vec_len fresh.old < vec_len fresh.new) (asked work.new.items [] ≡ [])) }
    ensures fault { IfErr result (λ e. FailsFrom (asked work.old.items []) (old.now ++ fresh_pairs fresh.old.items) count.old e) }
{
    let start = fresh.len();
    // Reading the count tells that it fits, which the first turn of the loop needs.
    let _fits = *count;
    let mut begun: Vec<LongRound<'a>> = Vec::new(alloc);
    let mut known: Vec<Known<'a>> = Vec::new(alloc);
    'pairs: loop {
        let Some(q) = next(work)? else {
            if !finish(*count, work, &mut begun, &mut known)? {
                return Ok(false);
            }
            continue;
        };
        if let Some(pairs) = recall(q, known.as_slice()) {
            *count = count.saturating_add(pairs);
            continue;
        }
        begin(alloc, q, *count, work, &mut begun)?;
        match advance(alloc, q, work, old, fresh, count) {
            Ok(()) => {}
            Err(fault) => return Err(fault),
        }
        if fresh.len() > start {
            put_back(alloc, begun.as_slice(), work)?;
            return Ok(true);
        }
    }
}
