//! Stacks, as they are once what is bound is put into them. Of what passes the limits of a term it is not said that it is the same.

ghost use Rattle.std.specs.Prelude.{ℕ, ◌≡◌, ◌<◌, true, slice_get, Some, IfOk, IfSome};
ghost use Rattle.asl_intend.specs.Bodies.{body_at, formula_at};
ghost use Rattle.asl_intend.specs.Stacks.{trigger_at};

use crate::lists::Same;
use asl_intend::stack::Stack;
use asl_term::compare_expr::{equal_formula, equal_trigger};
use asl_term::sequence::Starved;
use asl_term::syntax::{Formula, Trigger};
use asl_unify::limits::TermFault;
use std::alloc::Global;

/// The formula at a place of the means at a place, where it stays within the limits of a term.
fn formula_of(alloc: Global, s: &Stack, k: u64, j: u64) -> Result<Option<Formula>, Starved>
    ensures { IfOk result (λ r. IfSome r (λ f. formula_at s.now k j ≡ Some f)) }
{
    match s.formula_at(alloc, k, j) {
        Ok(f) => Ok(f),
        Err(TermFault::TermLimit) => Ok(None),
        Err(TermFault::Memory) => Err(Starved),
    }
}

/// Whether the formulas at a place of the means at a place are the same.
fn same_formula(alloc: Global, a: &Stack, b: &Stack, k: u64, j: u64) -> Result<bool, Starved>
    ensures { IfOk result (λ r. r ≡ true → formula_at a.now k j ≡ formula_at b.now k j) }
{
    let Some(y) = formula_of(alloc, b, k, j)? else {
        return Ok(false);
    };
    let r = match formula_of(alloc, a, k, j) {
        Ok(Some(x)) => {
            let r = equal_formula(&x, &y);
            drop(x);
            Ok(r)
        }
        Ok(None) => Ok(false),
        Err(Starved) => Err(Starved),
    };
    drop(y);
    r
}

/// Whether the first so many formulas of the means at a place are the same.
fn same_formulas(alloc: Global, a: &Stack, b: &Stack, k: u64, n: u64) -> Result<bool, Starved>
    ensures { IfOk result (λ r. r ≡ true → (j : ℕ) → j < n → formula_at a.now k j ≡ formula_at b.now k j) }
{
    for i in 0..n {
        let same = same_formula(alloc, a, b, k, i)?;
        if !same {
            return Ok(false);
        }
    }
    Ok(true)
}

/// Whether what is left of the means at a place is the same.
#[tactic(auto, using(crate::proofs::Items::same_list))]
fn same_body(alloc: Global, a: &Stack, b: &Stack, k: u64) -> Result<bool, Starved>
    ensures { IfOk result (λ r. r ≡ true → body_at a.now k ≡ body_at b.now k) }
{
    let n = a.left(k);
    if n != b.left(k) {
        return Ok(false);
    }
    let same = same_formulas(alloc, a, b, k, n)?;
    Ok(same)
}

/// The trigger of the means at a place, where it stays within the limits of a term.
fn trigger_of(alloc: Global, s: &Stack, k: u64) -> Result<Option<Trigger>, Starved>
    ensures { IfOk result (λ r. IfSome r (λ t. trigger_at s.now k ≡ Some t)) }
{
    match s.bounded_trigger(alloc, k) {
        Ok(t) => Ok(t),
        Err(TermFault::TermLimit) => Ok(None),
        Err(TermFault::Memory) => Err(Starved),
    }
}

/// Whether the triggers of the means at a place are the same.
fn same_trigger(alloc: Global, a: &Stack, b: &Stack, k: u64) -> Result<bool, Starved>
    ensures { IfOk result (λ r. r ≡ true → trigger_at a.now k ≡ trigger_at b.now k) }
{
    let Some(y) = trigger_of(alloc, b, k)? else {
        return Ok(false);
    };
    let r = match trigger_of(alloc, a, k) {
        Ok(Some(x)) => {
            let r = equal_trigger(&x, &y);
            drop(x);
            Ok(r)
        }
        Ok(None) => Ok(false),
        Err(Starved) => Err(Starved),
    };
    drop(y);
    r
}

/// Whether the means at a place are the same.
#[tactic(auto, using(crate::proofs::Items::same_means))]
fn same_means(alloc: Global, a: &Stack, b: &Stack, k: u64) -> Result<bool, Starved>
    ensures { IfOk result (λ r. r ≡ true → slice_get a.now k ≡ slice_get b.now k) }
{
    let trigger = same_trigger(alloc, a, b, k)?;
    if !trigger {
        return Ok(false);
    }
    let same = same_body(alloc, a, b, k)?;
    Ok(same)
}

/// Whether the first so many means are the same.
fn same_first(alloc: Global, a: &Stack, b: &Stack, n: u64) -> Result<bool, Starved>
    ensures { IfOk result (λ r. r ≡ true → (k : ℕ) → k < n → slice_get a.now k ≡ slice_get b.now k) }
{
    for i in 0..n {
        let same = same_means(alloc, a, b, i)?;
        if !same {
            return Ok(false);
        }
    }
    Ok(true)
}

impl Same for Stack {
    #[tactic(auto, using(crate::proofs::Items::same_list))]
    fn same(&self, alloc: Global, other: &Stack) -> Result<bool, Starved> {
        let n = self.len();
        if n != other.len() {
            return Ok(false);
        }
        let same = same_first(alloc, self, other, n)?;
        Ok(same)
    }
}
