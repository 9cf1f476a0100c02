//! The actions on lists, the tests, and the agent's own name.

ghost use Rattle.std.specs.Prelude.{◌≡◌, pos, IfOk, reverse};
ghost use Rattle.std.specs.Option.{option_copied, option_map};
ghost use Rattle.asl_unify.specs.Matches.{behind};
ghost use Rattle.asl_stdlib.specs.Findings.{solutions};
ghost use Rattle.asl_stdlib.specs.Rows as spec;

use crate::findings::{hold, meet, meet_each, meet_made};
use crate::kinds::{items_of, passes, string_of};
use asl_term::copying::{copy_all, copy_text};
use asl_term::sequence::{Seq, Starved};
use asl_term::syntax::{ListingOf, LiteralOf, Term, Terms, Text};
use asl_term_actions::action::Test;
use asl_unify::settle::number_of;
use asl_unify::subst::{PairLists, Subst};
use std::alloc::Global;

/// A test of the one argument.
pub fn test_row(alloc: Global, test: Test, args: &[Term], s: &Subst) -> Result<PairLists, Starved>
    ensures { IfOk result (λ r. behind s.now r ≡ solutions (spec.test_row test args.now) s.now) }
{
    let holds = match args {
        [t] => passes(test, t),
        _ => false,
    };
    hold(alloc, holds, s)
}

/// The atom of a name.
fn atom_term(alloc: Global, name: &Text) -> Result<Term, Starved>
    ensures { IfOk result (λ r. r ≡ spec.atom_term name.now) }
{
    let functor = copy_text(alloc, name)?;
    Ok(Term::Lit(LiteralOf {
        neg: false,
        functor,
        args: Seq::new(alloc),
        annots: Seq::new(alloc),
    }))
}

/// `.my_name(X)`: the agent's name as an atom.
pub fn my_name_row(alloc: Global, me: &Text, args: &[Term], s: &Subst) -> Result<PairLists, Starved>
    ensures { IfOk result (λ r. behind s.now r ≡ solutions (spec.my_name_row me.now args.now) s.now) }
{
    match args {
        [x] => {
            let name = atom_term(alloc, me)?;
            meet_made(alloc, x, name, s)
        }
        _ => Ok(Seq::new(alloc)),
    }
}

/// `.member(X, L)`: each item of the list that unifies, in order.
pub fn member_row(alloc: Global, args: &[Term], s: &Subst) -> Result<PairLists, Starved>
    ensures { IfOk result (λ r. behind s.now r ≡ solutions (spec.member_row args.now) s.now) }
{
    match args {
        [x, l] => match items_of(l) {
            Some(items) => meet_each(alloc, x, items, s),
            None => Ok(Seq::new(alloc)),
        },
        _ => Ok(Seq::new(alloc)),
    }
}

/// The number of items of a list, or of bytes of a string.
fn length_of(t: &Term) -> Option<i64>
    ensures { result ≡ option_map pos (spec.length_of t.now) }
{
    match items_of(t) {
        Some(items) => Some(items.len() as i64),
        None => match string_of(t) {
            Some(bytes) => Some(bytes.as_slice().len() as i64),
            None => None,
        },
    }
}

/// `.length(L, N)`.
pub fn length_row(alloc: Global, args: &[Term], s: &Subst) -> Result<PairLists, Starved>
    ensures { IfOk result (λ r. behind s.now r ≡ solutions (spec.length_row args.now) s.now) }
{
    match args {
        [l, n] => match length_of(l) {
            Some(k) => meet_made(alloc, n, Term::Num(k), s),
            None => Ok(Seq::new(alloc)),
        },
        _ => Ok(Seq::new(alloc)),
    }
}

/// The item at a place, counted from 0.
fn item_at(items: &[Term], k: i64) -> Option<&Term>
    ensures { option_copied result ≡ spec.item_at items.now k }
{
    if k < 0 { None } else { items.get(k as usize) }
}

/// `.nth(I, L, X)`: the item I of the list.
pub fn nth_row(alloc: Global, args: &[Term], s: &Subst) -> Result<PairLists, Starved>
    ensures { IfOk result (λ r. behind s.now r ≡ solutions (spec.nth_row args.now) s.now) }
{
    match args {
        [i, l, x] => match (number_of(i), items_of(l)) {
            (Some(k), Some(items)) => match item_at(items, k) {
                Some(item) => meet(alloc, x, item, s),
                None => Ok(Seq::new(alloc)),
            },
            _ => Ok(Seq::new(alloc)),
        },
        _ => Ok(Seq::new(alloc)),
    }
}

/// The items of a list, the last one first.
fn reversed(alloc: Global, items: &[Term]) -> Result<Terms, Starved>
    ensures { IfOk result (λ r. r ≡ reverse items.now) }
{
    let mut out = copy_all(alloc, items)?;
    out.reverse();
    Ok(out)
}

/// `.reverse(L, R)`.
pub fn reverse_row(alloc: Global, args: &[Term], s: &Subst) -> Result<PairLists, Starved>
    ensures { IfOk result (λ r. behind s.now r ≡ solutions (spec.reverse_row args.now) s.now) }
{
    match args {
        [l, r] => match items_of(l) {
            Some(items) => {
                let items = reversed(alloc, items)?;
                meet_made(alloc, r, Term::List(ListingOf { items, tail: None }), s)
            }
            None => Ok(Seq::new(alloc)),
        },
        _ => Ok(Seq::new(alloc)),
    }
}
