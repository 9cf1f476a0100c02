//! The greatest and the least of numbers.

ghost use Rattle.std.specs.Prelude.{◌≡◌, IfOk};
ghost use Rattle.std.specs.List.{fold};
ghost use Rattle.std.specs.Option.{option_map};
ghost use Rattle.asl_unify.specs.Matches.{behind};
ghost use Rattle.asl_stdlib.specs.Findings.{solutions};
ghost use Rattle.asl_stdlib.specs.Rows as spec;

use crate::findings::meet_made;
use crate::kinds::items_of;
use asl_term::sequence::{Seq, Starved};
use asl_term::syntax::Term;
use asl_unify::settle::number_of;
use asl_unify::subst::{PairLists, Subst};
use std::alloc::Global;

/// Which end of a row of numbers.
#[derive(Clone, Copy, Drop)]
pub enum Extreme {
    Least,
    Greatest,
}

/// The lesser or the greater of two numbers.
fn better(e: Extreme, m: i64, n: i64) -> i64
    ensures { result ≡ spec.better e m n }
{
    match e {
        Extreme::Least => m.min(n),
        Extreme::Greatest => m.max(n),
    }
}

/// The least or the greatest of a number and these terms, if all are numbers.
fn best_from(e: Extreme, first: i64, ts: &[Term]) -> Option<i64>
    ensures { result ≡ option_map (fold (spec.better e) first) (spec.numbers ts.now) }
{
    let mut m = first;
    for t in ts {
        match number_of(t) {
            Some(n) => m = better(e, m, n),
            None => return None,
        }
    }
    Some(m)
}

/// The least or the greatest of one or more terms, if all are numbers.
fn best_of(e: Extreme, ts: &[Term]) -> Option<i64>
    ensures { result ≡ spec.best_of e ts.now }
{
    match ts {
        [first, rest @ ..] => match number_of(first) {
            Some(n) => best_from(e, n, rest),
            None => None,
        },
        [] => None,
    }
}

/// `.max(L, X)` and `.min(L, X)`, of a list of one or more numbers.
pub fn best_row(alloc: Global, e: Extreme, args: &[Term], s: &Subst) -> Result<PairLists, Starved>
    ensures { IfOk result (λ r. behind s.now r ≡ solutions (spec.best_row e args.now) s.now) }
{
    match args {
        [l, x] => match items_of(l) {
            Some(items) => match best_of(e, items) {
                Some(n) => meet_made(alloc, x, Term::Num(n), s),
                None => Ok(Seq::new(alloc)),
            },
            None => Ok(Seq::new(alloc)),
        },
        _ => Ok(Seq::new(alloc)),
    }
}
