//! A number for the first argument of a literal, by which clauses that can't match a goal are passed over.

ghost use Rattle.std.specs.Prelude.{◌≡◌, ◌<◌, ◌≤◌, false, length};
ghost use Rattle.asl_term.specs.declared.syntax.Term.{out-Term};
ghost use Rattle.asl_index_tables.specs.Firsts as spec;
ghost use Rattle.asl_index_tables.specs.Firsts.{IsOther, AreOther};

use crate::prints::{mix, mix_text};
use asl_term::syntax::{Literal, Term};

/// A number read off the topmost layer of a term, which no substitution changes; 0 where the layer tells nothing.
fn layer_print(t: &Term) -> u64
    ensures { result ≡ spec.layer_print (out-Term t.now) }
{
    match t {
        Term::Num(n) => mix(1, n.unsigned_abs()),
        Term::Str(s) => mix_text(2, s.as_slice()),
        Term::Lit(l) => mix(mix_text(4, l.functor.as_slice()), l.args.len()),
        _ => 0,
    }
}

/// That of the first argument of a literal; 0 where it has none.
pub fn first_print(l: &Literal) -> u64
    ensures { result ≡ spec.first_print l.now }
{
    match l.args.as_slice().first() {
        Some(t) => layer_print(t),
        None => 0,
    }
}

/// Whether such numbers may be those of terms that unify.
fn may_agree(a: u64, b: u64) -> bool
    ensures { result ≡ spec.may_agree a b }
{
    if a == 0 {
        true
    } else if b == 0 {
        true
    } else {
        a == b
    }
}

/// Whether the number that is noted of a place may agree, or none is noted.
fn may_be(firsts: &[u64], place: u64, first: u64) -> bool
    ensures { result ≡ false → IsOther first firsts.now place }
{
    match firsts.get(place as usize) {
        Some(f) => may_agree(first, *f),
        None => true,
    }
}

/// The first of some places, from the k-th on, of which the number may agree; where there is none, how many places there are,
/// and `k` itself where it is not less.
pub fn next_like(places: &[u64], firsts: &[u64], first: u64, k: u64) -> u64
    ensures from { k ≤ result }
    ensures within { k < result → result ≤ length places.now }
    ensures between { AreOther first firsts.now places.now k result }
{
    if places.len() as u64 <= k {
        return k;
    }
    for i in (k as usize)..places.len() {
        if may_be(firsts, places[i], first) {
            return i as u64;
        }
    }
    places.len() as u64
}
