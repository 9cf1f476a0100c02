//! A number for each term, which is the same for the same terms, and seldom so for others.

ghost use Rattle.std.specs.Prelude.{◌≡◌, map};
ghost use Rattle.asl_index_tables.specs.Prints as spec;
ghost use Rattle.asl_index_tables.specs.Prints.{key_print, mixed, print};

use asl_term::syntax::{Literal, Term};

/// One number of two: the first is spread by a prime before the second is added.
pub fn mix(a: u64, b: u64) -> u64
    ensures { result ≡ spec.mix a b }
{
    a.wrapping_mul(1_099_511_628_211).wrapping_add(b)
}

/// A number with the bytes of a text, in order.
pub fn mix_text(first: u64, text: &[u8]) -> u64
    ensures { result ≡ mixed first text.now }
{
    let mut n = first;
    for b in text {
        n = mix(n, u64::from(*b));
    }
    n
}

/// The number of a term.
#[cycle(term_print)]
pub fn term_print(t: &Term) -> u64
    ensures { result ≡ print t.now }
{
    match t {
        Term::Num(n) => mix(1, n.unsigned_abs()),
        Term::Str(s) => mix_text(2, s.as_slice()),
        Term::Var(v) => mix(3, v.number),
        Term::Lit(l) => {
            let name = mix_text(4, l.functor.as_slice());
            let args = mix_terms(name, l.args.as_slice());
            mix_terms(args, l.annots.as_slice())
        }
        Term::List(l) => {
            let items = mix_terms(5, l.items.as_slice());
            match &l.tail {
                None => mix(items, 0),
                Some(tail) => mix(items, term_print(tail.get())),
            }
        }
        Term::Op(a) => {
            let left = mix(6, term_print(a.left.get()));
            mix(left, term_print(a.right.get()))
        }
    }
}

/// A number with those of terms, in order.
#[cycle(term_print)]
fn mix_terms(first: u64, ts: &[Term]) -> u64
    ensures { result ≡ mixed first (map print ts.now) }
{
    let mut n = first;
    for t in ts {
        n = mix(n, term_print(t));
    }
    n
}

/// The number of the functor and arguments of a literal.
pub fn literal_print(l: &Literal) -> u64
    ensures { result ≡ key_print l.now.functor l.now.args }
{
    mix_terms(mix_text(7, l.functor.as_slice()), l.args.as_slice())
}
