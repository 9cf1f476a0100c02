//! Terms that hold no operation. To settle leaves them as they are, so they are moved.

ghost use Rattle.std.specs.Prelude.{◌≡◌, map, IfOk, IfErr, Ok};
ghost use Rattle.asl_term.specs.Trees.{all};
ghost use Rattle.asl_unify.specs.Settling as spec;
ghost use Rattle.asl_unify_early.specs.inner.Plain as early;

use asl_term::syntax::{Literal, Term};
use asl_unify::settle::{ArithFault, settle_literal};
use std::alloc::Global;

/// Whether a term holds no operation.
#[cycle(plain)]
fn is_plain(t: &Term) -> bool
    ensures { result ≡ early.is_plain t.now }
{
    match t {
        Term::Num(_) | Term::Str(_) | Term::Var(_) => true,
        Term::Lit(l) => are_plain(l.args.as_slice()) && are_plain(l.annots.as_slice()),
        Term::List(l) => {
            are_plain(l.items.as_slice())
                && match &l.tail {
                    None => true,
                    Some(tail) => is_plain(tail.get()),
                }
        }
        Term::Op(_) => false,
    }
}

#[cycle(plain)]
fn are_plain(ts: &[Term]) -> bool
    ensures { result ≡ all (map early.is_plain ts.now) }
{
    for t in ts {
        if !is_plain(t) {
            return false;
        }
    }
    true
}

/// The same of a literal.
fn is_plain_literal(l: &Literal) -> bool
    ensures { result ≡ early.is_plain_literal l.now }
{
    are_plain(l.args.as_slice()) && are_plain(l.annots.as_slice())
}

/// Every operation of a literal that is given away becomes its number. A literal that holds none comes back as it is.
pub fn settled_literal(alloc: Global, l: Literal) -> Result<Literal, ArithFault>
    ensures ok { IfOk result (λ r. spec.settle_literal l ≡ Ok r) }
    ensures fault { IfErr result (λ e. spec.Faults (spec.settle_literal l) e) }
{
    if is_plain_literal(&l) {
        return Ok(l);
    }
    let found = settle_literal(alloc, &l);
    drop(l);
    found
}
