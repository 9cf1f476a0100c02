//! Literals and terms without arithmetic.

ghost use Rattle.std.specs.Prelude.{◌≡◌, map};
ghost use Rattle.asl_term.specs.Trees as tree;
ghost use Rattle.asl_parser_tree.specs.Plain as spec;

use asl_term::syntax::{Listing, Literal, Term};

/// Whether it holds no arithmetic.
#[cycle(plain)]
pub fn is_plain(t: &Term) -> bool
    ensures { result ≡ spec.is_plain t.now }
{
    match t {
        Term::Num(_) | Term::Str(_) | Term::Var(_) => true,
        Term::Lit(l) => are_plain(l.args.as_slice()) && are_plain(l.annots.as_slice()),
        Term::List(l) => {
            are_plain(l.items.as_slice())
                && match &l.tail {
                    None => true,
                    Some(tail) => is_plain(tail.get()),
                }
        }
        Term::Op(_) => false,
    }
}

/// Whether none of them holds arithmetic, however deep.
#[cycle(plain)]
pub fn are_plain(ts: &[Term]) -> bool
    ensures { result ≡ tree.all (map spec.is_plain ts.now) }
{
    for t in ts {
        if !is_plain(t) {
            return false;
        }
    }
    true
}

/// Whether a literal holds no arithmetic. Beliefs, rule heads, initial goals and triggers have
/// to be so.
pub fn is_plain_literal(l: &Literal) -> bool
    ensures { result ≡ spec.is_plain_literal l.now }
{
    are_plain(l.args.as_slice()) && are_plain(l.annots.as_slice())
}

/// Whether a list holds no arithmetic, neither in its items nor in its tail.
pub fn is_plain_listing(l: &Listing) -> bool
    ensures { result ≡ spec.is_plain_listing l.now }
{
    are_plain(l.items.as_slice())
        && match &l.tail {
            None => true,
            Some(tail) => is_plain(tail.get()),
        }
}

/// Whether there is none of them, as an action has no annotations.
pub fn is_none(ts: &[Term]) -> bool
    ensures { result ≡ spec.is_none ts.now }
{
    match ts {
        [] => true,
        _ => false,
    }
}

/// Whether it is positive and has no annotations.
pub fn is_action(l: &Literal) -> bool
    ensures { result ≡ spec.is_action l.now }
{
    !l.neg && is_none(l.annots.as_slice())
}
