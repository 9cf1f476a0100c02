//! Whether two terms are the same.

ghost use Rattle.std.specs.Prelude.{◌≡◌, ◌↔◌, IsTrue, map};
ghost use Rattle.std.specs.Str.{bytes_eq};
ghost use Rattle.asl_term.specs.Same.{all_same, same_tree};
ghost use Rattle.asl_term.specs.Trees as vars;

use crate::name::same_name;
use crate::syntax::{Op, Term, Text, Var};

/// Whether two texts are the same, byte by byte.
pub fn same_text(a: &Text, b: &Text) -> bool
    ensures same { IsTrue result ↔ (a.now ≡ b.now) }
    ensures value { result ≡ bytes_eq a.now b.now }
{
    a.as_slice() == b.as_slice()
}

/// Whether two variables are the same one. The names alone do not say it: a renaming keeps them,
/// and gives the variables another number.
pub fn same_var(a: &Var, b: &Var) -> bool
    ensures same { IsTrue result ↔ (a.now ≡ b.now) }
    ensures value { result ≡ vars.same_var a.now b.now }
{
    a.number == b.number && same_name(&a.name, &b.name)
}

fn same_op(a: Op, b: Op) -> bool
    ensures { IsTrue result ↔ (a ≡ b) }
{
    a == b
}

/// Whether they are the same tree.
pub fn equal(a: &Term, b: &Term) -> bool
    ensures same { IsTrue result ↔ (a.now ≡ b.now) }
    ensures value { result ≡ same_tree a.now b.now }
{
    same_term(a, b)
}

/// Whether they are the same trees in the same order.
pub fn equal_all(a: &[Term], b: &[Term]) -> bool
    ensures same { IsTrue result ↔ (a.now ≡ b.now) }
    ensures value { result ≡ all_same (map same_tree a.now) b.now }
{
    same_terms(a, b)
}

#[cycle(same_term)]
fn same_term(a: &Term, b: &Term) -> bool
    ensures { IsTrue result ↔ (a.now ≡ b.now) }
{
    match a {
        Term::Num(x) => match b {
            Term::Num(y) => *x == *y,
            _ => false,
        },
        Term::Str(x) => match b {
            Term::Str(y) => same_text(x, y),
            _ => false,
        },
        Term::Var(x) => match b {
            Term::Var(y) => same_var(x, y),
            _ => false,
        },
        Term::Lit(x) => match b {
            Term::Lit(y) => {
                x.neg == y.neg
                    && same_text(&x.functor, &y.functor)
                    && same_terms(x.args.as_slice(), y.args.as_slice())
                    && same_terms(x.annots.as_slice(), y.annots.as_slice())
            }
            _ => false,
        },
        Term::List(x) => match b {
            Term::List(y) => {
                same_terms(x.items.as_slice(), y.items.as_slice())
                    && match (&x.tail, &y.tail) {
                        (None, None) => true,
                        (Some(s), Some(t)) => same_term(s.get(), t.get()),
                        _ => false,
                    }
            }
            _ => false,
        },
        Term::Op(x) => match b {
            Term::Op(y) => {
                same_op(x.op, y.op)
                    && same_term(x.left.get(), y.left.get())
                    && same_term(x.right.get(), y.right.get())
            }
            _ => false,
        },
    }
}

#[cycle(same_term)]
fn same_terms(a: &[Term], b: &[Term]) -> bool
    ensures { IsTrue result ↔ (a.now ≡ b.now) }
{
    if a.len() != b.len() {
        return false;
    }
    for i in 0..a.len() {
        if !same_term(&a[i], &b[i]) {
            return false;
        }
    }
    true
}
