//! Numbers of a term.

ghost use Rattle.std.specs.Prelude.{◌≡◌, map, sum};
ghost use Rattle.asl_term.specs.Trees as tree;
ghost use Rattle.asl_term.specs.Exprs as spec;

use crate::syntax::{Literal, Term};

/// The number of nodes.
#[cycle(size)]
pub fn size(t: &Term) -> u64
    ensures { result ≡ tree.capped (tree.size t.now) }
{
    match t {
        Term::Num(_) | Term::Str(_) | Term::Var(_) => 1,
        Term::Lit(l) => 1u64
            .saturating_add(sizes(l.args.as_slice()))
            .saturating_add(sizes(l.annots.as_slice())),
        Term::List(l) => {
            let items = sizes(l.items.as_slice());
            match &l.tail {
                None => 1u64.saturating_add(items),
                Some(tail) => 1u64.saturating_add(items).saturating_add(size(tail.get())),
            }
        }
        Term::Op(a) => 1u64
            .saturating_add(size(a.left.get()))
            .saturating_add(size(a.right.get())),
    }
}

/// The number of nodes of some terms together, as of the arguments of a literal.
#[cycle(size)]
pub fn sizes(ts: &[Term]) -> u64
    ensures { result ≡ tree.capped (sum (map tree.size ts.now)) }
{
    let mut n = 0u64;
    for t in ts {
        n = n.saturating_add(size(t));
    }
    n
}

/// The number of levels.
#[cycle(depth)]
pub fn depth(t: &Term) -> u64
    ensures { result ≡ tree.capped (tree.depth t.now) }
{
    match t {
        Term::Num(_) | Term::Str(_) | Term::Var(_) => 1,
        Term::Lit(l) => 1u64.saturating_add(deepest(l.args.as_slice()).max(deepest(
            l.annots.as_slice(),
        ))),
        Term::List(l) => {
            let items = deepest(l.items.as_slice());
            match &l.tail {
                None => 1u64.saturating_add(items),
                Some(tail) => 1u64.saturating_add(items.max(depth(tail.get()))),
            }
        }
        Term::Op(a) => 1u64.saturating_add(depth(a.left.get()).max(depth(a.right.get()))),
    }
}

#[cycle(depth)]
fn deepest(ts: &[Term]) -> u64
    ensures { result ≡ tree.capped (tree.greatest (map tree.depth ts.now)) }
{
    let mut n = 0u64;
    for t in ts {
        n = n.max(depth(t));
    }
    n
}

/// Whether it has no variable.
#[cycle(ground)]
pub fn ground(t: &Term) -> bool
    ensures { result ≡ tree.is_ground t.now }
{
    match t {
        Term::Num(_) | Term::Str(_) => true,
        Term::Var(_) => false,
        Term::Lit(l) => are_ground(l.args.as_slice()) && are_ground(l.annots.as_slice()),
        Term::List(l) => {
            are_ground(l.items.as_slice())
                && match &l.tail {
                    None => true,
                    Some(tail) => ground(tail.get()),
                }
        }
        Term::Op(a) => ground(a.left.get()) && ground(a.right.get()),
    }
}

#[cycle(ground)]
fn are_ground(ts: &[Term]) -> bool
    ensures { result ≡ tree.all (map tree.is_ground ts.now) }
{
    for t in ts {
        if !ground(t) {
            return false;
        }
    }
    true
}

/// The number of nodes of a literal.
pub fn literal_size(l: &Literal) -> u64
    ensures { result ≡ tree.capped (spec.literal_size l.now) }
{
    1u64.saturating_add(sizes(l.args.as_slice()))
        .saturating_add(sizes(l.annots.as_slice()))
}

/// The number of levels of a literal.
pub fn literal_depth(l: &Literal) -> u64
    ensures { result ≡ tree.capped (spec.literal_depth l.now) }
{
    1u64.saturating_add(deepest(l.args.as_slice()).max(deepest(l.annots.as_slice())))
}

/// Whether a literal has no variable.
pub fn ground_literal(l: &Literal) -> bool
    ensures { result ≡ spec.is_ground_literal l.now }
{
    are_ground(l.args.as_slice()) && are_ground(l.annots.as_slice())
}
