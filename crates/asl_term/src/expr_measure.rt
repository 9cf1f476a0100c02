//! Numbers of an expression.

ghost use Rattle.std.specs.Prelude.{◌≡◌, map, sum};
ghost use Rattle.asl_term.specs.Trees as tree;
ghost use Rattle.asl_term.specs.Exprs as spec;

use crate::measure::{depth, literal_depth, literal_size, size};
use crate::syntax::{Arg, ArgOf, Call, Expr, Relation};

/// The number of nodes. A literal in it has no node beside its own.
#[cycle(expr_size)]
#[tactic(auto, using(crate::proofs::Args::size_inner))]
pub fn expr_size(e: &Expr) -> u64
    ensures { result ≡ tree.capped (spec.size e.now) }
{
    match e {
        Expr::True | Expr::False => 1,
        Expr::Holds(l) => literal_size(l),
        Expr::Rel(r) => 1u64
            .saturating_add(size(&r.left))
            .saturating_add(size(&r.right)),
        Expr::Inner(c) => 1u64.saturating_add(args_size(c.args.as_slice())),
        Expr::Not(e) => 1u64.saturating_add(expr_size(e.get())),
        Expr::And(a, b) | Expr::Or(a, b) => 1u64
            .saturating_add(expr_size(a.get()))
            .saturating_add(expr_size(b.get())),
    }
}

#[cycle(expr_size)]
fn args_size(args: &[Arg]) -> u64
    ensures { result ≡ tree.capped (sum (map spec.arg_size (map (spec.map_arg spec.size) args.now))) }
{
    let mut n = 0u64;
    for arg in args {
        let m = match arg {
            ArgOf::Plain(t) => size(t),
            ArgOf::Logic(e) => expr_size(e),
        };
        n = n.saturating_add(m);
    }
    n
}

/// The number of levels. A literal in it has no level beside its own.
#[cycle(expr_depth)]
#[tactic(auto, using(crate::proofs::Args::depth_inner))]
pub fn expr_depth(e: &Expr) -> u64
    ensures { result ≡ tree.capped (spec.depth e.now) }
{
    match e {
        Expr::True | Expr::False => 1,
        Expr::Holds(l) => literal_depth(l),
        Expr::Rel(r) => 1u64.saturating_add(depth(&r.left).max(depth(&r.right))),
        Expr::Inner(c) => 1u64.saturating_add(args_depth(c.args.as_slice())),
        Expr::Not(e) => 1u64.saturating_add(expr_depth(e.get())),
        Expr::And(a, b) | Expr::Or(a, b) => {
            1u64.saturating_add(expr_depth(a.get()).max(expr_depth(b.get())))
        }
    }
}

#[cycle(expr_depth)]
fn args_depth(args: &[Arg]) -> u64
    ensures { result ≡ tree.capped (tree.greatest (map spec.arg_depth (map (spec.map_arg spec.depth) args.now))) }
{
    let mut n = 0u64;
    for arg in args {
        let m = match arg {
            ArgOf::Plain(t) => depth(t),
            ArgOf::Logic(e) => expr_depth(e),
        };
        n = n.max(m);
    }
    n
}

/// The number of nodes of a relation.
#[tactic(auto, using(crate::proofs::Args::size_relation))]
pub fn relation_size(r: &Relation) -> u64
    ensures { result ≡ tree.capped (spec.relation_size r.now) }
{
    1u64.saturating_add(size(&r.left))
        .saturating_add(size(&r.right))
}

/// The number of levels of a relation.
#[tactic(auto, using(crate::proofs::Args::depth_relation))]
pub fn relation_depth(r: &Relation) -> u64
    ensures { result ≡ tree.capped (spec.relation_depth r.now) }
{
    1u64.saturating_add(depth(&r.left).max(depth(&r.right)))
}

/// The number of nodes of a call.
#[tactic(auto, using(crate::proofs::Args::size_inner))]
pub fn call_size(c: &Call) -> u64
    ensures { result ≡ tree.capped (spec.call_size c.now) }
{
    1u64.saturating_add(args_size(c.args.as_slice()))
}

/// The number of levels of a call.
#[tactic(auto, using(crate::proofs::Args::depth_inner))]
pub fn call_depth(c: &Call) -> u64
    ensures { result ≡ tree.capped (spec.call_depth c.now) }
{
    1u64.saturating_add(args_depth(c.args.as_slice()))
}
