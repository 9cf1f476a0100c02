//! The parts of a guard.

ghost use Rattle.std.specs.Prelude.{◌≡◌, [], ◌∷◌, ◌++◌, Some, IfOk};
ghost use Rattle.asl_parser_tree.specs.Leaves.{Gives};
ghost use Rattle.env_file.specs.Guards as spec;

use crate::statement::{Part, StatementParts};
use asl_term::boxed::Boxed;
use asl_term::copying::{copy_literal, copy_relation};
use asl_term::sequence::{Seq, Starved};
use asl_term::syntax::{Expr, Exprs};
use std::alloc::Global;

fn one(alloc: Global, p: Part) -> Result<StatementParts, Starved>
    ensures { IfOk result (λ r. r ≡ p ∷ []) }
{
    let mut all = Seq::new(alloc);
    all.push(p)?;
    Ok(all)
}

fn denied(alloc: Global, ps: StatementParts) -> Result<Option<StatementParts>, Starved>
    ensures { Gives (λ x. x) result (spec.denied ps) }
{
    match ps.as_slice() {
        [Part::Holds(l)] => Ok(Some(one(alloc, Part::Denied(copy_literal(alloc, l)?))?)),
        _ => Ok(None),
    }
}

fn both(left: StatementParts, right: StatementParts) -> Result<StatementParts, Starved>
    ensures { IfOk result (λ r. r ≡ left ++ right) }
{
    let mut all = left;
    all.append_all(right)?;
    Ok(all)
}

/// The parts of a formula, if each is a literal, `not` before a literal, or a relation.
#[cycle(parts)]
fn parts(alloc: Global, e: &Expr) -> Result<Option<StatementParts>, Starved>
    ensures { Gives (λ x. x) result (spec.parts e.now) }
{
    match e {
        Expr::True | Expr::False | Expr::Inner(_) | Expr::Or(_, _) => Ok(None),
        Expr::Holds(l) => Ok(Some(one(alloc, Part::Holds(copy_literal(alloc, l)?))?)),
        Expr::Rel(r) => Ok(Some(one(alloc, Part::Related(copy_relation(alloc, r)?))?)),
        Expr::Not(inner) => {
            let Some(ps) = parts(alloc, inner.get())? else {
                return Ok(None);
            };
            denied(alloc, ps)
        }
        Expr::And(a, b) => {
            let Some(left) = parts(alloc, a.get())? else {
                return Ok(None);
            };
            let Some(right) = parts(alloc, b.get())? else {
                return Ok(None);
            };
            Ok(Some(both(left, right)?))
        }
    }
}

/// The parts of a guard, if it has them; an act without one has none.
fn guard_parts(alloc: Global, guard: &Option<Expr>) -> Result<Option<StatementParts>, Starved>
    ensures { Gives (λ x. x) result (spec.guard_parts guard.now) }
{
    match guard {
        Some(e) => parts(alloc, e),
        None => Ok(Some(Seq::new(alloc))),
    }
}

/// The parts of the guard of a clause, which has them.
pub fn said_parts(alloc: Global, guard: &Option<Expr>) -> Result<StatementParts, Starved>
    ensures { IfOk result (λ ps. ps ≡ spec.said_parts guard.now) }
{
    match guard_parts(alloc, guard)? {
        Some(ps) => Ok(ps),
        None => Ok(Seq::new(alloc)),
    }
}

fn expr_of(alloc: Global, p: &Part) -> Result<Expr, Starved>
    ensures { IfOk result (λ e. e ≡ spec.expr_of p.now) }
{
    match p {
        Part::Holds(l) => Ok(Expr::Holds(copy_literal(alloc, l)?)),
        Part::Denied(l) => {
            let held = Boxed::new(alloc, Expr::Holds(copy_literal(alloc, l)?))?;
            Ok(Expr::Not(held))
        }
        Part::Related(r) => Ok(Expr::Rel(copy_relation(alloc, r)?)),
    }
}

/// The parts as expressions.
#[tactic(auto, using(crate::proofs::Lists::mapped_more, crate::proofs::Lists::mapped_all))]
pub fn exprs_of(alloc: Global, ps: &[Part]) -> Result<Exprs, Starved>
    ensures { IfOk result (λ es. es ≡ spec.exprs_of ps.now) }
{
    let mut all = Seq::new(alloc);
    let mut rest = ps;
    'parts: while let Some((p, after)) = rest.split_first() {
        all.push(expr_of(alloc, p)?)?;
        rest = after;
    }
    Ok(all)
}
