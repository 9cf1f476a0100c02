//! The search for one solution of an expression.

ghost use Rattle.std.specs.Prelude.{◌≡◌, ◌+◌, ◌<◌, ◌-◌, ◌^◌, IfOk};
ghost use Rattle.asl_resolve.specs.Marks.{NextAtMost};
ghost use Rattle.asl_exec_circumstance.specs.Circumstance as spec;
ghost use Rattle.asl_exec_circumstance.specs.Sought as searches;

use crate::parts::{Circumstance, Surroundings};
use asl_beliefs::base::BeliefBase;
use asl_resolve::actions::Actions;
use asl_resolve::answers::Answer;
use asl_resolve::first::first;
use asl_term::sequence::Starved;
use asl_term::syntax::Expr;
use asl_unify::subst::no_subst;
use std::alloc::Global;

/// What the search for an expression answers.
pub fn sought<B: BeliefBase, A: Actions>(
    alloc: Global,
    k: &Surroundings<A>,
    p: &Circumstance<B>,
    e: &Expr,
) -> Result<Answer, Starved>
    requires { p.now.number + k.now.budgets.tries < 2 ^ 64 - 1 }
    ensures answer { IfOk result (λ r. r ≡ searches.sought (spec.seen_around A.solve k.now B.rules p.now) (spec.seen B.beliefs p.now) e.now) }
    ensures number { IfOk result (λ r. NextAtMost (p.now.number + k.now.budgets.tries) r) }
{
    first(
        alloc,
        &p.beliefs,
        &k.actions,
        e,
        &no_subst(alloc),
        p.number,
        &k.budgets,
    )
}
