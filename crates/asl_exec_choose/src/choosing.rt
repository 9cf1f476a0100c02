//! The first relevant plan whose context is found.

ghost use Rattle.std.specs.Prelude.{ℕ, ◌≡◌, ◌+◌, ◌-◌, ◌<◌, ◌^◌, map, IfOk, IfSome};
ghost use Rattle.asl_unify.specs.Renamed.{renamed_formula};
ghost use Rattle.asl_plans.specs.Libraries.{plan_at};
ghost use Rattle.asl_resolve.specs.Marks.{NextAtMost};
ghost use Rattle.asl_exec_choose.specs.declared.chosen.Chosen.{Chosen as Given};
ghost use Rattle.asl_exec_circumstance.specs.Circumstance.{seen_around, seen};
ghost use Rattle.asl_exec_choose.specs.Choosing as spec;
ghost use Rattle.asl_exec_choose.specs.Numbers.{ChosenAtMost, or_else};

use crate::chosen::Chosen;
use asl_beliefs::base::BeliefBase;
use asl_exec_circumstance::parts::{Circumstance, Surroundings};
use asl_intend::entry::Means;
use asl_plans::library::Choice;
use asl_resolve::actions::Actions;
use asl_resolve::answers::Answer;
use asl_resolve::first::first;
use asl_term::sequence::{Seq, Starved};
use asl_term::syntax::{Expr, Formula, Formulas, Plan, Trigger};
use asl_unify::rename::{rename_expr, rename_formula, rename_literal};
use asl_unify::subst::{Subst, copy_subst};
use std::alloc::Global;

fn rename_trigger(alloc: Global, t: &Trigger, number: u64) -> Result<Trigger, Starved>
    ensures { IfOk result (λ r. r ≡ spec.renamed_trigger number t.now) }
{
    let lit = rename_literal(alloc, &t.lit, number)?;
    Ok(Trigger {
        add: t.add,
        kind: t.kind,
        lit,
    })
}

fn rename_body(alloc: Global, body: &[Formula], number: u64) -> Result<Formulas, Starved>
    ensures { IfOk result (λ r. r ≡ map (renamed_formula number) body.now) }
{
    let mut r = Seq::new(alloc);
    r.reserve_exact(body.len() as u64)?;
    for f in body {
        r.push(rename_formula(alloc, f, number)?)?;
    }
    Ok(r)
}

/// The means of a plan, renamed.
pub fn rename_means(alloc: Global, plan: &Plan, number: u64) -> Result<Means, Starved>
    ensures { IfOk result (λ r. r ≡ spec.renamed_means number plan.now) }
{
    let body = rename_body(alloc, plan.body.as_slice(), number)?;
    let trigger = rename_trigger(alloc, &plan.trigger, number)?;
    Ok(Means { trigger, body })
}

/// What the search for the context of a plan answers. A context that is true is found at once.
fn sought<B: BeliefBase, A: Actions>(
    alloc: Global,
    k: &Surroundings<A>,
    p: &Circumstance<B>,
    number: u64,
    plan: &Plan,
    s: &Subst,
) -> Result<Answer, Starved>
    requires { p.now.number + k.now.budgets.tries < 2 ^ 64 - 1 }
    ensures answer { IfOk result (λ r. r ≡ spec.sought (seen_around A.solve k.now B.rules p.now) (seen B.beliefs p.now) number plan.now s.now) }
    ensures number { IfOk result (λ r. NextAtMost (p.now.number + k.now.budgets.tries) r) }
{
    if let Expr::True = &plan.context {
        let subst = copy_subst(alloc, s)?;
        return Ok(Answer::Found {
            subst,
            next: p.number,
        });
    }
    let context = rename_expr(alloc, &plan.context, number)?;
    let answer = first(
        alloc, &p.beliefs, &k.actions, &context, s, p.number, &k.budgets,
    );
    drop(context);
    answer
}

/// What the answer for the context of a plan decides, where it decides something.
fn choose_by(
    alloc: Global,
    number: u64,
    plan: &Plan,
    answer: Answer,
) -> Result<Option<Chosen>, Starved>
    ensures chosen { IfOk result (λ r. (rest : Given) → spec.choose_by number plan.now answer rest ≡ or_else r rest) }
    ensures number { IfOk result (λ r. (most : ℕ) → NextAtMost most answer → IfSome r (ChosenAtMost most)) }
{
    match answer {
        Answer::Found { subst, next } => {
            let means = rename_means(alloc, plan, number)?;
            Ok(Some(Chosen::Plan(means, subst, next)))
        }
        Answer::Spent(spent) => Ok(Some(Chosen::Spent(spent))),
        Answer::Nothing | Answer::Arith | Answer::TermLimit => Ok(None),
    }
}

/// What one relevant plan decides.
fn choose_at<B: BeliefBase, A: Actions>(
    alloc: Global,
    k: &Surroundings<A>,
    p: &Circumstance<B>,
    number: u64,
    c: &Choice,
) -> Result<Option<Chosen>, Starved>
    requires { p.now.number + k.now.budgets.tries < 2 ^ 64 - 1 }
    ensures chosen { let e = seen_around A.solve k.now B.rules p.now in
        let q = seen B.beliefs p.now in
        IfOk result (λ r. (rest : Given) → spec.choose_at e q number (plan_at k.now.lib.plans c.now.plan) c.now.subst rest ≡ or_else r rest) }
    ensures number { IfOk result (λ r. IfSome r (ChosenAtMost (p.now.number + k.now.budgets.tries))) }
{
    match k.lib.plan(c.plan) {
        None => Ok(None),
        Some(plan) => {
            let answer = sought(alloc, k, p, number, plan, &c.subst)?;
            choose_by(alloc, number, plan, answer)
        }
    }
}

/// The first of these plans whose context is found, the searches before it being neither found nor spent.
pub fn choose<B: BeliefBase, A: Actions>(
    alloc: Global,
    k: &Surroundings<A>,
    p: &Circumstance<B>,
    number: u64,
    choices: &[Choice],
) -> Result<Chosen, Starved>
    requires { p.now.number + k.now.budgets.tries < 2 ^ 64 - 1 }
    ensures chosen { let e = seen_around A.solve k.now B.rules p.now in
        let q = seen B.beliefs p.now in
        IfOk result (λ r. r ≡ spec.choose e q number choices.now) }
    ensures number { IfOk result (ChosenAtMost (p.now.number + k.now.budgets.tries)) }
{
    for c in choices {
        if let Some(chosen) = choose_at(alloc, k, p, number, c)? {
            return Ok(chosen);
        }
    }
    Ok(Chosen::Nothing)
}
