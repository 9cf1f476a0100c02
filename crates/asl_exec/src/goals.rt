//! The rows for goals: to achieve, of an intention of its own, and to test.

ghost use Rattle.std.specs.Prelude.{◌≡◌, ◌+◌, ◌<◌, ◌≤◌, ◌-◌, ◌^◌, IfOk};
ghost use Rattle.asl_resolve.specs.Marks.{NextAtMost};
ghost use Rattle.asl_exec.specs.Exec as rows;
ghost use Rattle.asl_exec_circumstance.specs.Circumstance as spec;

use asl_beliefs::base::BeliefBase;
use asl_exec_circumstance::parts::{Circumstance, Surroundings, fails_as, goal_event};
use asl_exec_circumstance::rows::Row;
use asl_exec_circumstance::sought::sought;
use asl_exec_circumstance::went::Went;
use asl_intend::agenda::Error;
use asl_intend::stack::Stack;
use asl_resolve::actions::Actions;
use asl_resolve::answers::Answer;
use asl_term::copying::copy_literal;
use asl_term::sequence::Starved;
use asl_term::syntax::{Expr, Formula, Kind, Literal};
use asl_unify::subst::Subst;
use std::alloc::Global;
use std::mem;

/// The current stack waits below the event of a goal, with this formula as its head.
fn wait<B: BeliefBase>(
    alloc: Global,
    p: &mut Circumstance<B>,
    cur: &mut Stack,
    head: Formula,
    kind: Kind,
    g: &Literal,
    row: Row,
) -> Result<Went, Starved>
    ensures made { IfOk result (λ w. rows.waits row (spec.seen B.beliefs p.old) cur.old head kind g.now ≡ spec.made (spec.seen B.beliefs p.new) cur.new w) }
    ensures beliefs { p.new.beliefs ≡ p.old.beliefs }
    ensures number { p.new.number ≡ p.old.number }
{
    cur.set_head(head)?;
    let stack = mem::replace(cur, Stack::new(alloc));
    p.agenda.post(goal_event(alloc, kind, g, stack)?)?;
    Ok(Went::Row(row))
}

/// AchvGl.
pub fn achieve<B: BeliefBase>(
    alloc: Global,
    p: &mut Circumstance<B>,
    cur: &mut Stack,
    g: &Literal,
) -> Result<Went, Starved>
    ensures made { IfOk result (λ w. rows.achieve (spec.seen B.beliefs p.old) cur.old g.now ≡ spec.made (spec.seen B.beliefs p.new) cur.new w) }
    ensures beliefs { p.new.beliefs ≡ p.old.beliefs }
    ensures number { p.new.number ≡ p.old.number }
{
    let head = Formula::Achieve(copy_literal(alloc, g)?);
    wait(alloc, p, cur, head, Kind::Achieve, g, Row::AchvGl)
}

/// AchvNew.
pub fn spawn<B: BeliefBase>(
    alloc: Global,
    p: &mut Circumstance<B>,
    cur: &mut Stack,
    g: &Literal,
) -> Result<Went, Starved>
    ensures made { IfOk result (λ w. rows.spawn (spec.seen B.beliefs p.old) cur.old g.now ≡ spec.made (spec.seen B.beliefs p.new) cur.new w) }
    ensures beliefs { p.new.beliefs ≡ p.old.beliefs }
    ensures number { p.new.number ≡ p.old.number }
{
    let event = goal_event(alloc, Kind::Achieve, g, Stack::new(alloc))?;
    p.agenda.post(event)?;
    cur.remove_head();
    Ok(Went::Row(Row::AchvNew))
}

/// A solution is applied, the counter becomes its next number, and the head is removed.
pub fn solved<B: BeliefBase>(
    p: &mut Circumstance<B>,
    cur: &mut Stack,
    row: Row,
    s: &Subst,
    next: u64,
) -> Result<Went, Starved>
    ensures made { IfOk result (λ w. rows.solved row (spec.seen B.beliefs p.old) cur.old s.now next ≡ spec.made (spec.seen B.beliefs p.new) cur.new w) }
    ensures beliefs { p.new.beliefs ≡ p.old.beliefs }
    ensures number { p.new.number ≡ next }
{
    p.number = next;
    cur.bind(s)?;
    cur.remove_head();
    Ok(Went::Row(row))
}

/// The row of a test goal, by what the search for it answered.
fn tested<B: BeliefBase, A: Actions>(
    alloc: Global,
    k: &Surroundings<A>,
    p: &mut Circumstance<B>,
    cur: &mut Stack,
    g: &Literal,
    answer: Answer,
) -> Result<Went, Starved>
    requires { NextAtMost (p.old.number + k.now.budgets.tries) answer }
    ensures made { IfOk result (λ w. rows.tested (spec.seen_around A.solve k.now B.rules p.old) (spec.seen B.beliefs p.old) cur.old g.now answer
        ≡ spec.made (spec.seen B.beliefs p.new) cur.new w) }
    ensures beliefs { p.new.beliefs ≡ p.old.beliefs }
    ensures number { p.new.number ≤ p.old.number + k.now.budgets.tries }
{
    match answer {
        Answer::Found { subst, next } => solved(p, cur, Row::TestGl1, &subst, next),
        Answer::Nothing => {
            let head = Formula::Test(copy_literal(alloc, g)?);
            wait(alloc, p, cur, head, Kind::Test, g, Row::TestGl2)
        }
        Answer::Arith => fails_as(alloc, k, p, cur, Row::TestErr, Error::Arith),
        Answer::TermLimit => fails_as(alloc, k, p, cur, Row::TestErr, Error::TermLimit),
        Answer::Spent(spent) => Ok(Went::Spent {
            row: Row::TestSpent,
            spent,
        }),
    }
}

/// TestGl1, TestGl2, TestErr, TestSpent.
pub fn test<B: BeliefBase, A: Actions>(
    alloc: Global,
    k: &Surroundings<A>,
    p: &mut Circumstance<B>,
    cur: &mut Stack,
    g: &Literal,
) -> Result<Went, Starved>
    requires { p.old.number + k.now.budgets.tries < 2 ^ 64 - 1 }
    ensures made { IfOk result (λ w. rows.test (spec.seen_around A.solve k.now B.rules p.old) (spec.seen B.beliefs p.old) cur.old g.now
        ≡ spec.made (spec.seen B.beliefs p.new) cur.new w) }
    ensures beliefs { p.new.beliefs ≡ p.old.beliefs }
    ensures number { p.new.number ≤ p.old.number + k.now.budgets.tries }
{
    let e = Expr::Holds(copy_literal(alloc, g)?);
    let found = sought(alloc, k, p, &e);
    // A tree given away is cheaper to prove than one that ends in place.
    drop(e);
    let answer = found?;
    tested(alloc, k, p, cur, g, answer)
}
