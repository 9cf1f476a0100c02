//! The row for the first formula of the current stack.

ghost use Rattle.std.specs.Prelude.{◌≡◌, ◌+◌, ◌<◌, ◌≤◌, ◌-◌, ◌^◌, [], None, IfOk, IfErr};
ghost use Rattle.asl_unify.specs.Comparing as comparing;
ghost use Rattle.asl_unify.specs.Settling.{settle_formula as settling};
ghost use Rattle.asl_resolve.specs.Marks.{NextAtMost};
ghost use Rattle.asl_exec.specs.Exec as rows;
ghost use Rattle.asl_exec_circumstance.specs.Circumstance as spec;

use crate::believing::{add, delete, replace};
use crate::goals::{achieve, solved, spawn, test};
use crate::said::print_text;
use asl_beliefs::base::BeliefBase;
use asl_beliefs::sources::with_source;
use asl_exec_circumstance::parts::{Circumstance, Surroundings, fails_as};
use asl_exec_circumstance::rows::Row;
use asl_exec_circumstance::sought::sought;
use asl_exec_circumstance::went::Went;
use asl_intend::agenda::{Acting, Error};
use asl_intend::stack::Stack;
use asl_resolve::actions::Actions;
use asl_resolve::answers::Answer;
use asl_term::copying::{copy_call, copy_literal};
use asl_term::measure::ground_literal;
use asl_term::sequence::Starved;
use asl_term::syntax::{Call, Expr, Formula, Literal, Relation};
use asl_term_actions::action::Action;
use asl_term_actions::named::named;
use asl_unify::comparing::{CompareFault, compare};
use asl_unify::limits::TermFault;
use asl_unify::settle::{ArithFault, settle_formula};
use asl_unify::subst::{Subst, no_subst};
use std::alloc::Global;
use std::mem;

/// Action, or ExecFree where the action has a variable.
fn act<B: BeliefBase, A: Actions>(
    alloc: Global,
    k: &Surroundings<A>,
    p: &mut Circumstance<B>,
    cur: &mut Stack,
    l: &Literal,
) -> Result<Went, Starved>
    requires { p.old.agenda.acting ≡ None }
    ensures made { IfOk result (λ w. rows.act (spec.seen_around A.solve k.now B.rules p.old) (spec.seen B.beliefs p.old) cur.old l.now
        ≡ spec.made (spec.seen B.beliefs p.new) cur.new w) }
    ensures beliefs { p.new.beliefs ≡ p.old.beliefs }
    ensures number { p.new.number ≡ p.old.number }
{
    if !ground_literal(l) {
        return fails_as(alloc, k, p, cur, Row::ExecFree, Error::NotGround);
    }
    let action = copy_literal(alloc, l)?;
    let shown = copy_literal(alloc, l)?;
    let stack = mem::replace(cur, Stack::new(alloc));
    p.agenda.hold_action(Acting { stack, action });
    Ok(Went::Action(shown))
}

/// What a relation comes to by itself.
fn holding(alloc: Global, r: &Relation) -> Result<Option<Subst>, CompareFault>
    ensures ok { IfOk result (λ o. comparing.holds r.now [] ≡ comparing.Gives o) }
    ensures fault { IfErr result (λ e. comparing.Refused (comparing.holds r.now []) e) }
{
    compare(alloc, r, &no_subst(alloc))
}

/// RelYes and RelNo. A substitution that makes it hold is applied.
fn relation<B: BeliefBase, A: Actions>(
    alloc: Global,
    k: &Surroundings<A>,
    p: &mut Circumstance<B>,
    cur: &mut Stack,
    r: &Relation,
) -> Result<Went, Starved>
    ensures made { IfOk result (λ w. rows.relation (spec.seen_around A.solve k.now B.rules p.old) (spec.seen B.beliefs p.old) cur.old r.now
        ≡ spec.made (spec.seen B.beliefs p.new) cur.new w) }
    ensures beliefs { p.new.beliefs ≡ p.old.beliefs }
    ensures number { p.new.number ≡ p.old.number }
{
    match holding(alloc, r) {
        Ok(Some(s)) => {
            cur.bind(&s)?;
            cur.remove_head();
            Ok(Went::Row(Row::RelYes))
        }
        Ok(None) => fails_as(alloc, k, p, cur, Row::RelNo, Error::TestFailed),
        Err(CompareFault::Arith { .. }) => {
            fails_as(alloc, k, p, cur, Row::ExecArith, Error::Arith)
        }
        Err(CompareFault::TermLimit) => {
            fails_as(alloc, k, p, cur, Row::ExecLimit, Error::TermLimit)
        }
        Err(CompareFault::Memory) => Err(Starved),
    }
}

/// The row of an internal action that changes nothing, by what the search for it answered.
fn answered<B: BeliefBase, A: Actions>(
    alloc: Global,
    k: &Surroundings<A>,
    p: &mut Circumstance<B>,
    cur: &mut Stack,
    answer: Answer,
) -> Result<Went, Starved>
    requires { NextAtMost (p.old.number + k.now.budgets.tries) answer }
    ensures made { IfOk result (λ w. rows.answered (spec.seen_around A.solve k.now B.rules p.old) (spec.seen B.beliefs p.old) cur.old answer
        ≡ spec.made (spec.seen B.beliefs p.new) cur.new w) }
    ensures beliefs { p.new.beliefs ≡ p.old.beliefs }
    ensures number { p.new.number ≤ p.old.number + k.now.budgets.tries }
{
    match answer {
        Answer::Arith => fails_as(alloc, k, p, cur, Row::ExecArith, Error::Arith),
        Answer::TermLimit => fails_as(alloc, k, p, cur, Row::IaBig, Error::TermLimit),
        Answer::Spent(spent) => Ok(Went::Spent {
            row: Row::IaSpent,
            spent,
        }),
        Answer::Nothing => fails_as(alloc, k, p, cur, Row::IaFail, Error::IaFailed),
        Answer::Found { subst, next } => solved(p, cur, Row::IaOk, &subst, next),
    }
}

/// The row of an internal action that changes nothing.
fn searched<B: BeliefBase, A: Actions>(
    alloc: Global,
    k: &Surroundings<A>,
    p: &mut Circumstance<B>,
    cur: &mut Stack,
    c: &Call,
) -> Result<Went, Starved>
    requires { p.old.number + k.now.budgets.tries < 2 ^ 64 - 1 }
    ensures made { IfOk result (λ w. rows.searched (spec.seen_around A.solve k.now B.rules p.old) (spec.seen B.beliefs p.old) cur.old c.now
        ≡ spec.made (spec.seen B.beliefs p.new) cur.new w) }
    ensures beliefs { p.new.beliefs ≡ p.old.beliefs }
    ensures number { p.new.number ≤ p.old.number + k.now.budgets.tries }
{
    let e = Expr::Inner(copy_call(alloc, c)?);
    let found = sought(alloc, k, p, &e);
    // A tree given away is cheaper to prove than one that ends in place.
    drop(e);
    let answer = found?;
    answered(alloc, k, p, cur, answer)
}

/// The row of an internal action. That of a deed is still to be made.
fn inner<B: BeliefBase, A: Actions>(
    alloc: Global,
    k: &Surroundings<A>,
    p: &mut Circumstance<B>,
    cur: &mut Stack,
    c: &Call,
) -> Result<Went, Starved>
    requires { p.old.number + k.now.budgets.tries < 2 ^ 64 - 1 }
    ensures made { IfOk result (λ w. rows.inner (spec.seen_around A.solve k.now B.rules p.old) (spec.seen B.beliefs p.old) cur.old c.now
        ≡ spec.made (spec.seen B.beliefs p.new) cur.new w) }
    ensures beliefs { p.new.beliefs ≡ p.old.beliefs }
    ensures number { p.new.number ≤ p.old.number + k.now.budgets.tries }
{
    match named(&c.name) {
        Some(Action::Print) => {
            let text = print_text(alloc, c.args.as_slice())?;
            cur.remove_head();
            Ok(Went::Say(text))
        }
        Some(Action::Fail) => fails_as(alloc, k, p, cur, Row::IaFail, Error::IaFailed),
        Some(Action::Does(_)) => Ok(Went::Outer(copy_call(alloc, c)?)),
        Some(Action::Collects(_) | Action::Looks(_)) | None => searched(alloc, k, p, cur, c),
    }
}

/// The row of a formula that is applied and settled. Beliefs get default source.
fn of_formula<B: BeliefBase, A: Actions>(
    alloc: Global,
    k: &Surroundings<A>,
    p: &mut Circumstance<B>,
    cur: &mut Stack,
    f: &Formula,
) -> Result<Went, Starved>
    requires room { p.old.number + k.now.budgets.tries < 2 ^ 64 - 1 }
    requires free { p.old.agenda.acting ≡ None }
    ensures made { IfOk result (λ w. rows.of_formula (spec.seen_around A.solve k.now B.rules p.old) (spec.seen B.beliefs p.old) cur.old f.now
        ≡ spec.made (spec.seen B.beliefs p.new) cur.new w) }
    ensures rules { B.rules p.new.beliefs ≡ B.rules p.old.beliefs }
    ensures number { p.new.number ≤ p.old.number + k.now.budgets.tries }
{
    match f {
        Formula::Act(l) => act(alloc, k, p, cur, l),
        Formula::Achieve(g) => achieve(alloc, p, cur, g),
        Formula::Spawn(g) => spawn(alloc, p, cur, g),
        Formula::Test(g) => test(alloc, k, p, cur, g),
        Formula::Add(b) => {
            let b = with_source(alloc, b)?;
            add(alloc, k, p, cur, &b)
        }
        Formula::Del(b) => {
            let b = with_source(alloc, b)?;
            delete(alloc, p, cur, &b)
        }
        Formula::Replace(b) => {
            let b = with_source(alloc, b)?;
            replace(alloc, k, p, cur, &b)
        }
        Formula::Rel(r) => relation(alloc, k, p, cur, r),
        Formula::Inner(c) => inner(alloc, k, p, cur, c),
    }
}

/// The row of a formula that is applied: ExecArith where it does not settle.
fn of_applied<B: BeliefBase, A: Actions>(
    alloc: Global,
    k: &Surroundings<A>,
    p: &mut Circumstance<B>,
    cur: &mut Stack,
    f: &Formula,
) -> Result<Went, Starved>
    requires room { p.old.number + k.now.budgets.tries < 2 ^ 64 - 1 }
    requires free { p.old.agenda.acting ≡ None }
    ensures made { IfOk result (λ w. rows.of_settled (spec.seen_around A.solve k.now B.rules p.old) (spec.seen B.beliefs p.old) cur.old (settling f.now)
        ≡ spec.made (spec.seen B.beliefs p.new) cur.new w) }
    ensures rules { B.rules p.new.beliefs ≡ B.rules p.old.beliefs }
    ensures number { p.new.number ≤ p.old.number + k.now.budgets.tries }
{
    match settle_formula(alloc, f) {
        Ok(settled) => {
            let went = of_formula(alloc, k, p, cur, &settled);
            drop(settled);
            went
        }
        Err(ArithFault::Arith { .. }) => {
            fails_as(alloc, k, p, cur, Row::ExecArith, Error::Arith)
        }
        Err(ArithFault::Memory) => Err(Starved),
    }
}

/// The row for the first formula of the current stack, while no other waits for its action. A search raises the counter by
/// at most `tries`.
#[tactic(auto, unfolding(crate::specs::Exec::exec))]
pub fn exec<B: BeliefBase, A: Actions>(
    alloc: Global,
    k: &Surroundings<A>,
    p: &mut Circumstance<B>,
    cur: &mut Stack,
) -> Result<Went, Starved>
    requires room { p.old.number + k.now.budgets.tries < 2 ^ 64 - 1 }
    requires free { p.old.agenda.acting ≡ None }
    ensures made { IfOk result (λ w. rows.exec (spec.seen_around A.solve k.now B.rules p.old) (spec.seen B.beliefs p.old) cur.old
        ≡ spec.made (spec.seen B.beliefs p.new) cur.new w) }
    ensures rules { B.rules p.new.beliefs ≡ B.rules p.old.beliefs }
    ensures number { p.new.number ≤ p.old.number + k.now.budgets.tries }
{
    match cur.head(alloc) {
        Ok(None) => Ok(Went::Row(Row::Exec0)),
        Ok(Some(f)) => {
            let went = of_applied(alloc, k, p, cur, &f);
            drop(f);
            went
        }
        Err(TermFault::TermLimit) => {
            fails_as(alloc, k, p, cur, Row::ExecLimit, Error::TermLimit)
        }
        Err(TermFault::Memory) => Err(Starved),
    }
}
