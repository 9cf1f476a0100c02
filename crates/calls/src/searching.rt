//! The calls of asl_resolve, over the beliefs and rules of the given source. Fresh numbers begin at 1.

ghost use Rattle.std.specs.Prelude.{◌≤◌, ◌<◌, ◌^◌};

use crate::asked::{CallAsked, number_at};
use crate::out::Out;
use crate::shapes::Does;
use asl_parser_expr::places::Raw;
use asl_resolve::actions::{Actions, GivenPairs};
use asl_resolve::all::all;
use asl_resolve::answers::{Answer, Answers, Budgets};
use asl_resolve::first::first;
use asl_term::sequence::{Seq, Starved};
use asl_term::syntax::{Call, Expr, Term};
use asl_unify::facts::Facts;
use asl_unify::subst::Subst;
use asl_unify::tree::Tree;
use std::alloc::Global;

/// Internal actions, each of which holds twice.
struct Twice;

impl Actions for Twice {
    ghost use Rattle.std.specs.Prelude.{[], ◌∷◌};
    ghost use Rattle.asl_resolve.specs.declared.actions.Inner.TheVariants as gives;

    ghost solve = { λ t name args s. gives.Sols (s ∷ s ∷ []) };

    fn solve_call(
        &self,
        alloc: Global,
        _call: &Call,
        subst: &Subst,
    ) -> Result<GivenPairs, Starved> {
        // That its pairs are sound is known once they are read.
        subst.pairs();
        let mut found = Seq::new(alloc);
        found.push(Seq::new(alloc))?;
        found.push(Seq::new(alloc))?;
        Ok(GivenPairs::Sols(found))
    }
}

/// What is asked: the term that is shown of a solution, the formula, what is bound before, and the budgets.
#[derive(Clone, Copy)]
struct Question<'a> {
    shown: &'a Term,
    asked: &'a Expr,
    subst: &'a Subst,
    budgets: Budgets,
}

/// The term that is shown, after a solution.
fn put_shown(term: &Term, subst: &Subst, out: &mut Out) {
    match term.apply(out.alloc, subst) {
        Ok(shown) => {
            out.term(&shown);
            drop(shown);
        }
        Err(fault) => out.told(&fault),
    }
}

/// The first solution, and the next fresh number.
fn put_first<F: Facts>(base: &F, q: &Question<'_>, out: &mut Out)
    requires { q.now.budgets.tries < 2 ^ 32 }
{
    match first(out.alloc, base, &Twice, q.asked, q.subst, 1, &q.budgets) {
        Ok(Answer::Found { subst, next }) => {
            put_shown(q.shown, &subst, out);
            drop(subst);
            out.counted(b" next", next);
        }
        Ok(Answer::Nothing) => out.put(b"nothing"),
        Ok(Answer::Spent(spent)) => out.told(&spent),
        Ok(Answer::Arith) => out.put(b"arith"),
        Ok(Answer::TermLimit) => out.put(b"limit"),
        Err(fault) => out.told(&fault),
    }
}

/// All solutions.
fn put_all<F: Facts>(base: &F, q: &Question<'_>, out: &mut Out)
    requires { q.now.budgets.tries < 2 ^ 32 }
{
    match all(out.alloc, base, &Twice, q.asked, q.subst, 1, &q.budgets) {
        Ok(Answers::All(found)) => {
            for subst in found.as_slice() {
                out.between(b" | ");
                put_shown(q.shown, subst, out);
            }
            if found.len() == 0 {
                out.put(b"nothing");
            }
            drop(found);
        }
        Ok(Answers::Spent(spent)) => out.told(&spent),
        Ok(Answers::Arith) => out.put(b"arith"),
        Ok(Answers::TermLimit) => out.put(b"limit"),
        Err(fault) => out.told(&fault),
    }
}

/// The budgets of a search: its third and its fourth argument, or the usual ones.
fn budgets_of(raws: &[Raw], out: &mut Out) -> Budgets
    ensures { result.tries ≤ 10_000_000 }
{
    Budgets {
        depth: number_at(raws, 2, 10_000, 500, out),
        tries: number_at(raws, 3, 10_000_000, 100_000, out),
    }
}

/// Searches for the first solution of the second argument, or for all of them; the first argument is what is shown of each.
pub fn search<F: Facts>(asked: &CallAsked<'_>, base: &F, out: &mut Out) {
    let [Raw::Plain(shown), formula, ..] = asked.raws else {
        return out.refuse("an argument is no term");
    };
    let Raw::Logic(formula) = formula else {
        return out.refuse("an argument is no formula");
    };
    let question = Question {
        shown,
        asked: formula,
        subst: asked.subst,
        budgets: budgets_of(asked.raws, out),
    };
    match asked.shape.does {
        Does::First => put_first(base, &question, out),
        _ => put_all(base, &question, out),
    }
}
