//! The rows AskOne, AskAll and AskSpent.

ghost use Rattle.std.specs.Prelude.{◌≡◌, ◌+◌, ◌<◌, ◌^◌, ◌-◌, cond, None, IfOk};
ghost use Rattle.asl_term.specs.declared.syntax.Expr.TheVariants as expr;
ghost use Rattle.asl_term.specs.declared.syntax.Term.TheVariants as term;
ghost use Rattle.asl_unify.specs.Applied.{applied_literal, within_literal};
ghost use Rattle.asl_exec_circumstance.specs.Circumstance as parts;
ghost use Rattle.asl_exec_circumstance.specs.Sought as searches;
ghost use Rattle.asl_resolve.specs.Listed.{list_of};
ghost use Rattle.asl_kqml.specs.Receive as spec;
ghost use Rattle.asl_kqml.specs.inner.Asks as inner;

use crate::content::is_nothing;
use crate::took::{Took, by};
use asl_beliefs::base::BeliefBase;
use asl_exec_circumstance::parts::{Circumstance, Surroundings};
use asl_exec_circumstance::rows::Row;
use asl_exec_circumstance::sought::sought;
use asl_resolve::actions::Actions;
use asl_resolve::all::all_listed;
use asl_resolve::answers::{Answer, Listed};
use asl_term::copying::{copy_literal, text_of};
use asl_term::sequence::{Seq, Starved};
use asl_term::syntax::{Expr, ListingOf, Literal, LiteralOf, Term, Terms};
use asl_unify::limits::TermFault;
use asl_unify::seal::seal;
use asl_unify::subst::Subst;
use asl_unify::tree::Tree;
use mas_mind::mind::{Message, Verb};
use std::alloc::Global;

/// The reply to a message. To an ask that nothing waits for it is sent only where it says something.
pub fn reply_by(
    alloc: Global,
    verb: Verb,
    me: u32,
    m: &Message,
    t: &Term,
) -> Result<Option<Message>, Starved>
    ensures { IfOk result (λ r. r ≡ spec.reply_by verb me m.now t.now) }
{
    if m.ask == 0 && is_nothing(t) {
        return Ok(None);
    }
    let content = seal(alloc, t)?;
    Ok(Some(Message {
        from: me,
        to: m.from,
        verb,
        content,
        ask: 0,
        reply: m.ask,
    }))
}

/// A row with this reply.
fn replies(alloc: Global, row: Row, me: u32, m: &Message, t: &Term) -> Result<Took, Starved>
    ensures { IfOk result (λ took. (p : parts.Circumstance) → spec.replies row p (spec.reply me m.now t.now) ≡ spec.received p took) }
{
    let reply = reply_by(alloc, Verb::Tell, me, m, t)?;
    Ok(Took::Row {
        row,
        reply,
        falls: Seq::new(alloc),
    })
}

/// `false`
fn no(alloc: Global) -> Result<Term, Starved>
    ensures { IfOk result (λ t. t ≡ spec.no) }
{
    let functor = text_of(alloc, b"false")?;
    Ok(Term::Lit(LiteralOf {
        neg: false,
        functor,
        args: Seq::new(alloc),
        annots: Seq::new(alloc),
    }))
}

/// A goal under a solution. A result past the limits counts as a fault.
fn found_one(alloc: Global, g: &Literal, s: &Subst) -> Result<Term, Starved>
    ensures { let l = applied_literal s.now g.now in IfOk result (λ t. t ≡ cond (within_literal l) (term.Lit l) spec.no) }
{
    match g.apply(alloc, s) {
        Ok(l) => Ok(Term::Lit(l)),
        Err(TermFault::TermLimit) => no(alloc),
        Err(TermFault::Memory) => Err(Starved),
    }
}

/// AskOne or AskSpent, by the answer of the search.
fn ask_one(
    alloc: Global,
    me: u32,
    m: &Message,
    g: &Literal,
    answer: &Answer,
) -> Result<Took, Starved>
    ensures { IfOk result (λ t. (p : parts.Circumstance) → spec.ask_one me m.now p g.now answer.now ≡ spec.received p t) }
{
    match answer {
        Answer::Spent(b) => Ok(Took::Spent(*b)),
        Answer::Found { subst, next: _ } => {
            let t = found_one(alloc, g, subst)?;
            let took = replies(alloc, Row::AskOne, me, m, &t);
            drop(t);
            took
        }
        Answer::Nothing | Answer::Arith | Answer::TermLimit => {
            let t = no(alloc)?;
            let took = replies(alloc, Row::AskOne, me, m, &t);
            drop(t);
            took
        }
    }
}

/// A list of these items.
pub fn list(items: Terms) -> Term
    ensures { result ≡ term.List (record { items = items; tail = None }) }
{
    Term::List(ListingOf { items, tail: None })
}

/// AskAll or AskSpent, by the list of the goal over all solutions. Where the search or the list passes the limits, it is
/// empty.
fn ask_all(alloc: Global, me: u32, m: &Message, answer: &Listed) -> Result<Took, Starved>
    ensures { IfOk result (λ t. (p : parts.Circumstance) → inner.ask_listed me m.now p answer.now ≡ spec.received p t) }
{
    match answer {
        Listed::Spent(b) => Ok(Took::Spent(*b)),
        Listed::List(t) => replies(alloc, Row::AskAll, me, m, t),
        Listed::Arith | Listed::TermLimit => {
            let t = list(Seq::new(alloc));
            let took = replies(alloc, Row::AskAll, me, m, &t);
            drop(t);
            took
        }
    }
}

/// What the search for one solution of a goal answers.
fn sought_one<B: BeliefBase, A: Actions>(
    alloc: Global,
    k: &Surroundings<A>,
    p: &Circumstance<B>,
    g: &Literal,
) -> Result<Answer, Starved>
    requires { p.now.number + k.now.budgets.tries < 2 ^ 64 - 1 }
    ensures { IfOk result (λ r. r ≡ searches.sought (parts.seen_around A.solve k.now B.rules p.now) (parts.seen B.beliefs p.now) (expr.Holds g.now)) }
{
    let e = Expr::Holds(copy_literal(alloc, g)?);
    let answer = sought(alloc, k, p, &e);
    drop(e);
    answer
}

/// The list of a term over all solutions of a goal.
fn listed_by<B: BeliefBase, A: Actions>(
    alloc: Global,
    k: &Surroundings<A>,
    p: &Circumstance<B>,
    g: &Literal,
    item: &Term,
) -> Result<Listed, Starved>
    requires { p.now.number + k.now.budgets.tries < 2 ^ 64 - 1 }
    ensures { IfOk result (λ r. r ≡ list_of item.now (spec.sought_all (parts.seen_around A.solve k.now B.rules p.now) (parts.seen B.beliefs p.now) g.now)) }
{
    let e = Expr::Holds(copy_literal(alloc, g)?);
    let answer = all_listed(
        alloc, &p.beliefs, &k.actions, &e, p.number, &k.budgets, item,
    );
    drop(e);
    answer
}

/// The list of a goal over all its solutions. No more of it is kept than a reply may have.
fn listed_all<B: BeliefBase, A: Actions>(
    alloc: Global,
    k: &Surroundings<A>,
    p: &Circumstance<B>,
    g: &Literal,
) -> Result<Listed, Starved>
    requires { p.now.number + k.now.budgets.tries < 2 ^ 64 - 1 }
    ensures { IfOk result (λ r. r
        ≡ list_of (term.Lit g.now) (spec.sought_all (parts.seen_around A.solve k.now B.rules p.now) (parts.seen B.beliefs p.now) g.now)) }
{
    let item = Term::Lit(copy_literal(alloc, g)?);
    let answer = listed_by(alloc, k, p, g, &item);
    drop(item);
    answer
}

/// AskOne or AskSpent, or Ignore where there is no goal.
pub fn asks_one<B: BeliefBase, A: Actions>(
    alloc: Global,
    k: &Surroundings<A>,
    me: u32,
    p: &Circumstance<B>,
    m: &Message,
    g: &Option<Literal>,
) -> Result<Took, Starved>
    requires { p.now.number + k.now.budgets.tries < 2 ^ 64 - 1 }
    ensures { let q = parts.seen B.beliefs p.now in
        IfOk result (λ t. spec.asks_one (parts.seen_around A.solve k.now B.rules p.now) me m.now q g.now
        ≡ spec.received q t) }
{
    match g {
        None => Ok(by(alloc, Row::Ignore)),
        Some(g) => {
            let answer = sought_one(alloc, k, p, g)?;
            let took = ask_one(alloc, me, m, g, &answer);
            drop(answer);
            took
        }
    }
}

/// AskAll or AskSpent, or Ignore where there is no goal.
pub fn asks_all<B: BeliefBase, A: Actions>(
    alloc: Global,
    k: &Surroundings<A>,
    me: u32,
    p: &Circumstance<B>,
    m: &Message,
    g: &Option<Literal>,
) -> Result<Took, Starved>
    requires { p.now.number + k.now.budgets.tries < 2 ^ 64 - 1 }
    ensures { let q = parts.seen B.beliefs p.now in
        IfOk result (λ t. spec.asks_all (parts.seen_around A.solve k.now B.rules p.now) me m.now q g.now
        ≡ spec.received q t) }
{
    match g {
        None => Ok(by(alloc, Row::Ignore)),
        Some(g) => {
            let answer = listed_all(alloc, k, p, g)?;
            let took = ask_all(alloc, me, m, &answer);
            drop(answer);
            took
        }
    }
}
