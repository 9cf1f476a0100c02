//! The rows Reply and ReplyFail.

ghost use Rattle.std.specs.Prelude.{◌≡◌, IfOk};
ghost use Rattle.asl_intend.specs.Agendas.{ask_of};
ghost use Rattle.asl_intend.specs.Stacks.{bound, without_head};
ghost use Rattle.asl_exec_circumstance.specs.Circumstance as parts;
ghost use Rattle.asl_kqml.specs.Receive as spec;

use crate::took::{Took, by};
use asl_beliefs::base::BeliefBase;
use asl_exec_circumstance::parts::{Circumstance, Surroundings};
use asl_exec_circumstance::rows::{Fall, Row};
use asl_fail::fail::fail;
use asl_intend::agenda::{Ask, Error};
use asl_intend::stack::Stack;
use asl_resolve::actions::Actions;
use asl_term::sequence::{Seq, Starved};
use asl_term::syntax::Term;
use asl_unify::matching::attempt;
use asl_unify::solve::{View, Work};
use asl_unify::subst::{Subst, no_subst};
use std::alloc::Global;

/// Reply: the stack is bound and goes on behind its ask.
fn goes_on<B: BeliefBase>(
    alloc: Global,
    p: &mut Circumstance<B>,
    mut stack: Stack,
    s: &Subst,
) -> Result<Took, Starved>
    ensures made { IfOk result (λ t. spec.by Row.Reply (parts.running (parts.seen B.beliefs p.old) (without_head (bound s.now stack)))
        ≡ spec.received (parts.seen B.beliefs p.new) t) }
    ensures beliefs { p.new.beliefs ≡ p.old.beliefs }
    ensures number { p.new.number ≡ p.old.number }
{
    match stack.bind(s) {
        Ok(()) => {
            stack.remove_head();
            p.agenda.ready(stack)?;
            Ok(by(alloc, Row::Reply))
        }
        Err(starved) => {
            drop(stack);
            Err(starved)
        }
    }
}

/// Reply or ReplyFail, by what unifies the answer with what takes it.
fn answered<B: BeliefBase, A: Actions>(
    alloc: Global,
    k: &Surroundings<A>,
    p: &mut Circumstance<B>,
    mut stack: Stack,
    s: &Option<Subst>,
) -> Result<Took, Starved>
    ensures made { IfOk result (λ t. spec.answered (parts.seen_around A.solve k.now B.rules p.old) (parts.seen B.beliefs p.old) stack s.now
        ≡ spec.received (parts.seen B.beliefs p.new) t) }
    ensures beliefs { p.new.beliefs ≡ p.old.beliefs }
    ensures number { p.new.number ≡ p.old.number }
{
    match s {
        Some(s) => goes_on(alloc, p, stack, s),
        None => {
            let error = Error::IaFailed;
            let failed = fail(alloc, &mut p.agenda, &k.lib, &mut stack, error, p.number);
            drop(stack);
            let mut falls = Seq::new(alloc);
            falls.push(Fall {
                error,
                fell: failed?,
            })?;
            Ok(Took::Row {
                row: Row::ReplyFail,
                reply: None,
                falls,
            })
        }
    }
}

/// Reply or ReplyFail of the ask of a number, or Ignore where no ask has it.
pub fn answers_ask<B: BeliefBase, A: Actions>(
    alloc: Global,
    k: &Surroundings<A>,
    p: &mut Circumstance<B>,
    number: u64,
    content: &Term,
) -> Result<Took, Starved>
    ensures made { IfOk result (λ t. spec.answers_ask (parts.seen_around A.solve k.now B.rules p.old)
        (parts.seen B.beliefs p.old) number content.now (ask_of number p.old.agenda.asks)
        ≡ spec.received (parts.seen B.beliefs p.new) t) }
    ensures beliefs { p.new.beliefs ≡ p.old.beliefs }
    ensures number { p.new.number ≡ p.old.number }
{
    match p.agenda.take_ask(number) {
        None => Ok(by(alloc, Row::Ignore)),
        Some(a) => {
            let Ask {
                number: _,
                answer,
                stack,
            } = a;
            let work = Work::Two(View::Whole(&answer), View::Whole(content));
            let s = attempt(alloc, work, &no_subst(alloc));
            drop(answer);
            match s {
                Ok(s) => answered(alloc, k, p, stack, &s),
                Err(starved) => {
                    drop(stack);
                    Err(starved)
                }
            }
        }
    }
}
